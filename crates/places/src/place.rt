// A place of a rail.
use joint::sheet::Sheet;

// `K` is a joint that its kind admits. A place holds it with its sheet, by value.
#[derive(Clone, Copy)]
pub enum Place<K> {
    Empty,
    Hanging(K, Sheet),
    // the card was lifted, against a slip that is still out
    Lifted,
}

// The state of a place, as a plain tag.
#[derive(Clone, Copy, PartialEq, Eq, Debug)]
pub enum State {
    Empty,
    Hanging,
    Lifted,
}

// What a call is to a place, as a plain tag.
#[derive(Clone, Copy)]
pub enum Event {
    Hang,
    Lift,
    HangBack,
    Scrap,
    // a question for the joint, the sheet or a figure
    Ask,
}
