// The calls of a rail by their arguments alone, and what is answered. `R` is what a card says of a joint.
ghost use Rattle.std.specs.Prelude.{◌≡◌};
ghost use Rattle.rail.specs.declared.call.Call.{Call};

use joint::sheet::Sheet;
use places::fault::RailFault;
use places::place::State;

#[derive(Clone, Copy)]
pub enum Call<R> {
    Hang(usize, R),
    Lift(usize),
    // a slip is its rail number and its place
    HangBack(u32, usize, R),
    Scrap(u32, usize),
    AskState(usize),
    AskJoint(usize),
    AskSheet(usize),
    AskFigure(usize, u32),
    AskClass(u8),
}

// What a log keeps of a call: the call itself, or an entry that has it.
pub trait Noted<R> {
    ghost call: { Self → Call R };

    fn noted(&self) -> Call<R>
        ensures { result ≡ call self.now };
}

impl<R: Copy> Noted<R> for Call<R> {
    ghost call = { λ c. c };

    fn noted(&self) -> Call<R> {
        *self
    }
}

#[derive(Clone, Copy, PartialEq)]
pub enum Answer<R> {
    // of a scrap
    Done,
    // a slip, by its rail number and its place
    Handed(u32, usize),
    Stands(State),
    Holds(R),
    // the sheet that was put in, or that was asked for
    Shows(Sheet),
    // the figure of a mode, and nothing where it does not bind
    Prints(Option<u64>),
    Counts(usize),
    Refused(RailFault),
}
