// The calls that change a place. Each answers the sheet that it puts in, or nothing, or the fault; refused, it leaves every place as it was.
ghost use Rattle.std.specs.Prelude.{◌≡◌, ◌<◌, length, IfOk};
ghost use Rattle.places.specs.Places.{due, own, then, card_to, hang_to, lift_to, back_to, scrap_to, hung, put, sheet_told, done};

use crate::fault::RailFault;
use crate::place::{Event, Place, State};
use crate::turns::turn;
use joint::checks::owed;
use joint::kind::Kind;
use joint::sheet::Sheet;
use joint::work::worked_sheet;

// The state that the event leads the place to, or the fault.
pub(crate) fn due_at<K>(places: &[Place<K>], place: usize, event: Event) -> Result<State, RailFault>
    ensures value { result ≡ due places.now place event }
    ensures there { IfOk result (λ _. place < length places.now) }
{
    match (places.get(place), event) {
        (Some(here), _) => turn(here.state(), event, place),
        (None, Event::HangBack | Event::Scrap) => Err(RailFault::BadSlip(place)),
        (None, Event::Hang | Event::Lift | Event::Ask) => Err(RailFault::NoPlace(place)),
    }
}

// A slip is good only at a rail of its own number.
fn own_slip(number: u32, shown: u32, place: usize) -> Result<(), RailFault>
    ensures { result ≡ own number shown place }
{
    owed(shown == number, RailFault::BadSlip(place))
}

// Leaves the place as `next`, where the event is due there.
fn put_in<K: Kind>(
    places: &mut [Place<K>],
    place: usize,
    event: Event,
    next: Place<K>,
) -> Result<(), RailFault>
    ensures places { places.new ≡ put places.old place (then (due places.old place event) (Ok next)) }
    ensures answer { result ≡ done (then (due places.old place event) (Ok next)) }
{
    due_at(places, place, event)?;
    places[place] = next;
    Ok(())
}

// Hangs the joint of a card, with its sheet, where the event is due.
fn hang_card<K: Kind>(
    places: &mut [Place<K>],
    place: usize,
    event: Event,
    given: K::Joint,
) -> Result<Sheet, RailFault>
    ensures places { places.new ≡ hung K.Kind places.old place (card_to K.Kind places.old place event given) }
    ensures answer { result ≡ sheet_told K.Kind (card_to K.Kind places.old place event given) }
{
    due_at(places, place, event)?;
    let joint = K::admit(given)?;
    let sheet = worked_sheet(&joint);
    places[place] = Place::Hanging(joint, sheet);
    Ok(sheet)
}

// Hangs the joint of a card on an empty place.
pub fn hang_in<K: Kind>(
    places: &mut [Place<K>],
    place: usize,
    given: K::Joint,
) -> Result<Sheet, RailFault>
    ensures places { places.new ≡ hung K.Kind places.old place (hang_to K.Kind places.old place given) }
    ensures answer { result ≡ sheet_told K.Kind (hang_to K.Kind places.old place given) }
{
    hang_card(places, place, Event::Hang, given)
}

// Lifts the card of a hanging place.
pub fn lift_in<K: Kind>(places: &mut [Place<K>], place: usize) -> Result<(), RailFault>
    ensures places { places.new ≡ put places.old place (lift_to places.old place) }
    ensures answer { result ≡ done (lift_to places.old place) }
{
    put_in(places, place, Event::Lift, Place::Lifted)
}

// Hangs the joint of a card back on a lifted place, by a slip of the number `shown`, on the rail of the number `number`.
pub fn back_in<K: Kind>(
    number: u32,
    places: &mut [Place<K>],
    shown: u32,
    place: usize,
    given: K::Joint,
) -> Result<Sheet, RailFault>
    ensures places { places.new ≡ hung K.Kind places.old place (back_to K.Kind number places.old shown place given) }
    ensures answer { result ≡ sheet_told K.Kind (back_to K.Kind number places.old shown place given) }
{
    own_slip(number, shown, place)?;
    hang_card(places, place, Event::HangBack, given)
}

// Empties a lifted place, by a slip.
pub fn scrap_in<K: Kind>(
    number: u32,
    places: &mut [Place<K>],
    shown: u32,
    place: usize,
) -> Result<(), RailFault>
    ensures places { places.new ≡ put places.old place (scrap_to number places.old shown place) }
    ensures answer { result ≡ done (scrap_to number places.old shown place) }
{
    own_slip(number, shown, place)?;
    put_in(places, place, Event::Scrap, Place::Empty)
}
