// What the state of a place allows.
ghost use Rattle.std.specs.Prelude.{◌≡◌};
ghost use Rattle.places.specs.Places.{state_of, turned};

use crate::fault::RailFault;
use crate::place::{Event, Place, State};

impl<K> Place<K> {
    pub fn state(&self) -> State
        ensures { result ≡ state_of self.now }
    {
        match self {
            Place::Empty => State::Empty,
            Place::Hanging(_, _) => State::Hanging,
            Place::Lifted => State::Lifted,
        }
    }
}

// The state that the event leads to, or the fault of a pair that does not fit; `place` is where it happens.
pub fn turn(state: State, event: Event, place: usize) -> Result<State, RailFault>
    ensures { result ≡ turned state event place }
{
    match (state, event) {
        (State::Empty, Event::Hang) => Ok(State::Hanging),
        (State::Hanging, Event::Lift) => Ok(State::Lifted),
        (State::Lifted, Event::HangBack) => Ok(State::Hanging),
        (State::Lifted, Event::Scrap) => Ok(State::Empty),
        (State::Hanging, Event::Ask) => Ok(State::Hanging),
        (_, Event::HangBack | Event::Scrap) => Err(RailFault::BadSlip(place)),
        (_, Event::Hang | Event::Lift | Event::Ask) => Err(RailFault::WrongState(place)),
    }
}
