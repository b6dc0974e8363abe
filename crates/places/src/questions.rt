// The questions. They change nothing.
ghost use Rattle.std.specs.Prelude.{◌≡◌};
ghost use Rattle.places.specs.Places.{due, giving, state_at, card_at, joint_at, sheet_at, known, figure_at, class_count, state_count};
ghost use Rattle.places.specs.declared.place.Event.TheVariants as event;
ghost use Rattle.places.specs.declared.place.State.TheVariants as state;

use crate::fault::RailFault;
use crate::place::{Place, State};
use joint::checks::owed;
use joint::kind::Kind;
use joint::sheet::Sheet;

pub fn state_in<K: Kind>(places: &[Place<K>], place: usize) -> Result<State, RailFault>
    ensures { result ≡ state_at places.now place }
{
    places
        .get(place)
        .map(Place::state)
        .ok_or(RailFault::NoPlace(place))
}

// The admitted joint that hangs there, with its sheet: refused exactly as the asking of a place is.
fn card_in<K: Kind>(places: &[Place<K>], place: usize) -> Result<(K, Sheet), RailFault>
    ensures value { result ≡ card_at places.now place }
    ensures asked { giving (λ _. state.Hanging) result ≡ due places.now place event.Ask }
{
    match places.get(place) {
        Some(Place::Hanging(joint, sheet)) => Ok((*joint, *sheet)),
        Some(Place::Empty | Place::Lifted) => Err(RailFault::WrongState(place)),
        None => Err(RailFault::NoPlace(place)),
    }
}

// What the card of a hanging place says.
pub fn joint_in<K: Kind>(places: &[Place<K>], place: usize) -> Result<K::Joint, RailFault>
    ensures { result ≡ joint_at K.Kind places.now place }
{
    let (joint, _) = card_in(places, place)?;
    Ok(joint.given())
}

pub fn sheet_in<K: Kind>(places: &[Place<K>], place: usize) -> Result<Sheet, RailFault>
    ensures { result ≡ sheet_at places.now place }
{
    let (_, sheet) = card_in(places, place)?;
    Ok(sheet)
}

// Shear modes count from 1, tying modes from 21.
fn known_mode<K: Kind>(mode: u32) -> Result<(), RailFault>
    ensures { result ≡ known K.SHEAR_MODES K.TYING_MODES mode }
{
    let shear = (1..=K::SHEAR_MODES).contains(&mode);
    let tying = (21..21 + K::TYING_MODES).contains(&mode);
    owed(shear || tying, RailFault::NoMode(mode))
}

// The figure of a mode of the joint that hangs there, and nothing where the mode does not bind.
pub fn figure_in<K: Kind>(
    places: &[Place<K>],
    place: usize,
    mode: u32,
) -> Result<Option<u64>, RailFault>
    ensures { result ≡ figure_at K.Kind places.now place mode }
{
    let (joint, _) = card_in(places, place)?;
    known_mode::<K>(mode)?;
    Ok(joint.figure(mode))
}

// How many cards of the class hang.
pub fn class_in<K: Kind>(places: &[Place<K>], class: u8) -> usize
    ensures { result ≡ class_count class places.now }
{
    places
        .iter()
        .filter(|place| matches!(place, Place::Hanging(_, sheet) if sheet.class == class))
        .count()
}

// How many places are in the state.
pub fn count_in<K: Kind>(places: &[Place<K>], state: State) -> usize
    ensures { result ≡ state_count state places.now }
{
    places.iter().filter(|place| place.state() == state).count()
}
