// Opening a rail.
ghost use Rattle.std.specs.Prelude.{◌≡◌, length, Ok, Err};
ghost use Rattle.rail.specs.Model.{table_of};
ghost use Rattle.rail.specs.Table.{opened, open_answer, empties};

use crate::rail::Rail;
use joint::checks::owed;
use joint::kind::Kind;
use places::fault::RailFault;
use places::place::Place;

// The most places that a rail has.
const MOST: usize = 4096;

// A rail has 1 to 4096 places.
pub(crate) fn length_allowed(size: usize) -> Result<(), RailFault>
    ensures { result ≡ open_answer size }
{
    owed((1..=MOST).contains(&size), RailFault::Length(size))
}

// Empties every place.
pub(crate) fn clear<K: Kind>(places: &mut [Place<K>])
    ensures { places.new ≡ empties (length places.old) }
{
    places.fill(Place::Empty);
}

impl<'a, K: Kind> Rail<'a, K> {
    // A rail of empty places. Only its length may be refused, and then the places come back as they were.
    pub fn open(
        number: u32,
        places: &'a mut [Place<K>],
    ) -> Result<Rail<'a, K>, (RailFault, &'a mut [Place<K>])>
        ensures { elim result [ Ok rail ↦ (open_answer (length places.old) ≡ Ok tt) × (table_of rail ≡ opened number (length places.old)) | Err e ↦ (open_answer (length places.old) ≡ Err e.0) × (e.1.now ≡ places.old) ] }
    {
        if let Err(fault) = length_allowed(places.len()) {
            return Err((fault, places));
        }
        clear(places);
        Ok(Rail { number, places })
    }
}
