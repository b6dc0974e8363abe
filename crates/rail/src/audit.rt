// The law over runs, of a rail as it stands.
ghost use Rattle.std.specs.Prelude.{◌≡◌, ℕ, List};
ghost use Rattle.places.specs.Places.{state_count};
ghost use Rattle.places.specs.declared.place.State.TheVariants as state;
ghost use Rattle.rail.specs.Laws.{Law};
ghost use Rattle.rail.specs.Model.{table_of};
ghost use Rattle.rail.specs.Runs.{run};
ghost use Rattle.rail.specs.Table.{opened};
ghost use Rattle.rail.specs.declared.call.Call.{Call};

use crate::rail::Rail;
use joint::kind::Kind;
use places::place::{Place, State};
use places::questions::count_in;

// How many places hang, and how many are lifted.
#[derive(Clone, Copy, PartialEq, Eq, Debug)]
pub struct Standing {
    pub hanging: usize,
    pub lifted: usize,
}

impl Standing {
    pub fn of<K: Kind>(places: &[Place<K>]) -> Standing
        ensures hanging { result.hanging ≡ state_count state.Hanging places.now }
        ensures lifted { result.lifted ≡ state_count state.Lifted places.now }
    {
        Standing {
            hanging: count_in(places, State::Hanging),
            lifted: count_in(places, State::Lifted),
        }
    }
}

impl<'a, K: Kind> Rail<'a, K> {
    // How the places stand. Whatever calls have led here from opening, the law over runs holds of them and of this rail.
    pub fn audit(&self) -> Standing
        ensures hanging { result.hanging ≡ state_count state.Hanging (table_of self.now).places }
        ensures lifted { result.lifted ≡ state_count state.Lifted (table_of self.now).places }
        ensures law { (number size : ℕ) (cs : List (Call K.Joint)) → table_of self.now ≡ run K.Kind (opened number size) cs → Law K.Kind number size cs (table_of self.now) }
    {
        Standing::of(self.places)
    }
}
