// A list of calls from opening, by their arguments alone.
ghost use Rattle.std.specs.Prelude.{◌≡◌, map, MatchResult};
ghost use Rattle.rail.specs.Model.{table_of};
ghost use Rattle.rail.specs.Replays.{Replayed, Unreplayed};
ghost use Rattle.rail.specs.Table.{answer, after, as_answer};
ghost use Rattle.rail.specs.declared.replay.ReplayFault.TheVariants.{Opening, Memory};

use crate::call::{Answer, Call, Noted};
use crate::opening::{clear, length_allowed};
use crate::rail::Rail;
use joint::kind::Kind;
use places::fault::RailFault;
use places::place::Place;
use places::work::{back_in, lift_in, scrap_in};
use std::alloc::{AllocError, Global};

impl<'a, K: Kind> Rail<'a, K> {
    // What a call gives by its arguments alone. No slip is made: a call shows its number and its place.
    fn given(&mut self, call: Call<K::Joint>) -> Result<Answer<K::Joint>, RailFault>
        ensures table { table_of self.new ≡ after K.Kind (table_of self.old) call }
        ensures answer { as_answer (λ a. a) result ≡ answer K.Kind (table_of self.old) call }
        ensures same { self.new.places.ghost_name ≡ self.old.places.ghost_name }
    {
        Ok(match call {
            Call::Hang(place, given) => Answer::Shows(self.hang(place, given)?),
            Call::Lift(place) => {
                lift_in(self.places, place)?;
                Answer::Handed(self.number, place)
            }
            Call::HangBack(number, place, given) => {
                Answer::Shows(back_in(self.number, self.places, number, place, given)?)
            }
            Call::Scrap(number, place) => {
                scrap_in(self.number, self.places, number, place)?;
                Answer::Done
            }
            Call::AskState(place) => Answer::Stands(self.state(place)?),
            Call::AskJoint(place) => Answer::Holds(self.joint(place)?),
            Call::AskSheet(place) => Answer::Shows(self.sheet(place)?),
            Call::AskFigure(place, mode) => Answer::Prints(self.figure(place, mode)?),
            Call::AskClass(class) => Answer::Counts(self.class_count(class)),
        })
    }

    // The answer to a call: what it gives, or its refusal.
    fn perform(&mut self, call: Call<K::Joint>) -> Answer<K::Joint>
        ensures table { table_of self.new ≡ after K.Kind (table_of self.old) call }
        ensures answer { result ≡ answer K.Kind (table_of self.old) call }
        ensures same { self.new.places.ghost_name ≡ self.old.places.ghost_name }
    {
        match self.given(call) {
            Ok(answer) => answer,
            Err(fault) => Answer::Refused(fault),
        }
    }
}

// Why a replay gives no answers: no rail was opened, or there is no memory for them.
#[derive(Clone, Copy, PartialEq, Eq, Debug)]
pub enum ReplayFault {
    Opening(RailFault),
    Memory,
}

impl From<RailFault> for ReplayFault {
    ghost from_gives = { λ f r. r ≡ Opening f };

    fn from(fault: RailFault) -> ReplayFault {
        ReplayFault::Opening(fault)
    }
}

impl From<AllocError> for ReplayFault {
    ghost from_gives = { λ _ r. r ≡ Memory };

    fn from(_none: AllocError) -> ReplayFault {
        ReplayFault::Memory
    }
}

// Opens a rail and makes the calls of a log in turn. What is answered and left is what the table of places has, and the law over runs holds.
// Refused, it leaves the places as they were: the memory for the answers is had before a place is touched.
pub fn replay_log<K: Kind, N: Noted<K::Joint>>(
    heap: Global,
    number: u32,
    places: &mut [Place<K>],
    log: &[N],
) -> Result<Vec<Answer<K::Joint>>, ReplayFault>
    ensures { MatchResult result (λ v. Replayed K.Kind number places.old (map N.call log.now) v.items places.new) (λ f. Unreplayed places.old places.new f) }
{
    length_allowed(places.len())?;
    let mut answers = Vec::with_capacity(heap, log.len())?;
    clear(places);
    let mut rail = Rail { number, places };
    for entry in log {
        answers.push_reserved(rail.perform(entry.noted()));
    }
    Ok(answers)
}

// The same of a list of calls.
pub fn replay<K: Kind>(
    heap: Global,
    number: u32,
    places: &mut [Place<K>],
    calls: &[Call<K::Joint>],
) -> Result<Vec<Answer<K::Joint>>, ReplayFault>
    ensures { MatchResult result (λ v. Replayed K.Kind number places.old calls.now v.items places.new) (λ f. Unreplayed places.old places.new f) }
{
    replay_log(heap, number, places, calls)
}
