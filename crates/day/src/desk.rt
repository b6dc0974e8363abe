// A coordinator's desk: a rail, the slips that are out, and the day's log.
ghost use Rattle.std.specs.Prelude.{◌≡◌, ◌<◌, [], IfOk, vec_len, vec_capacity, MatchOption, OnOk, OnErr, OnSome};
ghost use Rattle.day.specs.Days.{NoneFor, ComesToCall, SlipRoom, Carried};
ghost use Rattle.day.specs.Desks.{Called, HungBack, Went, Unchanged, Ended};
ghost use Rattle.day.specs.declared.desk.Outcome.TheVariants.{Made};
ghost use Rattle.places.specs.Places.{card_at};
ghost use Rattle.rail.specs.Model.{table_of};
ghost use Rattle.rail.specs.Table.{answer, as_answer};
ghost use Rattle.rail.specs.declared.call.Call.TheVariants.{Hang, Lift, HangBack, Scrap, AskState, AskSheet, AskFigure};

use crate::order::Order;
use joint::kind::Kind;
use places::fault::RailFault;
use rail::audit::Standing;
use rail::call::{Answer, Call, Noted};
use rail::rail::Rail;
use rail::slip::Slip;
use std::alloc::{AllocError, Global};

// A slip that is out, with the card that was lifted against it.
pub struct Kept<R> {
    pub slip: Slip,
    pub card: R,
}

// An entry of the day's log: a call, and what was answered to it.
#[derive(Clone, Copy)]
pub struct Entry<R> {
    pub call: Call<R>,
    pub answer: Answer<R>,
}

impl<R: Copy> Noted<R> for Entry<R> {
    ghost call = { λ e. e.call };

    fn noted(&self) -> Call<R> {
        self.call
    }
}

// What became of an order.
#[derive(Clone, Copy)]
pub enum Outcome<R> {
    // a call was made, and answered
    Made(Entry<R>),
    // no slip is kept for this place
    NoSlip(usize),
    // classes go from 0 to 255
    NoClass(u32),
}

pub struct Desk<'a, K: Kind> {
    rail: Rail<'a, K>,
    // the last that was kept stands last
    kept: Vec<Kept<K::Joint>>,
    log: Vec<Entry<K::Joint>>,
}

// A day that has ended: how the places stand, and the log, whose entries from `ended` on ended it.
#[derive(Drop)]
pub struct Closed<R> {
    pub standing: Standing,
    pub log: Vec<Entry<R>>,
    pub ended: usize,
}

// Takes out the slip that is kept for a place.
fn take_slip<R>(slips: &mut Vec<Kept<R>>, place: usize) -> Option<Kept<R>>
    ensures taken { MatchOption result (NoneFor slips.old.items place × (slips.new.items ≡ slips.old.items)) (λ k. k.slip.place ≡ place) }
    ensures room { OnSome result (vec_len slips.new < vec_capacity slips.new) }
{
    let at = slips.iter().position(|kept| kept.slip.place() == place)?;
    Some(slips.remove(at))
}

impl<R> Entry<R> {
    // A call with its answer, or with the rail's refusal.
    fn new(call: Call<R>, answered: Result<Answer<R>, RailFault>) -> Entry<R>
        ensures { result ≡ record { call = call; answer = as_answer (λ a. a) answered } }
    {
        match answered {
            Ok(answer) => Entry { call, answer },
            Err(fault) => Entry {
                call,
                answer: Answer::Refused(fault),
            },
        }
    }
}

fn made<R>(call: Call<R>, answered: Result<Answer<R>, RailFault>) -> Outcome<R>
    ensures { result ≡ Made (record { call = call; answer = as_answer (λ a. a) answered }) }
{
    Outcome::Made(Entry::new(call, answered))
}

impl<'a, K: Kind> Desk<'a, K> {
    // A desk at the beginning of its day.
    pub fn new(heap: Global, rail: Rail<'a, K>) -> Desk<'a, K>
        ensures rail { table_of result.rail ≡ table_of rail.entry }
        ensures kept { result.kept.items ≡ [] }
        ensures log { result.log.items ≡ [] }
    {
        Desk {
            rail,
            kept: Vec::new(heap),
            log: Vec::new(heap),
        }
    }

    fn hang(&mut self, place: usize, given: K::Joint) -> Result<Answer<K::Joint>, RailFault>
        ensures { Called K.Kind self.old (Hang place given) result self.new }
    {
        let sheet = self.rail.hang(place, given)?;
        Ok(Answer::Shows(sheet))
    }

    // Lifts a card, and keeps the slip with what the card says.
    fn lift(&mut self, place: usize) -> Result<Answer<K::Joint>, RailFault>
        requires { IfOk (card_at (table_of self.old.rail).places place) (λ _. vec_len self.old.kept < vec_capacity self.old.kept) }
        ensures { Called K.Kind self.old (Lift place) result self.new }
    {
        let held = self.rail.joint(place);
        let slip = self.rail.lift(place)?;
        let handed = Answer::Handed(slip.number(), slip.place());
        let card = held.unwrap();
        self.kept.push_reserved(Kept { slip, card });
        Ok(handed)
    }

    // Hangs a card back by a slip. A refused slip is kept on.
    fn back(&mut self, kept: Kept<K::Joint>, given: K::Joint) -> Result<Answer<K::Joint>, RailFault>
        requires { vec_len self.old.kept < vec_capacity self.old.kept }
        ensures { Called K.Kind self.old (HangBack kept.slip.number kept.slip.place given) result self.new }
    {
        let Kept { slip, card } = kept;
        match self.rail.hang_back(slip, given) {
            Ok(sheet) => Ok(Answer::Shows(sheet)),
            Err((slip, fault)) => {
                self.kept.push_reserved(Kept { slip, card });
                Err(fault)
            }
        }
    }

    fn scrap(&mut self, slip: Slip) -> Result<Answer<K::Joint>, RailFault>
        ensures called { Called K.Kind self.old (Scrap slip.number slip.place) result self.new }
        ensures kept { self.new.kept ≡ self.old.kept }
    {
        self.rail.scrap(slip)?;
        Ok(Answer::Done)
    }

    fn state(&self, place: usize) -> Result<Answer<K::Joint>, RailFault>
        ensures { as_answer (λ a. a) result ≡ answer K.Kind (table_of self.now.rail) (AskState place) }
    {
        let state = self.rail.state(place)?;
        Ok(Answer::Stands(state))
    }

    fn sheet(&self, place: usize) -> Result<Answer<K::Joint>, RailFault>
        ensures { as_answer (λ a. a) result ≡ answer K.Kind (table_of self.now.rail) (AskSheet place) }
    {
        let sheet = self.rail.sheet(place)?;
        Ok(Answer::Shows(sheet))
    }

    fn figure(&self, place: usize, mode: u32) -> Result<Answer<K::Joint>, RailFault>
        ensures { as_answer (λ a. a) result ≡ answer K.Kind (table_of self.now.rail) (AskFigure place mode) }
    {
        let figure = self.rail.figure(place, mode)?;
        Ok(Answer::Prints(figure))
    }

    // What becomes of an order that comes to no call: for its place no slip is kept, or there is no such class.
    fn no_call(&self, order: Order<K::Joint>) -> Option<Outcome<K::Joint>>
        ensures { MatchOption result (ComesToCall self.now.kept.items order) (λ x. Carried K.Kind (table_of self.now.rail) self.now.kept.items order x (table_of self.now.rail)) }
    {
        match order {
            Order::Back(place, _) | Order::Scrap(place) => {
                let none_kept = self.kept.iter().all(|out| out.slip.place() != place);
                none_kept.then_some(Outcome::NoSlip(place))
            }
            Order::Class(class) => (class > 255).then_some(Outcome::NoClass(class)),
            _ => None,
        }
    }

    // Room for the slip that an order hands out.
    fn make_room(&mut self, order: Order<K::Joint>) -> Result<(), AllocError>
        ensures room { OnOk result (SlipRoom (table_of self.new.rail) order (vec_len self.new.kept) (vec_capacity self.new.kept)) }
        ensures unchanged { Unchanged self.old self.new }
        ensures log { self.new.log ≡ self.old.log }
    {
        match order {
            Order::Lift(place) if self.rail.joint(place).is_ok() => self.kept.reserve(1),
            _ => Ok(()),
        }
    }

    // Makes the call of an order. There is room for the slip that it hands out.
    fn make(&mut self, order: Order<K::Joint>) -> Outcome<K::Joint>
        requires { SlipRoom (table_of self.old.rail) order (vec_len self.old.kept) (vec_capacity self.old.kept) }
        ensures carried { Carried K.Kind (table_of self.old.rail) self.old.kept.items order result (table_of self.new.rail) }
        ensures log { self.new.log ≡ self.old.log }
    {
        match order {
            Order::Hang(place, given) => made(Call::Hang(place, given), self.hang(place, given)),
            Order::Lift(place) => made(Call::Lift(place), self.lift(place)),
            Order::Back(place, given) => match take_slip(&mut self.kept, place) {
                Some(kept) => {
                    let call = Call::HangBack(kept.slip.number(), place, given);
                    made(call, self.back(kept, given))
                }
                None => Outcome::NoSlip(place),
            },
            Order::Scrap(place) => match take_slip(&mut self.kept, place) {
                Some(Kept { slip, card: _ }) => {
                    let call = Call::Scrap(slip.number(), place);
                    made(call, self.scrap(slip))
                }
                None => Outcome::NoSlip(place),
            },
            Order::State(place) => made(Call::AskState(place), self.state(place)),
            Order::Sheet(place) => made(Call::AskSheet(place), self.sheet(place)),
            Order::Figure(place, mode) => {
                made(Call::AskFigure(place, mode), self.figure(place, mode))
            }
            Order::Class(class) => match u8::try_from(class) {
                Ok(class) => {
                    let count = self.rail.class_count(class);
                    made(Call::AskClass(class), Ok(Answer::Counts(count)))
                }
                Err(_) => Outcome::NoClass(class),
            },
        }
    }

    // Carries out an order, and notes the call in the log. Room for what the call needs comes first: without it no call is made.
    // An order that comes to no call needs none, and is never refused.
    pub fn carry_out(&mut self, order: Order<K::Joint>) -> Result<Outcome<K::Joint>, AllocError>
        ensures carried { IfOk result (λ x. Carried K.Kind (table_of self.old.rail) self.old.kept.items order x (table_of self.new.rail)) }
        ensures stretch { OnOk result (Went K.Kind self.old self.new) }
        ensures unchanged { OnErr result (Unchanged self.old self.new) }
        ensures needed { OnErr result (ComesToCall self.old.kept.items order) }
    {
        if let Some(none) = self.no_call(order) {
            return Ok(none);
        }
        self.make_room(order)?;
        self.log.reserve(1)?;
        match self.make(order) {
            Outcome::Made(entry) => {
                self.log.push_reserved(entry);
                Ok(Outcome::Made(entry))
            }
            none => Ok(none),
        }
    }

    // Hangs a card back unchanged, and notes it; should the rail refuse it, the slip is scrapped.
    // The slip is spent also where there is no memory to note it, which the answer says.
    fn settle(&mut self, slip: Slip, card: K::Joint) -> Result<(), AllocError>
        ensures kept { self.new.kept ≡ self.old.kept }
        ensures back { OnOk result (HungBack K.Kind self.old slip card self.new) }
        ensures stretch { OnOk result (Went K.Kind self.old self.new) }
    {
        let number = slip.number();
        let place = slip.place();
        let back = Call::HangBack(number, place, card);
        match self.rail.hang_back(slip, card) {
            Ok(sheet) => {
                self.log.push(Entry::new(back, Ok(Answer::Shows(sheet))))?;
                Ok(())
            }
            Err((slip, fault)) => {
                let scrap = Call::Scrap(number, place);
                let scrapped = self.scrap(slip);
                self.log.push(Entry::new(back, Err(fault)))?;
                self.log.push(Entry::new(scrap, scrapped))?;
                Ok(())
            }
        }
    }

    // Hangs back unchanged every card that is still lifted, the last slip that was kept first: no slip is out after this.
    // Where there was no memory to note them all, the answer says so.
    #[tactic(auto, using(crate::proofs::Goes::goes_on_noted))]
    pub fn settle_all(&mut self) -> Result<(), AllocError>
        ensures spent { vec_len self.new.kept ≡ 0 }
        ensures stretch { OnOk result (Went K.Kind self.old self.new) }
    {
        let mut noted = Ok(());
        while let Some(Kept { slip, card }) = self.kept.pop() {
            noted = noted.and(self.settle(slip, card));
        }
        noted
    }

    // Ends the day: every slip is spent, and the log is handed over with how the places stand.
    pub fn close(mut self) -> Result<Closed<K::Joint>, AllocError>
        ensures { IfOk result (Ended K.Kind self.entry) }
    {
        let ended = self.log.len();
        let noted = self.settle_all();
        let Desk { rail, kept, log } = self;
        kept.destroy_empty();
        noted?;
        let standing = rail.audit();
        Ok(Closed {
            standing,
            log,
            ended,
        })
    }
}
