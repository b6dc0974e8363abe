// The account of a day, a line for each call.
ghost use Rattle.std.specs.Prelude.{Some};
ghost use Rattle.day.specs.Printed.{call_text, sheet_text, fault_text, answer_text, entry_text, outcome_text};

use crate::desk::{Entry, Outcome};
use joint::fault::FaultCode;
use joint::sheet::Sheet;
use places::place::State;
use rail::call::{Answer, Call};
use std::fmt;

// The call, without its card.
#[derive(Drop)]
struct CallText<'a, R>(&'a Call<R>);

#[derive(Drop)]
struct SheetText<'a>(&'a Sheet);

#[derive(Drop)]
pub struct FaultText(pub FaultCode);

#[derive(Drop)]
struct AnswerText<'a, R>(&'a Answer<R>);

impl<R> fmt::Display for CallText<'_, R> {
    ghost output = { λ c. Some (call_text c.0.now) };

    fn fmt<W: fmt::Write>(&self, f: &mut fmt::Formatter<W>) -> fmt::Result {
        match self.0 {
            Call::Hang(place, _) => write!(f, "hang {place}"),
            Call::Lift(place) => write!(f, "lift {place}"),
            Call::HangBack(number, place, _) => write!(f, "hang back by slip {number}/{place}"),
            Call::Scrap(number, place) => write!(f, "scrap by slip {number}/{place}"),
            Call::AskState(place) => write!(f, "state of {place}"),
            Call::AskJoint(place) => write!(f, "joint of {place}"),
            Call::AskSheet(place) => write!(f, "sheet of {place}"),
            Call::AskFigure(place, mode) => write!(f, "figure of {place}, mode {mode}"),
            Call::AskClass(class) => write!(f, "cards of class {class}"),
        }
    }
}

// Where no tying mode binds, the figure and the mode are 0.
impl fmt::Display for SheetText<'_> {
    ghost output = { λ s. Some (sheet_text s.0.now) };

    fn fmt<W: fmt::Write>(&self, f: &mut fmt::Formatter<W>) -> fmt::Result {
        let Sheet {
            shear,
            tying: _,
            class,
            unmet,
            count,
        } = *self.0;
        let tying = self.0.tie();
        write!(f, "shear={} mode={} ", shear.figure, shear.mode)?;
        write!(f, "tie={} tiemode={} ", tying.figure, tying.mode)?;
        write!(f, "class={class} unmet={unmet} count={count}")
    }
}

impl fmt::Display for FaultText {
    ghost output = { λ f. Some (fault_text f.0) };

    fn fmt<W: fmt::Write>(&self, f: &mut fmt::Formatter<W>) -> fmt::Result {
        let FaultCode { layer, number, at } = self.0;
        write!(f, "refused layer={layer} fault={number} at={at}")
    }
}

impl<R> fmt::Display for AnswerText<'_, R> {
    ghost output = { λ a. Some (answer_text a.0.now) };

    fn fmt<W: fmt::Write>(&self, f: &mut fmt::Formatter<W>) -> fmt::Result {
        match self.0 {
            Answer::Done => write!(f, "done"),
            Answer::Handed(number, place) => write!(f, "slip {number}/{place}"),
            Answer::Stands(State::Empty) => write!(f, "empty"),
            Answer::Stands(State::Hanging) => write!(f, "hanging"),
            Answer::Stands(State::Lifted) => write!(f, "lifted"),
            Answer::Holds(_) => write!(f, "a card"),
            Answer::Shows(sheet) => write!(f, "{}", SheetText(sheet)),
            Answer::Prints(Some(figure)) => write!(f, "{figure}"),
            Answer::Prints(None) => write!(f, "does not bind"),
            Answer::Counts(count) => write!(f, "{count}"),
            Answer::Refused(fault) => write!(f, "{}", FaultText(fault.code())),
        }
    }
}

impl<R> fmt::Display for Entry<R> {
    ghost output = { λ e. Some (entry_text e) };

    fn fmt<W: fmt::Write>(&self, f: &mut fmt::Formatter<W>) -> fmt::Result {
        write!(f, "{}: {}", CallText(&self.call), AnswerText(&self.answer))
    }
}

impl<R> fmt::Display for Outcome<R> {
    ghost output = { λ o. Some (outcome_text o) };

    fn fmt<W: fmt::Write>(&self, f: &mut fmt::Formatter<W>) -> fmt::Result {
        match self {
            Outcome::Made(entry) => write!(f, "{entry}"),
            Outcome::NoSlip(place) => write!(f, "no slip is kept for {place}"),
            Outcome::NoClass(class) => write!(f, "there is no class {class}"),
        }
    }
}
