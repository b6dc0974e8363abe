// The calls of a rail. Each answers, and leaves every place, as the table of places does.
ghost use Rattle.std.specs.Prelude.{◌≡◌, false, length, IfOk, IfErr};
ghost use Rattle.rail.specs.Model.{table_of};
ghost use Rattle.rail.specs.Table.{after, answer, as_answer, back_answer};
ghost use Rattle.rail.specs.declared.call.Answer.TheVariants.{Done, Handed, Stands, Holds, Shows, Prints, Counts};
ghost use Rattle.rail.specs.declared.call.Call.TheVariants.{Hang, Lift, HangBack, Scrap, AskState, AskJoint, AskSheet, AskFigure, AskClass};

use crate::rail::Rail;
use crate::slip::Slip;
use joint::kind::Kind;
use joint::sheet::Sheet;
use places::fault::RailFault;
use places::place::State;
use places::questions::{class_in, figure_in, joint_in, sheet_in, state_in};
use places::work::{back_in, hang_in, lift_in, scrap_in};

impl<'a, K: Kind> Rail<'a, K> {
    // Hangs a card on an empty place, and answers its sheet.
    pub fn hang(&mut self, place: usize, given: K::Joint) -> Result<Sheet, RailFault>
        ensures table { table_of self.new ≡ after K.Kind (table_of self.old) (Hang place given) }
        ensures answer { as_answer Shows result ≡ answer K.Kind (table_of self.old) (Hang place given) }
        ensures same { self.new.places.ghost_name ≡ self.old.places.ghost_name }
    {
        hang_in(self.places, place, given)
    }

    // Lifts the card of a hanging place, against a slip.
    pub fn lift(&mut self, place: usize) -> Result<Slip, RailFault>
        ensures table { table_of self.new ≡ after K.Kind (table_of self.old) (Lift place) }
        ensures answer { as_answer (λ s. Handed s.number s.place) result ≡ answer K.Kind (table_of self.old) (Lift place) }
        ensures unspent { IfOk result (λ s. s.spent ≡ false) }
        ensures same { self.new.places.ghost_name ≡ self.old.places.ghost_name }
    {
        lift_in(self.places, place)?;
        Ok(Slip {
            number: self.number,
            place,
            spent: false,
        })
    }

    // Hangs a card on the lifted place of the slip, and answers its sheet. A refusal hands the slip back.
    pub fn hang_back(&mut self, mut slip: Slip, given: K::Joint) -> Result<Sheet, (Slip, RailFault)>
        ensures table { table_of self.new ≡ after K.Kind (table_of self.old) (HangBack slip.number slip.place given) }
        ensures answer { back_answer result ≡ answer K.Kind (table_of self.old) (HangBack slip.number slip.place given) }
        ensures handed { IfErr result (λ e. e.0 ≡ slip) }
        ensures same { self.new.places.ghost_name ≡ self.old.places.ghost_name }
    {
        match back_in(self.number, self.places, slip.number, slip.place, given) {
            Ok(sheet) => {
                slip.spent = true;
                Ok(sheet)
            }
            Err(fault) => Err((slip, fault)),
        }
    }

    // Empties the lifted place of the slip. The slip is used up even where it is refused.
    pub fn scrap(&mut self, mut slip: Slip) -> Result<(), RailFault>
        ensures table { table_of self.new ≡ after K.Kind (table_of self.old) (Scrap slip.number slip.place) }
        ensures answer { as_answer (λ _. Done) result ≡ answer K.Kind (table_of self.old) (Scrap slip.number slip.place) }
        ensures same { self.new.places.ghost_name ≡ self.old.places.ghost_name }
    {
        slip.spent = true;
        scrap_in(self.number, self.places, slip.number, slip.place)
    }

    pub fn state(&self, place: usize) -> Result<State, RailFault>
        ensures { as_answer Stands result ≡ answer K.Kind (table_of self.now) (AskState place) }
    {
        state_in(self.places, place)
    }

    // What the card of a hanging place says.
    pub fn joint(&self, place: usize) -> Result<K::Joint, RailFault>
        ensures { as_answer Holds result ≡ answer K.Kind (table_of self.now) (AskJoint place) }
    {
        joint_in(self.places, place)
    }

    pub fn sheet(&self, place: usize) -> Result<Sheet, RailFault>
        ensures { as_answer Shows result ≡ answer K.Kind (table_of self.now) (AskSheet place) }
    {
        sheet_in(self.places, place)
    }

    // The figure of a mode of a hanging card, and nothing where the mode does not bind.
    pub fn figure(&self, place: usize, mode: u32) -> Result<Option<u64>, RailFault>
        ensures { as_answer Prints result ≡ answer K.Kind (table_of self.now) (AskFigure place mode) }
    {
        figure_in(self.places, place, mode)
    }

    // How many cards of the class hang.
    pub fn class_count(&self, class: u8) -> usize
        ensures { Counts result ≡ answer K.Kind (table_of self.now) (AskClass class) }
    {
        class_in(self.places, class)
    }

    // The number that the rail was opened with.
    pub fn number(&self) -> u32
        ensures { result ≡ (table_of self.now).number }
    {
        self.number
    }

    // How many places it has.
    pub fn size(&self) -> usize
        ensures { result ≡ length (table_of self.now).places }
    {
        self.places.len()
    }
}
