// What the account says of one card.
ghost use Rattle.std.specs.Prelude.{◌≡◌, Some};
ghost use Rattle.account.specs.Judged.{entry_of, entry_text, sheet_lines};

use crate::fault::Fault;
use card::card::Card;
use fin::fin::Fin;
use header::header::Header;
use joint::sheet::{Governing, Sheet};
use joint::work::judged_sheet;
use std::fmt;

#[derive(Clone, Copy, PartialEq, Eq, Debug)]
pub enum Entry {
    // the sheet of a header plate
    Header(Sheet),
    // the sheet of a fin plate
    Fin(Sheet),
}

// The sheet of a card's joint, or why it is not admitted.
pub fn judge(card: Card) -> Result<Entry, Fault>
    ensures { result ≡ entry_of card }
{
    match card {
        Card::Header(given) => Ok(Entry::Header(judged_sheet::<Header>(given)?)),
        Card::Fin(given) => Ok(Entry::Fin(judged_sheet::<Fin>(given)?)),
    }
}

// The lines of a sheet behind the one that names its kind.
#[derive(Clone, Copy)]
struct Lines<'a>(&'a Sheet);

impl fmt::Display for Lines<'_> {
    ghost output = { λ l. Some (sheet_lines l.0.now) };

    fn fmt<W: fmt::Write>(&self, f: &mut fmt::Formatter<W>) -> fmt::Result {
        let sheet = self.0;
        let Governing { mode, figure } = sheet.tie();
        write!(
            f,
            "shear={}\nmode={}\n",
            sheet.shear.figure, sheet.shear.mode
        )?;
        write!(f, "tie={figure}\ntiemode={mode}\n")?;
        write!(
            f,
            "class={}\nunmet={}\ncount={}\n",
            sheet.class, sheet.unmet, sheet.count
        )
    }
}

// The eight lines of a sheet.
impl fmt::Display for Entry {
    ghost output = { λ e. Some (entry_text e) };

    fn fmt<W: fmt::Write>(&self, f: &mut fmt::Formatter<W>) -> fmt::Result {
        match self {
            Entry::Header(sheet) => write!(f, "joint=H\n{}", Lines(sheet)),
            Entry::Fin(sheet) => write!(f, "joint=F\n{}", Lines(sheet)),
        }
    }
}
