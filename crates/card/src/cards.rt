// The cards of a text, one after another.
use crate::card::{Card, read_card};
use crate::fault::TextFault;

// What is left of the text. Behind a fault nothing is, since nobody knows where the next card starts.
#[derive(Clone, Drop, Debug)]
pub struct Cards<'a> {
    rest: &'a [u8],
}

impl<'a> Cards<'a> {
    ghost use Rattle.std.specs.Prelude.{◌≡◌};
    ghost use Rattle.card.specs.InTurn.{cards_left};

    pub fn of(text: &'a [u8]) -> Cards<'a>
        ensures { cards_left result ≡ text.now }
    {
        Cards { rest: text }
    }
}

impl Iterator for Cards<'_> {
    ghost use Rattle.std.specs.Iterator.{item_count};
    ghost use Rattle.card.specs.InTurn.{cards_left, GivesCard};

    type Item = Result<Card, TextFault>;

    ghost next_gives = { GivesCard };

    // a card takes some bytes
    ghost remaining = { item_count cards_left };

    // The next card, or the fault of the text, which is the last item.
    fn next(&mut self) -> Option<Result<Card, TextFault>> {
        if self.rest.is_empty() {
            return None;
        }
        match read_card(self.rest) {
            Ok((card, taken)) => {
                self.rest = &self.rest[taken..];
                Some(Ok(card))
            }
            Err(fault) => {
                self.rest = &[];
                Some(Err(fault))
            }
        }
    }
}
