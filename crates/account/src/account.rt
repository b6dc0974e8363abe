// The account of a text of cards.
ghost use Rattle.std.specs.Prelude.{IfOk, string_bytes};
ghost use Rattle.account.specs.Accounts.{Account};

use crate::entry::judge;
use crate::fault::Fault;
use card::cards::Cards;
use std::alloc::{AllocError, Global};

// For each card in turn its sheet, or the fault of its joint; the account ends with the text, or with the first fault of the text.
pub fn account(heap: Global, text: &[u8]) -> Result<String, AllocError>
    ensures { IfOk result (λ t. Account text.now (string_bytes t)) }
{
    let mut out = String::new(heap);
    for card in Cards::of(text) {
        match card.map_err(Fault::from).and_then(judge) {
            Ok(entry) => write!(out, "{entry}")?,
            Err(fault) => write!(out, "{fault}")?,
        }
    }
    Ok(out)
}
