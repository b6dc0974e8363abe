// The reading of a joint's card, whatever its kind.
ghost use Rattle.card.specs.Kinds.{ReadsJoint, UniqueJoint};

use crate::fault::TextFault;
use crate::kind::CardKind;
use crate::lines;

// The joint that the card at the front of `text` describes, and the bytes of that card.
pub fn read_joint<const N: usize, J: CardKind<N>>(text: &[u8]) -> Result<(J, usize), TextFault>
    ensures reads { ReadsJoint J.CardKind text.now result }
    ensures unique { UniqueJoint J.CardKind text.now result }
{
    let start = lines::read_kind(J::letter(), text)?;
    let (values, taken) = lines::read_lines(J::key_table(), &text[start..])?;
    Ok((J::of_values(&values), start + taken))
}
