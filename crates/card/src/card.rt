// A card: a joint of one of the kinds.
ghost use Rattle.card.specs.Cards.{Reads, Unique};

use crate::fault::TextFault;
use crate::joint_card::read_joint;
use fin::fin_joint::FinJoint;
use header::header_joint::HeaderJoint;

#[derive(Clone, Copy, PartialEq, Eq, Debug)]
pub enum Card {
    // A header plate.
    Header(HeaderJoint),
    // A fin plate.
    Fin(FinJoint),
}

// The card at the front of `text`, and the bytes that it takes. A line 1 that does not name one kind may name the next.
pub fn read_card(text: &[u8]) -> Result<(Card, usize), TextFault>
    ensures reads { Reads text.now result }
    ensures unique { Unique text.now result }
{
    match read_joint::<_, HeaderJoint>(text) {
        Ok((joint, taken)) => Ok((Card::Header(joint), taken)),
        Err(fault) if fault == TextFault::NotJoint => {
            let (joint, taken) = read_joint::<_, FinJoint>(text)?;
            Ok((Card::Fin(joint), taken))
        }
        Err(fault) => Err(fault),
    }
}
