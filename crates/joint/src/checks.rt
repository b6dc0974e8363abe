// The checks of admission, a line a field: what must hold, or the fault of that field.
ghost use Rattle.std.specs.Prelude.{◌≡◌, ◌*◌};
ghost use Rattle.joint.specs.Checked.{due, within, spaced, of_list, bolts_checked};
ghost use Rattle.joint.specs.declared.fault.JointFault.TheVariants.{NotAllowed, TooClose};

use crate::fault::JointFault;
use components::bolts::Bolts;
use components::tables::{is_bolt, is_class};

// What must hold, or the fault where it does not.
pub fn owed<E: Drop>(holds: bool, fault: E) -> Result<(), E>
    ensures { result ≡ due holds fault }
{
    if holds { Ok(()) } else { Err(fault) }
}

// The value of a field is one that the sheet allows.
pub fn allowed(holds: bool, field: u32) -> Result<(), JointFault>
    ensures { result ≡ due holds (NotAllowed field) }
{
    owed(holds, JointFault::NotAllowed(field))
}

pub fn is_within(low: u32, high: u32, x: u32) -> bool
    ensures { result ≡ within low high x }
{
    (low..=high).contains(&x)
}

// A distance is at least so many tenths of the hole.
pub fn apart(tenths: u32, hole: u32, distance: u32, field: u32) -> Result<(), JointFault>
    ensures { result ≡ due (spaced tenths hole distance) (TooClose field) }
{
    owed(
        tenths as u64 * hole as u64 <= 10 * distance as u64,
        JointFault::TooClose(field),
    )
}

// The bolts of a card, whose four fields are numbered from `first` on.
pub fn check_bolts(b: Bolts, first: u8) -> Result<(), JointFault>
    ensures { result ≡ of_list (bolts_checked first b) }
{
    let first = first as u32;
    allowed(is_bolt(b.bolt), first)?;
    allowed(is_class(b.grade), first + 1)?;
    allowed(is_within(0, 1, b.plane), first + 2)?;
    allowed(is_within(2, 10, b.rows), first + 3)
}
