ghost use Rattle.std.specs.Prelude.{◌≡◌, true};
ghost use Rattle.joint.specs.Checked.{none_of};
ghost use Rattle.header.specs.FieldChecks.{first_fault};

use crate::header_joint::HeaderJoint;

// A header plate that its sheet admits. Only admission makes one.
#[derive(Clone, Copy)]
pub struct Header {
    pub(crate) joint: HeaderJoint,
    ghost ok: { none_of (first_fault joint) ≡ true },
}
