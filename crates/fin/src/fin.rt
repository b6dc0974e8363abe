ghost use Rattle.std.specs.Prelude.{◌≡◌, true};
ghost use Rattle.joint.specs.Checked.{none_of};
ghost use Rattle.fin.specs.FieldChecks.{first_fault};

use crate::fin_joint::FinJoint;

// A fin plate that its sheet admits. Only admission makes one.
#[derive(Clone, Copy)]
pub struct Fin {
    pub(crate) joint: FinJoint,
    ghost ok: { none_of (first_fault joint) ≡ true },
}
