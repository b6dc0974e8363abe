// A kind of joint.
ghost use Rattle.std.specs.Prelude.{◌≡◌, ℕ, Bool, Option, Result};
ghost use Rattle.joint.specs.Meaning.{Meaning};
ghost use Rattle.joint.specs.declared.fault.JointFault.{JointFault};

use crate::fault::JointFault;

// `Self` is a joint that its kind admits, and `Joint` what a card says, before it is admitted.
pub trait Kind: Copy {
    type Joint: Copy;

    // how many fields a card has
    const FIELDS: u32;

    // how many shear modes the kind has, numbered from 1
    const SHEAR_MODES: u32;

    // how many tying modes, numbered from 21
    const TYING_MODES: u32;

    ghost FIELDS: { ℕ };

    ghost SHEAR_MODES: { ℕ };

    ghost TYING_MODES: { ℕ };

    // the admitted joint, or the first fault
    ghost admission: { Self.Joint → Result Self JointFault };

    // what the card of an admitted joint says
    ghost joint: { Self → Self.Joint };

    // whether a mode binds, that is whether the check applies to this joint
    ghost binding: { Self → ℕ → Bool };

    // the printed figure of a mode, newtons, and nothing where it does not bind
    ghost printed: { Self → ℕ → Option ℕ };

    // the unmet number of a joint, given its governing shear and tying figures: a sum of powers of two, one for each requirement that fails
    ghost unmet: { Self → ℕ → ℕ → ℕ };

    // 'v is at or below mode i' of a joint, over whole numbers
    ghost at: { Self → ℕ → ℕ → Type 0 };

    fn admit(given: Self::Joint) -> Result<Self, JointFault>
        ensures { result ≡ admission given };

    fn given(&self) -> Self::Joint
        ensures { result ≡ joint self.now };

    fn binds(&self, mode: u32) -> bool
        ensures { result ≡ binding self.now mode };

    fn figure(&self, mode: u32) -> Option<u64>
        ensures { result ≡ printed self.now mode };

    fn unmet_number(&self, governing_shear: u64, governing_tying: u64) -> u32
        ensures { result ≡ unmet self.now governing_shear governing_tying };

    ghost meaning: { Meaning FIELDS SHEAR_MODES TYING_MODES admission joint binding printed at };
}
