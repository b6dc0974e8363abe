// Fin plates as a kind of joint.
ghost use Rattle.std.specs.Prelude.{◌≡◌};
ghost use Rattle.joint.specs.Modes.{printing, Below};
ghost use Rattle.fin.specs.FinAdmission.{fin_admission};
ghost use Rattle.fin.specs.FinModes.{fin_mode, fin_binds};
ghost use Rattle.fin.specs.FinRequirements.{fin_unmet};
ghost use Rattle.fin.specs.FinMeans.{fin_means};

use crate::admission::check_all;
use crate::fin::Fin;
use crate::fin_joint::FinJoint;
use joint::fault::JointFault;
use joint::kind::Kind;

impl Fin {
    // The printed figure of a mode, and nothing where it does not bind.
    pub(crate) fn printed(&self, mode: u32) -> Option<u64>
        ensures { result ≡ printing (fin_mode self.now mode) }
    {
        self.expression(mode)?.figure()
    }
}

impl Kind for Fin {
    type Joint = FinJoint;

    const FIELDS: u32 = 21;

    const SHEAR_MODES: u32 = 11;

    const TYING_MODES: u32 = 7;

    ghost FIELDS = { 21 };

    ghost SHEAR_MODES = { 11 };

    ghost TYING_MODES = { 7 };

    ghost admission = { fin_admission };

    ghost joint = { λ f. f.joint };

    ghost binding = { fin_binds };

    ghost printed = { λ f i. printing (fin_mode f i) };

    ghost unmet = { fin_unmet };

    ghost at = { λ f i v. Below (fin_mode f i) v };

    ghost meaning = { fin_means };

    fn admit(given: FinJoint) -> Result<Fin, JointFault> {
        check_all(given)?;
        Ok(Fin { joint: given })
    }

    fn given(&self) -> FinJoint {
        self.joint
    }

    #[tactic(auto, using(std::proofs::lemmas::Bool::Decides::nat_tests), unfolding(crate::specs::FinModes::shear_binds, crate::specs::FinModes::tying_binds))]
    fn binds(&self, mode: u32) -> bool {
        match mode {
            6 => self.is_shallow(),
            7 => false,
            1..=11 | 21..=27 => true,
            _ => false,
        }
    }

    fn figure(&self, mode: u32) -> Option<u64> {
        self.printed(mode)
    }

    fn unmet_number(&self, governing_shear: u64, governing_tying: u64) -> u32 {
        self.requirements(governing_shear, governing_tying).unmet()
    }
}
