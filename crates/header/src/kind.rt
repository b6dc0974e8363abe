// Header plates as a kind of joint.
ghost use Rattle.std.specs.Prelude.{◌≡◌};
ghost use Rattle.joint.specs.Modes.{printing, Below};
ghost use Rattle.header.specs.HeaderAdmission.{header_admission};
ghost use Rattle.header.specs.HeaderModes.{header_mode, header_binds};
ghost use Rattle.header.specs.HeaderRequirements.{header_unmet};
ghost use Rattle.header.specs.HeaderMeans.{header_means};

use crate::admission::check_all;
use crate::header::Header;
use crate::header_joint::HeaderJoint;
use joint::fault::JointFault;
use joint::kind::Kind;

impl Kind for Header {
    type Joint = HeaderJoint;

    const FIELDS: u32 = 20;

    const SHEAR_MODES: u32 = 8;

    const TYING_MODES: u32 = 0;

    ghost FIELDS = { 20 };

    ghost SHEAR_MODES = { 8 };

    ghost TYING_MODES = { 0 };

    ghost admission = { header_admission };

    ghost joint = { λ h. h.joint };

    ghost binding = { header_binds };

    ghost printed = { λ h i. printing (header_mode h i) };

    ghost unmet = { header_unmet };

    ghost at = { λ h i v. Below (header_mode h i) v };

    ghost meaning = { header_means };

    fn admit(given: HeaderJoint) -> Result<Header, JointFault> {
        check_all(given)?;
        Ok(Header { joint: given })
    }

    fn given(&self) -> HeaderJoint {
        self.joint
    }

    #[tactic(auto, using(std::proofs::lemmas::Bool::Decides::nat_tests), unfolding(crate::specs::HeaderModes::shear_binds))]
    fn binds(&self, mode: u32) -> bool {
        match mode {
            7 => self.is_shallow(),
            1..=8 => true,
            _ => false,
        }
    }

    fn figure(&self, mode: u32) -> Option<u64> {
        self.expression(mode)?.figure()
    }

    fn unmet_number(&self, governing_shear: u64, _governing_tying: u64) -> u32 {
        self.requirements(governing_shear).unmet()
    }
}
