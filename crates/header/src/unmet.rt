// The requirements of a header plate.
ghost use Rattle.std.specs.Prelude.{◌≡◌};
ghost use Rattle.header.specs.HeaderRequirements.{yields_first, ductile_joint, requirements_of};

use crate::header::Header;
use components::part::Part;
use components::tables::bolt_strength;
use components::weld::is_full_strength;
use joint::requirements::Requirements;

impl Header {
    // A part yields before the bolts fail.
    fn yields(&self, part: Part) -> bool
        ensures { result ≡ yields_first self.now.joint part.thickness part.steel }
    {
        let b = self.joint.bolts;
        let t = part.thickness as u64;
        let d = b.bolt as u64;
        784 * t * t * part.steel as u64 <= 10000 * d * d * bolt_strength(b.grade) as u64
    }

    // The plate yields first, or a supporting flange does.
    fn is_ductile(&self) -> bool
        ensures { result ≡ ductile_joint self.now.joint }
    {
        self.yields(self.plate()) || self.joint.parts.es > 0 && self.yields(self.support())
    }

    // Each requirement, given the governing shear. A header plate never fails those of the bolts and of tying.
    pub(crate) fn requirements(&self, governing: u64) -> Requirements
        ensures { result ≡ requirements_of self.now.joint governing }
    {
        let d = self.joint.demands;
        let p = self.joint.parts;
        Requirements {
            fits_web: self.depth() <= d.db,
            turns: (d.he as u64 * d.phi as u64) < 100000 * p.tp as u64,
            ductile: self.is_ductile(),
            welded: is_full_strength(p.a, p.tw, self.joint.steels.web),
            bolts_spared: true,
            carries_shear: d.v as u64 <= governing,
            carries_tie: true,
        }
    }
}
