// The requirements of a fin plate.
ghost use Rattle.std.specs.Prelude.{◌≡◌};
ghost use Rattle.joint.specs.Modes.{printing};
ghost use Rattle.fin.specs.FinModes.{fin_mode};
ghost use Rattle.fin.specs.FinRequirements.{or_nought, turns_freely, ductile_joint, bolts_spared, requirements_of};

use crate::fin::Fin;
use components::weld::is_full_strength;
use joint::requirements::Requirements;

impl Fin {
    // The joint turns as far as is required before the beam touches the support.
    fn turns(&self) -> bool
        ensures { result ≡ turns_freely self.now.joint }
    {
        let d = self.joint.demands;
        let phi = d.phi as u64;
        let z = self.joint.layout.z as u64;
        let reach = 2000000 * self.joint.parts.e2b as u64
            + (self.depth() as u64 + 2 * d.he as u64) * phi;
        reach * reach < 4 * (z * z) * (1000000000000 + phi * phi)
    }

    // Bearing yields before the bolts fail, in the plate or in the web.
    fn is_ductile(&self) -> bool
        ensures { result ≡ ductile_joint self.now.joint }
    {
        let bolts = self.bolts_total();
        let (_, plate) = self.plate_totals();
        let (_, web) = self.web_totals();
        plate.at_most(bolts) || web.at_most(bolts)
    }

    // The printed figure of a mode, and 0 where it does not bind.
    fn figure_or_nought(&self, mode: u32) -> u64
        ensures { result ≡ or_nought (printing (fin_mode self.now mode)) }
    {
        self.printed(mode).unwrap_or(0)
    }

    // The bolts are not the weakest part, by the printed figures.
    #[tactic(auto, unfolding(crate::specs::FinModes::shear_modes))]
    fn spares_bolts(&self) -> bool
        ensures { result ≡ bolts_spared self.now.joint }
    {
        let bolts = self.figure_or_nought(1);
        let plate = self.figure_or_nought(2);
        let web = self.figure_or_nought(8);
        plate.min(web) < bolts
    }

    // Each requirement, given the governing figures.
    pub(crate) fn requirements(&self, shear: u64, tying: u64) -> Requirements
        ensures { result ≡ requirements_of self.now.joint shear tying }
    {
        let d = self.joint.demands;
        let p = self.joint.parts;
        Requirements {
            fits_web: self.depth() <= d.db,
            turns: self.turns(),
            ductile: self.is_ductile(),
            welded: is_full_strength(p.a, p.tp, self.joint.steels.plate),
            bolts_spared: self.spares_bolts(),
            carries_shear: d.v as u64 <= shear,
            carries_tie: d.n as u64 <= tying,
        }
    }
}
