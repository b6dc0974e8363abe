// A part that a joint joins: its plate, the beam web or the support.
ghost use Rattle.std.specs.Prelude.{◌≡◌, ◌≤◌};
ghost use Rattle.components.specs.Parts.{at_yield, at_rupture};

use crate::tables::ultimate_strength;
use resistance::ratio::Ratio;

// So thick, tenths of a mm, and of a steel.
#[derive(Clone, Copy)]
pub struct Part {
    pub thickness: u32,
    pub steel: u32,
    ghost thickest: { thickness ≤ 400 },
    ghost strongest: { steel ≤ 460 },
}

impl Part {
    // l·t·fy over a divisor: what an extent l of the part, a length or the square of one, carries where it yields.
    pub fn at_yield(self, extent: u32, divisor: u64) -> Ratio
        ensures { result ≡ at_yield self.thickness self.steel extent divisor }
    {
        Ratio {
            over: extent as u64 * self.thickness as u64 * self.steel as u64,
            under: divisor,
        }
    }

    // l·t·fu over a divisor: the same where it breaks.
    pub fn at_rupture(self, extent: u32, divisor: u64) -> Ratio
        ensures { result ≡ at_rupture self.thickness self.steel extent divisor }
    {
        Ratio {
            over: extent as u64 * self.thickness as u64 * ultimate_strength(self.steel) as u64,
            under: divisor,
        }
    }
}
