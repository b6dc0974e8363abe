// The bolts of a joint, as a card gives them.
ghost use Rattle.std.specs.Prelude.{◌≡◌, ◌≤◌};
ghost use Rattle.components.specs.Bears.{on_part, shear_by};
ghost use Rattle.components.specs.Tabled.{hole_of};

use crate::bearing::Bearing;
use crate::part::Part;
use crate::tables::{bolt_strength, hole, shear_area, shear_factor};
use resistance::ratio::Ratio;

#[derive(Clone, Copy, PartialEq, Eq, Debug)]
pub struct Bolts {
    // nominal diameter, mm
    pub bolt: u32,
    // bolt class, as 88 for 8.8
    pub grade: u32,
    // 1: the thread lies in the shear plane; 0: the shank
    pub plane: u32,
    // bolts in a column
    pub rows: u32,
}

impl Bolts {
    // d0: the hole that a bolt goes through, mm.
    pub fn hole(self) -> u32
        ensures value { result ≡ hole_of self.bolt }
        ensures bound { result ≤ 33 }
    {
        hole(self.bolt)
    }

    // So many of these bolts, bearing on a part.
    pub fn on_part(self, count: u32, part: Part) -> Bearing
        ensures { result ≡ on_part self count part.thickness part.steel }
    {
        Bearing {
            bolts: count,
            bolt: self.bolt,
            grade: self.grade,
            steel: part.steel,
            thickness: part.thickness,
        }
    }

    // n·m·s·fub·A over a divisor: m of these bolts in shear, with the factor n and the divisor of a sheet.
    pub fn in_shear(self, count: u32, factor: u8, divisor: u64) -> Ratio
        ensures { result ≡ shear_by factor divisor count self.bolt self.grade self.plane }
    {
        let s = shear_factor(self.grade, self.plane) as u64;
        let fub = bolt_strength(self.grade) as u64;
        let area = shear_area(self.bolt, self.plane) as u64;
        Ratio {
            over: factor as u64 * count as u64 * s * fub * area,
            under: divisor,
        }
    }
}
