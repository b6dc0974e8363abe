// Bolts in bearing: the factors of the distances round a hole, and the total of all bolts as an exact fraction.
ghost use Rattle.std.specs.Prelude.{◌≡◌, ◌*◌, ◌^◌, ◌<◌, ◌≤◌};
ghost use Rattle.resistance.specs.Fractions.{◌⊗◌};
ghost use Rattle.components.specs.Bears.{k, k', u, w, workable, total_of, ultimate_of};

use crate::tables::{bolt_strength, ultimate_strength};
use resistance::ratio::Ratio;

// So many bolts of one size and class, bearing on a part of one steel and thickness (tenths of a mm).
#[derive(Clone, Copy, PartialEq, Eq, Debug)]
pub struct Bearing {
    pub bolts: u32,
    pub bolt: u32,
    pub grade: u32,
    pub steel: u32,
    pub thickness: u32,
}

// The factors of a load: k of the distances across it, α of those along it.
#[derive(Clone, Copy, PartialEq, Eq, Debug)]
pub struct Factors {
    pub k: Ratio,
    pub alpha: Ratio,
}

// No k exceeds 2.5.
pub const MOST: Ratio = Ratio { over: 5, under: 2 };

// The partial factor of bearing is taken off a total by this.
const FIVE_QUARTERS: Ratio = Ratio { over: 5, under: 4 };

const ONE: Ratio = Ratio { over: 1, under: 1 };

// k(e) = 2.8·e/d0 − 1.7, of a distance across the force.
pub fn edge_factor(d0: u32, e: u32) -> Ratio
    ensures { result ≡ k d0 e }
{
    Ratio {
        over: (28 * e as u64).saturating_sub(17 * d0 as u64),
        under: 10 * d0 as u64,
    }
}

// k'(p) = 1.4·p/d0 − 1.7, of a spacing across the force.
pub fn spacing_factor(d0: u32, p: u32) -> Ratio
    ensures { result ≡ k' d0 p }
{
    Ratio {
        over: (14 * p as u64).saturating_sub(17 * d0 as u64),
        under: 10 * d0 as u64,
    }
}

// u(e) = e/(3·d0), of an end bolt.
pub fn end_factor(d0: u32, e: u32) -> Ratio
    ensures { result ≡ u d0 e }
{
    Ratio {
        over: e as u64,
        under: 3 * d0 as u64,
    }
}

// w(p) = p/(3·d0) − 1/4, of an inner bolt.
pub fn pitch_factor(d0: u32, p: u32) -> Ratio
    ensures { result ≡ w d0 p }
{
    Ratio {
        over: (4 * p as u64).saturating_sub(3 * d0 as u64),
        under: 12 * d0 as u64,
    }
}

// The product of two fractions.
fn times(x: Ratio, y: Ratio) -> Ratio
    requires over { x.over * y.over < 2 ^ 64 }
    requires under { x.under * y.under < 2 ^ 64 }
    ensures { result ≡ x ⊗ y }
{
    Ratio {
        over: x.over * y.over,
        under: x.under * y.under,
    }
}

impl Bearing {
    // Whether the numbers are small enough for the total to fit: those of every sheet are.
    fn is_workable(&self, factors: Factors) -> bool
        ensures { result ≡ workable self.now factors.k factors.alpha }
    {
        self.bolts <= 20
            && self.bolt <= 30
            && self.thickness <= 400
            && factors.k.over <= 10000
            && factors.k.under <= 10000
            && factors.alpha.over <= 10000
            && factors.alpha.under <= 10000
    }

    // Bear(k, α) = 2·m·k·α·fu·d·t/25 of all bolts, k at most 2.5 and α at most the smaller of fub/fu and 1;
    // `None` where a number lies far outside any sheet.
    pub fn total(&self, factors: Factors) -> Option<Ratio>
        ensures { result ≡ total_of self.now factors.k factors.alpha }
    {
        if !self.is_workable(factors) {
            return None;
        }
        let fu = ultimate_strength(self.steel) as u64;
        let fub = bolt_strength(self.grade) as u64;
        let cap = Ratio {
            over: fub,
            under: fu,
        }
        .lesser(ONE);
        let all = Ratio {
            over: 2 * self.bolts as u64 * fu * self.bolt as u64 * self.thickness as u64,
            under: 25,
        };
        let k = factors.k.lesser(MOST);
        Some(times(times(all, k), factors.alpha.lesser(cap)))
    }

    // The same without the partial factor: 5/4 of the exact total.
    pub fn ultimate(&self, factors: Factors) -> Option<Ratio>
        ensures { result ≡ ultimate_of self.now factors.k factors.alpha }
    {
        let total = self.total(factors)?;
        Some(times(total, FIVE_QUARTERS))
    }
}
