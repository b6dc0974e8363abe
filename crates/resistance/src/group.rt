// The bolt group in eccentric shear: the shear of the joint, and the moment that comes of its distance from the bolts.
ghost use Rattle.std.specs.Prelude.{◌≡◌, ◌<◌};
ghost use Rattle.resistance.specs.Expressions.{CloseGroup};
ghost use Rattle.resistance.specs.Groups.{up, SmallestOver, within, group_of};

use crate::ratio::Ratio;
use crate::root::root_up;

// P·K/√(J² + (B·P/Q)²): of a shear K the most loaded bolt takes, counted times the number of bolts, J down and B across.
// J is K and what the moment adds to it; B comes of the moment alone.
#[derive(Clone, Copy, PartialEq, Eq, Debug)]
pub struct BoltGroup {
    // P: what all bolts together would carry, loaded down
    pub vertical: Ratio,
    // Q: what they would carry, loaded across
    pub horizontal: Ratio,
    // what the root and its legs are multiplied by before they are rounded
    pub scale: u64,
    // K
    pub shear: u64,
    // J
    pub down: u64,
    // B
    pub across: u64,
}

// The smallest whole number that is at least n/d.
fn quotient_up(n: u128, d: u128) -> u128
    requires { 0 < d }
    ensures value { result ≡ up n d }
    ensures smallest { SmallestOver n d result }
{
    n.div_ceil(d)
}

impl BoltGroup {
    // Whether the group, by its whole totals p and q, lies within the limits.
    fn is_within(self, p: u64, q: u64) -> bool
        ensures { result ≡ within p q self.scale self.shear self.down self.across }
    {
        1 <= p
            && p <= 100000000
            && 1 <= q
            && p as u128 <= 5 * q as u128
            && self.shear <= self.down
            && self.down <= 1000000
            && self.across <= 1000000
            && self.scale <= 1000000
            && p + 10 <= 2 * (self.scale * self.down)
    }

    // The printed figure; `None` where a number lies outside the limits. A figure that is given is at or below the exact resistance,
    // by less than the margin.
    pub fn figure(self) -> Option<u64>
        ensures value { result ≡ group_of self }
        ensures close { CloseGroup self result }
    {
        let p = self.vertical.floor();
        let q = self.horizontal.floor();
        if !self.is_within(p, q) {
            return None;
        }
        let scale = self.scale as u128;
        let a = scale * self.down as u128;
        let w = quotient_up(scale * self.across as u128 * p as u128, q as u128);
        let s = root_up(a * a + w * w);
        Some((scale * self.shear as u128 * p as u128 / s) as u64)
    }
}
