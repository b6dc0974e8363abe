// A fraction of whole numbers, as the sheets write it: never reduced, so that it reads as it was put down.
ghost use Rattle.std.specs.Prelude.{◌≡◌};
ghost use Rattle.resistance.specs.Fractions.{at_most, smaller, dropped};

#[derive(Clone, Copy, PartialEq, Eq, Debug)]
pub struct Ratio {
    pub over: u64,
    pub under: u64,
}

impl Ratio {
    // Whether this fraction is at most the other, by the cross products.
    pub fn at_most(self, other: Ratio) -> bool
        ensures { result ≡ at_most self other }
    {
        self.over as u128 * other.under as u128 <= other.over as u128 * self.under as u128
    }

    // The smaller of two fractions.
    pub fn lesser(self, other: Ratio) -> Ratio
        ensures { result ≡ smaller self other }
    {
        if self.at_most(other) { self } else { other }
    }

    // The whole number that is left when the fraction is dropped, and 0 of a fraction over 0.
    pub fn floor(self) -> u64
        ensures { result ≡ dropped self }
    {
        if self.under == 0 {
            0
        } else {
            self.over / self.under
        }
    }
}
