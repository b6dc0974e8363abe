// The seven requirements of a joint, each true where the joint meets it.
ghost use Rattle.std.specs.Prelude.{◌≡◌, count_ones};
ghost use Rattle.joint.specs.Unmet.{failed, unmet_of, failing};

#[derive(Clone, Copy, PartialEq, Eq, Debug)]
pub struct Requirements {
    // 1: the plate lies within the clear depth of the beam web
    pub fits_web: bool,
    // 2: the joint turns as far as is required before the beam touches the support
    pub turns: bool,
    // 4: it is ductile: something yields before the bolts fail
    pub ductile: bool,
    // 8: the weld is as strong as the part that it joins
    pub welded: bool,
    // 16: the bolts are not the weakest part
    pub bolts_spared: bool,
    // 32: the governing shear carries the shear load
    pub carries_shear: bool,
    // 64: the governing tying carries the tie load
    pub carries_tie: bool,
}

// The power of a requirement that fails, and 0 of one that is met.
fn power_of(met: bool, power: u32) -> u32
    ensures { result ≡ failed met power }
{
    if met { 0 } else { power }
}

impl Requirements {
    // The unmet number: the set of requirements that fail, each by its own bit. Its ones are how many fail.
    pub fn unmet(self) -> u32
        ensures value { result ≡ unmet_of self }
        ensures counts { count_ones result ≡ failing self }
    {
        let plate = power_of(self.fits_web, 1)
            | power_of(self.turns, 2)
            | power_of(self.ductile, 4)
            | power_of(self.welded, 8);
        let loads = power_of(self.bolts_spared, 16)
            | power_of(self.carries_shear, 32)
            | power_of(self.carries_tie, 64);
        plate | loads
    }
}
