// A slip: what a lift hands out for the card that it takes off.
ghost use Rattle.std.specs.Prelude.{◌≡◌, true};

// Only a lift makes one, and it may be let go only once it is spent, by a hang back or a scrap.
pub struct Slip {
    pub(crate) number: u32,
    pub(crate) place: usize,
    pub(crate) spent: bool,
}

impl Drop for Slip {
    fn drop(self)
        requires { self.spent ≡ true }
    {
        let Slip {
            number: _,
            place: _,
            spent: _,
        } = self;
    }
}

impl Slip {
    // The number of the rail that handed it out.
    pub fn number(&self) -> u32
        ensures { result ≡ self.now.number }
    {
        self.number
    }

    // The place that the card was lifted from.
    pub fn place(&self) -> usize
        ensures { result ≡ self.now.place }
    {
        self.place
    }
}
