// The sheet of a joint, by value.
ghost use Rattle.std.specs.Prelude.{◌≡◌};
ghost use Rattle.joint.specs.Sheets.{or_nobody};

#[derive(Clone, Copy, PartialEq, Eq, Debug)]
pub struct Governing {
    // the number of the governing mode
    pub mode: u32,
    // its printed figure, newtons
    pub figure: u64,
}

#[derive(Clone, Copy, PartialEq, Eq, Debug)]
pub struct Sheet {
    pub shear: Governing,
    // nothing where no tying mode binds
    pub tying: Option<Governing>,
    // the price class, 0 to 255
    pub class: u8,
    // a power of two for each requirement that fails
    pub unmet: u32,
    // how many fail
    pub count: u32,
}

impl Sheet {
    // The governing tying mode and its figure; both are 0 where no tying mode binds.
    pub fn tie(&self) -> Governing
        ensures { result ≡ or_nobody self.now.tying }
    {
        self.tying.unwrap_or(Governing { mode: 0, figure: 0 })
    }
}
