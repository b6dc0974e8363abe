// A column of bolts in a plate, and what its holes leave of the plate.
ghost use Rattle.std.specs.Prelude.{◌≡◌, ◌*◌, ◌≤◌};
ghost use Rattle.components.specs.Columns.{depth_by, net_by, torn_by};

// So many rows at a pitch p1, with an end distance e1 above and below them, all in mm and spaced as the sheets ask.
#[derive(Clone, Copy)]
pub struct Column {
    pub rows: u32,
    pub e1: u32,
    pub p1: u32,
    pub hole: u32,
    ghost some: { 2 ≤ rows },
    ghost few: { rows ≤ 10 },
    ghost end: { e1 ≤ 150 },
    ghost pitch: { p1 ≤ 200 },
    ghost end_spaced: { 12 * hole ≤ 10 * e1 },
    ghost pitch_spaced: { 22 * hole ≤ 10 * p1 },
}

impl Column {
    // hp: the depth of the plate.
    pub fn depth(&self) -> u32
        ensures value { result ≡ depth_by self.now.rows self.now.e1 self.now.p1 }
        ensures bound { result ≤ 2100 }
    {
        2 * self.e1 + (self.rows - 1) * self.p1
    }

    // net: what the holes leave of the depth.
    pub fn net_depth(&self) -> u32
        ensures value { result ≡ net_by self.now.rows self.now.hole self.now.e1 self.now.p1 }
        ensures bound { result ≤ 2100 }
    {
        self.depth() - self.rows * self.hole
    }

    // G: twice the net length that a torn block is sheared on.
    pub fn torn_length(&self) -> u32
        ensures value { result ≡ torn_by self.now.rows self.now.hole self.now.e1 self.now.p1 }
        ensures bound { result ≤ 4200 }
    {
        2 * self.depth() - 2 * self.e1 - (2 * self.rows - 1) * self.hole
    }
}
