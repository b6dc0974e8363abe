// What a header card says: plain numbers, in the order of the card, not yet looked at.
use components::bolts::Bolts;

// Steels by their yield strength, N/mm².
#[derive(Clone, Copy, PartialEq, Eq, Debug)]
pub struct Steels {
    pub plate: u32,
    // of the beam web
    pub web: u32,
    // of the support
    pub supp: u32,
}

// Where the bolts stand, mm.
#[derive(Clone, Copy, PartialEq, Eq, Debug)]
pub struct Layout {
    // end distance: end bolt to plate top, and to foot
    pub e1: u32,
    // pitch down the column
    pub p1: u32,
    // edge distance: bolt to plate side
    pub e2: u32,
    // gauge of the two columns
    pub p2: u32,
}

// The parts joined; thicknesses and the weld throat in tenths of a mm.
#[derive(Clone, Copy, PartialEq, Eq, Debug)]
pub struct Parts {
    // plate
    pub tp: u32,
    // beam web
    pub tw: u32,
    // support
    pub ts: u32,
    // bolt to the edge of a supporting flange, mm; 0 where the support is a web
    pub es: u32,
    // weld throat
    pub a: u32,
}

// What is asked of the joint.
#[derive(Clone, Copy, PartialEq, Eq, Debug)]
pub struct Demands {
    // plate foot to the beam's underside, mm
    pub he: u32,
    // clear depth of the beam web, mm
    pub db: u32,
    // required rotation, millionths, as a tangent
    pub phi: u32,
    // shear load, N
    pub v: u32,
}

#[derive(Clone, Copy, PartialEq, Eq, Debug)]
pub struct HeaderJoint {
    pub steels: Steels,
    pub bolts: Bolts,
    pub layout: Layout,
    pub parts: Parts,
    pub demands: Demands,
}
