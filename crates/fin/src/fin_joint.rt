// What a fin card says: plain numbers, in the order of the card, not yet looked at.
use components::bolts::Bolts;

// Steels by their yield strength, N/mm².
#[derive(Clone, Copy, PartialEq, Eq, Debug)]
pub struct Steels {
    pub plate: u32,
    // of the beam web
    pub web: u32,
}

// Where the bolts stand, mm.
#[derive(Clone, Copy, PartialEq, Eq, Debug)]
pub struct Layout {
    // end distance: end bolt to plate top, and to foot
    pub e1: u32,
    // pitch down the column
    pub p1: u32,
    // edge distance: bolt to plate side
    pub e2: u32,
    // lever arm: support face to bolts
    pub z: u32,
}

// The parts joined; thicknesses and the weld throat in tenths of a mm.
#[derive(Clone, Copy, PartialEq, Eq, Debug)]
pub struct Parts {
    // plate
    pub tp: u32,
    // beam web
    pub tw: u32,
    // top bolt to the web's top edge, mm
    pub e1b: u32,
    // bolt to the beam end, mm
    pub e2b: u32,
    // gross shear area of the beam, mm²
    pub av: u32,
    // weld throat
    pub a: u32,
}

// What is asked of the joint.
#[derive(Clone, Copy, PartialEq, Eq, Debug)]
pub struct Demands {
    // plate foot to the beam's underside, mm
    pub he: u32,
    // clear depth of the beam web, mm
    pub db: u32,
    // required rotation, millionths, as a tangent
    pub phi: u32,
    // shear load, N
    pub v: u32,
    // tie load, N
    pub n: u32,
}

#[derive(Clone, Copy, PartialEq, Eq, Debug)]
pub struct FinJoint {
    pub steels: Steels,
    pub bolts: Bolts,
    pub layout: Layout,
    pub parts: Parts,
    pub demands: Demands,
}
