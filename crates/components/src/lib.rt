// What the sheets of all kinds of joints share: steels, bolts, bolt classes, parts, and bearing.
#![tactic(auto)]

pub mod bearing;
pub mod bolts;
pub mod column;
pub mod part;
pub mod tables;
pub mod weld;
