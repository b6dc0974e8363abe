// Resistances: an expression of whole numbers, read with its brackets as a printed figure and without them as the exact resistance.
#![tactic(auto)]

pub mod expression;
pub mod group;
pub mod ratio;
pub mod root;
