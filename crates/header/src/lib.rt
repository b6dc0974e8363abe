// Header plates: what a card says, what the sheet admits, the modes, the requirements and what the figures mean.
#![tactic(auto)]

mod admission;
pub mod header;
pub mod header_joint;
pub mod kind;
mod modes;
mod unmet;
