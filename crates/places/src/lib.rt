// The places of a rail: what each call does to them, and what it answers.
#![tactic(auto)]

pub mod fault;
pub mod place;
pub mod questions;
pub mod turns;
pub mod work;
