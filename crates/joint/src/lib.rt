// A kind of joint: what it admits, its modes and what their figures mean; the governing search, and the sheet of a joint.
#![tactic(auto)]

pub mod checks;
pub mod fault;
pub mod govern;
pub mod kind;
pub mod requirements;
pub mod sheet;
pub mod work;
