// A rail: places on which cards of one kind of joint hang, and are lifted from against a slip.
#![tactic(auto)]

pub mod audit;
pub mod call;
pub mod calls;
pub mod opening;
pub mod rail;
pub mod replay;
pub mod slip;
