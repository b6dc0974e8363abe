// The card of a joint: its text is read into the joint's fields, or refused at its first fault.
#![tactic(auto)]

pub mod card;
pub mod cards;
pub mod fault;
pub mod fin_card;
pub mod header_card;
pub mod joint_card;
pub mod kind;
pub mod lines;
pub mod reference;
