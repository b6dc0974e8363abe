// The account of a text of cards: for each card its sheet or its fault, as the program prints them.
#![tactic(auto)]

pub mod account;
pub mod entry;
pub mod fault;
