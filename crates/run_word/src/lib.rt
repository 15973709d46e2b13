// The run of a rule of at most 64 states, on plain 64-bit words; and the writing of an end, which the run of wider rules shares.

#![tactic(auto)]

pub mod ends;
pub mod passes;
pub mod places;
mod rounds;
mod steps;
pub mod stretch;
mod table;
pub mod work;
