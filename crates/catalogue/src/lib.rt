// The catalogue: equations under numbers, and the kept count of their kinds.
#![tactic(auto)]

pub mod entry;
pub mod kind;
pub mod places;
pub mod put;
pub mod read;
pub mod withdraw;
