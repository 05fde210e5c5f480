// CHECK: derivations from elsewhere, read and judged.
#![tactic(auto)]

pub mod chain;
pub mod entry;
pub mod judge;
pub mod line;
pub mod lines;
pub mod place;
pub mod reader;
pub mod steps;
