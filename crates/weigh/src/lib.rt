// WEIGH: the cheapest path between two sides, where each law has a weight.
#![tactic(auto)]

pub mod answer;
pub mod entry;
pub mod gather;
pub mod job;
pub mod layers;
pub mod opened;
pub mod path;
pub mod weighing;
