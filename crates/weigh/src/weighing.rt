// What a search goes by.
ghost use Rattle.std.specs.Prelude.{◌≤◌};

use search::bounded_search::Limits;
use search::search::Law;

// The most nodes of a result, and the most terms that are opened.
pub const LARGEST_SIZE: u32 = 31;

pub const MOST_NODES: u32 = 4096;

// The weights in law order, how much a path may weigh, how far the search goes, and how many slots there are for noted terms.
#[derive(Clone, Copy)]
pub struct Weighing {
    pub weights: [u32; 10],
    pub cost: u32,
    pub limits: Limits,
    pub slots: usize,
    ghost small: { limits.size ≤ 31 },
    ghost short: { limits.nodes ≤ 4096 },
    ghost few: { slots ≤ 65535 },
}

impl Weighing {
    ghost use Rattle.weigh.specs.Opened.{Totals};

    // What the result of a law on a term of so much weighs, unless it is over cost.
    pub fn total_of(self, law: Law, total: u32) -> Option<u32>
        ensures { Totals self.weights self.cost law total result }
    {
        let sum = total as usize + self.weights[u32::from(law) as usize] as usize;
        if (self.cost as usize) < sum {
            return None;
        }
        Some(sum as u32)
    }
}
