// A side of the job's equation: its items, and the run of the term that they make.
ghost use Rattle.std.specs.Prelude.{◌≡◌, ◌≤◌, ◌<◌, length, MatchOption};
ghost use Rattle.text.specs.SideRead.{ReadsItems, ReadsTerm};

use super::{item, up_to};
use search::search::LARGEST;
use std::marker::Model;
use terms::copy::overwrite;
use terms::term;

// The run of a term of at most 31 nodes. An equation of `words` holds two such runs, in one value, so that both are cleared and compared together;
// here one is kept alone.
#[derive(Drop)]
pub struct Run {
    numbers: [u32; LARGEST],
    length: usize,
}

// Clauses see the numbers of the run.
impl Model for Run {
    ghost use Rattle.std.specs.Prelude.{ℕ, ◌≤◌, List, take};

    ghost Value = { List ℕ };

    ghost view = { λ r. take r.length r.numbers };

    ghost invariant = { λ r. r.length ≤ 31 };
}

impl Run {
    // Numbers kept as a run, if there are at most 31.
    pub fn of(numbers: &[u32]) -> Option<Self>
        ensures { MatchOption result (31 < length numbers.now) (λ r. (r ≡ numbers.now) × (length numbers.now ≤ 31)) }
    {
        if LARGEST < numbers.len() {
            return None;
        }
        let mut kept = [0u32; LARGEST];
        overwrite(&mut kept[..numbers.len()], numbers);
        Some(Run {
            numbers: kept,
            length: numbers.len(),
        })
    }

    pub fn numbers(&self) -> &[u32]
        ensures is { result.now ≡ self.now }
        ensures fits { length result.now ≤ 31 }
    {
        &self.numbers[..self.length]
    }
}

// The numbers of a side's items, at the front of `run`: how many there are, if every item stands for something. An iterator over the items
// would leave them to be counted all the same. The room is lent beside the side: of a struct that holds it each contract would have to say how
// long it is still.
#[tactic(auto, using(crate::proofs::Sides::foul_item, crate::proofs::Sides::next_item, crate::proofs::Sides::foul_last))]
fn items(side: &[u8], run: &mut [u32]) -> Option<usize>
    requires { length side.now < length run.old }
    ensures { ReadsItems side.now run.new result }
{
    let mut n = 0;
    let mut rest = side;
    while let Some((text, more)) = up_to(rest, b' ') {
        run[n] = item(text)?;
        n += 1;
        rest = more;
    }
    run[n] = item(rest)?;
    Some(n + 1)
}

// The run of the term that a side spells, at the front of `run`: how many numbers it has, if there is such a term.
#[tactic(auto, using(crate::proofs::Sides::term_read, crate::proofs::Sides::no_term))]
pub fn read_term(side: &[u8], run: &mut [u32]) -> Option<usize>
    requires { length side.now < length run.old }
    ensures { ReadsTerm side.now run.new result }
{
    let n = items(side, run)?;
    if term::is_run(&run[..n]) {
        Some(n)
    } else {
        None
    }
}
