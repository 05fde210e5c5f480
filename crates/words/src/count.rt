// How many words a term has, without making them.
ghost use Rattle.std.specs.Prelude.{◌≡◌, ◌≤◌, length};
ghost use Rattle.words.specs.Multiply.{atom_words};
ghost use Rattle.words.specs.Counting.{CountsAt, CountsWords};

use terms::term::{ADD, ZERO};

// How many words an atom has, by its number in a run: 0 has none, a letter and 1 have one.
fn count_atom(x: u32) -> usize
    ensures { (result ≡ length (atom_words x)) × (result ≤ 1) }
{
    if x == ZERO { 0 } else { 1 }
}

// Where the term that starts at a position ends, and how many words it has.
#[derive(Drop)]
struct Counted {
    end: usize,
    count: usize,
}

// The words of the term at a position counted, by sums and products of counts. It calls itself twice for each of these.
// Any numbers may stand in a run, so that sums and products stop at the largest number: no term of a job comes near it.
fn count_at(run: &[u32], at: usize) -> Counted
    ensures { CountsAt run.now at result }
{
    let Some(&x) = run.get(at) else {
        return Counted { end: at, count: 0 };
    };
    if x < ADD {
        return Counted {
            end: at + 1,
            count: count_atom(x),
        };
    }
    let left = count_at(run, at + 1);
    let right = count_at(run, left.end);
    let count = if x == ADD {
        left.count.saturating_add(right.count)
    } else {
        left.count.saturating_mul(right.count)
    };
    Counted {
        end: right.end,
        count,
    }
}

// How many words the term of a run has.
pub fn count_of(run: &[u32]) -> usize
    ensures { CountsWords run.now result }
{
    count_at(run, 0).count
}
