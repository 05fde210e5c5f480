// The path to a noted term, read back from the slots, and its places, read one side after another.
ghost use Rattle.search.specs.Traced.{Traces, Turns};

use crate::chain::Side;
use crate::slots;
use crate::slots::Origin;
use terms::term;

// Fills the front of `path` with the slots of the terms on the way from the start to slot `last`, from left to right, the start left out.
// How many there are: the distance of slot `last`. None where `path` is shorter or the way breaks off.
pub fn path_of(ws: &[u32], last: u32, path: &mut [u32]) -> Option<usize>
    ensures { Traces ws.now last path.new result }
{
    let count = slots::value_of(ws, last) as usize;
    if path.len() < count {
        return None;
    }
    let mut k = last;
    for at in (0..count).rev() {
        let Origin::From(step) = slots::origin_of(ws, k) else {
            return None;
        };
        path[at] = k;
        k = step.parent;
    }
    Some(count)
}

// The part of the term that starts at `from` in which the place `at` is, by its side and where it starts: none at the root.
pub fn side_at(run: &[u32], from: usize, at: usize) -> Option<(Side, usize)>
    ensures { Turns run.now from at result }
{
    if at <= from {
        return None;
    }
    let left = from + 1;
    let right = term::end_of(run, left);
    Some(if at < right {
        (Side::Left, left)
    } else {
        (Side::Right, right)
    })
}
