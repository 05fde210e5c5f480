// The order, the parts, the size, the depth and the letters of terms that are runs of numbers.
ghost use Rattle.std.specs.Prelude.{◌≡◌, ◌++◌, take, nat_le};
ghost use Rattle.std.specs.List.{position_or_len};
ghost use Prim.Native.Nat.{compare};
ghost use Rattle.terms.specs.Sort.{lost, insert, insert_all};
ghost use Rattle.terms.specs.Letters.{rising, those_below};
ghost use Rattle.terms.specs.Numbers.{put_in};
ghost use Rattle.terms.specs.Promises.{Compares, Equals, Ends, Sized, Extends, Deep, Reads, Fills, Lists, ListsVariables};

use crate::difference::{difference_by_fours, first_difference};
use std::cmp::Ordering;
use std::mem;

// The numbers of a run that are no letters: 0, 1, a sum and a product. Those below ZERO are letters, and those below ADD atoms.
pub const ZERO: u32 = 4096;

pub const ONE: u32 = 4097;

pub const ADD: u32 = 4098;

pub const MUL: u32 = 4099;

// The first c letter: those below it are v letters, which may be renamed.
pub const FIXED: u32 = 1000;

// `compare` and `equal` go by the place of the first difference, not by the library's `cmp` and `==`: those have no contract that names it, and
// none that speaks of terms.

// Which of two runs comes first, by the first number that differs.
pub fn compare(a: &[u32], b: &[u32]) -> Ordering
    ensures { Compares a.now b.now result }
{
    match first_difference(a, b) {
        Some(k) => a.get(k).cmp(&b.get(k)),
        None => Ordering::Equal,
    }
}

// Whether two runs are the same.
pub fn equal(a: &[u32], b: &[u32]) -> bool
    ensures { Equals a.now b.now result }
{
    difference_by_fours(a, b).is_none()
}

// Where the term that starts at `at` ends: where the list ends, if that comes first, and `at` itself past that.
pub fn end_of(s: &[u32], at: usize) -> usize
    ensures { Ends s.now at result }
{
    let mut need: usize = 1;
    for i in at..s.len() {
        if need == 0 {
            return i;
        }
        if s[i] < ADD {
            need -= 1;
        } else {
            need += 1;
        }
    }
    at.max(s.len())
}

// How many nodes the term of a run has.
pub fn size(s: &[u32]) -> usize
    ensures { Sized s.now result }
{
    s.len()
}

// Where the term that starts at a position ends, and how deep it is.
#[derive(Drop)]
struct Extent {
    end: usize,
    depth: usize,
}

// It calls itself for the parts of a sum or product: its calls nest once for each of these on the way down.
fn extent_of(s: &[u32], at: usize) -> Extent
    ensures { Extends s.now at result }
{
    if s.len() <= at {
        return Extent { end: at, depth: 0 };
    }
    if s[at] < ADD {
        return Extent {
            end: at + 1,
            depth: 0,
        };
    }
    let left = extent_of(s, at + 1);
    let right = extent_of(s, left.end);
    Extent {
        end: right.end,
        depth: left.depth.max(right.depth) + 1,
    }
}

// The depth of the term of a run: 0 for an atom.
pub fn depth(s: &[u32]) -> usize
    ensures { Deep s.now result }
{
    extent_of(s, 0).depth
}

// Whether the numbers are the run of a term.
pub fn is_run(s: &[u32]) -> bool
    ensures { Reads s.now result }
{
    let mut need: usize = 1;
    for &x in s {
        if need == 0 || MUL < x {
            return false;
        }
        if x < ADD {
            need -= 1;
        } else {
            need += 1;
        }
    }
    need == 0
}

// `x` put in at a position: what follows moves on by one, and the last number is lost. By a loop, and not by the library's `copy_within`, as
// `copy::overwrite` is.
pub fn shift(s: &mut [u32], at: usize, x: u32)
    ensures { s.new ≡ put_in at x s.old }
{
    let mut carried = x;
    for i in at..s.len() {
        carried = mem::replace(&mut s[i], carried);
    }
}

// The place of the first number that is not below `x`, or the end.
fn place_of(s: &[u32], x: u32) -> usize
    ensures { result ≡ position_or_len (nat_le x) s.now }
{
    s.iter().position(|&y| x <= y).unwrap_or(s.len())
}

// `x` put among the first `n` numbers, before the first that is larger, unless it is met first: how many there are then, if there is room.
fn insert(out: &mut [u32], n: usize, x: u32) -> Option<usize>
    ensures { Fills (insert lost compare x (take n out.old)) out.old result out.new }
{
    let end = n.min(out.len());
    let at = place_of(&out[..end], x);
    if at < end && out[at] == x {
        return Some(end);
    }
    if out.len() <= end {
        return None;
    }
    let count = end + 1;
    shift(&mut out[..count], at, x);
    Some(count)
}

// The numbers of a run below a bound put among the first `n` numbers, one after another: the letters, or the v letters alone; how many there are
// then, if there was room for all.
// Here and in `insert` a count stands beside the buffer: it says what stands at the front of a buffer that the caller goes on with, from run to
// run or from line to line.
pub fn gather(s: &[u32], out: &mut [u32], n: usize, below: u32) -> Option<usize>
    ensures { Fills (insert_all lost compare (take n out.old) (those_below below s.now)) out.old result out.new }
{
    let mut count = n.min(out.len());
    for &x in s {
        if x < below {
            count = insert(out, count, x)?;
        }
    }
    Some(count)
}

// The different numbers of two runs below a bound, rising, in the front of `out`, whose rest is kept: how many there are.
// Where there are more of them than `out` has room for, its contents are free.
fn gather_both(a: &[u32], b: &[u32], out: &mut [u32], below: u32) -> Option<usize>
    ensures { Fills (rising (those_below below a.now ++ those_below below b.now)) out.old result out.new }
{
    let n = gather(a, out, 0, below)?;
    gather(b, out, n, below)
}

// The different letters of two runs.
pub fn letters(a: &[u32], b: &[u32], out: &mut [u32]) -> Option<usize>
    ensures { Lists a.now b.now out.old result out.new }
{
    gather_both(a, b, out, ZERO)
}

// The different v letters of two runs.
pub fn variables(a: &[u32], b: &[u32], out: &mut [u32]) -> Option<usize>
    ensures { ListsVariables a.now b.now out.old result out.new }
{
    gather_both(a, b, out, FIXED)
}
