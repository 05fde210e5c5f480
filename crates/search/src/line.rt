// A law at one place of a term: its letters bound there, and its line put together as a run in a buffer.
ghost use Rattle.std.specs.Prelude.{◌≡◌, ◌≤◌, length};
ghost use Rattle.std.specs.List.{list_all};
ghost use Rattle.search.specs.Span.{Within};
ghost use Rattle.search.specs.Bound.{is_known, BindsSide, first_of, Repeats, BindsLaw, Misses};
ghost use Rattle.search.specs.Filled.{Fills};
ghost use Rattle.search.specs.Spliced.{Finishes, Splices, Tries, Outgrows};
ghost use Rattle.search.specs.declared.search.Binding.TheVariants.{Bound};
ghost use Rattle.search.specs.declared.search.Direction.TheVariants.{Forward, Back};

use crate::search;
use crate::search::{Binding, Direction, LETTERS, Law, Spans};
use terms::term;
use terms::term::{ADD, MUL};

// Whether each letter of a law's side stands for a part.
fn binds_all(q: &[u32], z: Spans) -> bool
    ensures { result ≡ list_all (is_known z) q.now }
{
    q.iter().all(|&x| z.is_known(x))
}

// Matches a law's side p with the term that starts at `at`: the law is bound only if each letter of its other side, q, is.
fn bind_side(p: &[u32], q: &[u32], s: &[u32], at: usize) -> Binding
    requires { at ≤ length s.now }
    ensures { BindsSide p.now q.now s.now at result }
{
    match search::bind(p, s, at, search::NO_SPANS) {
        Binding::Bound(z) if binds_all(q, z) => Binding::Bound(z),
        _ => Binding::Unbound,
    }
}

// In place of the number that a run begins with: any may, as the side replaced is a letter.
const ANY: u32 = 0;

// A number that no run has.
const NONE: u32 = 4100;

// The number that a run begins with where a law is bound forward, and where it is bound back: ANY, or NONE where a letter of the side put in
// is always left unbound. No Option in their place, since short searches take 4 to 7 in a hundred longer with one.
fn firsts(law: Law) -> (u32, u32)
    ensures { (result.0 ≡ first_of law Forward) × (result.1 ≡ first_of law Back) }
{
    match law {
        Law::AddAssoc => (ADD, ADD),
        Law::AddComm => (ADD, ADD),
        Law::AddZeroRight => (ANY, ADD),
        Law::MulAssoc => (MUL, MUL),
        Law::MulOneLeft => (ANY, MUL),
        Law::MulOneRight => (ANY, MUL),
        Law::LeftDistrib => (ADD, MUL),
        Law::RightDistrib => (ADD, MUL),
        Law::ZeroMul => (NONE, MUL),
        Law::MulZero => (NONE, MUL),
    }
}

// The number that a run begins with where a law is bound, read in a direction.
fn first_of(law: Law, direction: Direction) -> u32
    ensures { result ≡ first_of law direction }
{
    let (forward, back) = firsts(law);
    match direction {
        Direction::Forward => forward,
        Direction::Back => back,
    }
}

// Whether the number at `at` tells that a law is not bound there.
fn misses(law: Law, direction: Direction, s: &[u32], at: usize) -> bool
    ensures { Misses law direction s.now at result }
{
    let first = first_of(law, direction);
    LETTERS <= first && at < s.len() && s[at] != first
}

// What the letters of a law stand for at the subterm that starts at `at`. A law that does not match there, or leaves a letter
// of the side put in unbound, is unbound.
pub fn bind_law(law: Law, direction: Direction, s: &[u32], at: usize) -> Binding
    requires { at ≤ length s.now }
    ensures { BindsLaw law direction s.now at result }
{
    if misses(law, direction, s, at) {
        return Binding::Unbound;
    }
    let (replaced, put) = search::sides(law, direction);
    bind_side(replaced, put, s, at)
}

// Puts the run of a law's side, whose letters are bound, with their parts for them after the first `n` numbers of a buffer. The place in it is
// counted by hand: a letter moves it over a whole part.
fn fill(q: &[u32], s: &[u32], z: Spans, out: &mut [u32], n: usize) -> Option<usize>
    requires { (n ≤ length out.old) × Within (length s.now) z }
    ensures { Fills q.now s.now z out.old out.new n result }
{
    let mut m = n;
    for &x in q {
        if x < LETTERS {
            let span = z.of(x);
            if out.len() - m < span.len {
                return None;
            }
            m = search::append(out, m, &s[span.at..span.at + span.len]);
        } else {
            if out.len() <= m {
                return None;
            }
            out[m] = x;
            m += 1;
        }
    }
    Some(m)
}

// Ends a splice: puts what follows `end` in s after the first `m` numbers of the buffer, unless its part from `n` on is the part of s that it replaces.
fn finish(s: &[u32], at: usize, end: usize, out: &mut [u32], n: usize, m: usize) -> Option<usize>
    requires { (at ≤ end) × (end ≤ length s.now) × (n ≤ m) × (m ≤ length out.old) }
    ensures { Finishes s.now at end out.old n m out.new result }
{
    if out[n..m] == s[at..end] || out.len() - m < s.len() - end {
        return None;
    }
    Some(search::append(out, m, &s[end..]))
}

// Puts the run of s, with a filled side of a law in place of the part from `at` to `end`, at the front of a buffer.
fn splice(q: &[u32], s: &[u32], z: Spans, at: usize, end: usize, out: &mut [u32]) -> Option<usize>
    requires { (at ≤ end) × (end ≤ length s.now) × Within (length s.now) z }
    ensures { Splices q.now s.now z at end (length out.old) out.new result }
{
    if out.len() < at {
        return None;
    }
    let n = search::append(out, 0, &s[..at]);
    let m = fill(q, s, z, out, n)?;
    finish(s, at, end, out, n, m)
}

// The line of a law at the subterm that starts at `at`, by the parts that its letters stand for there. The run of its result
// stands at the front of the buffer; there is none where the result is s itself or the buffer is too short.
pub fn put_line(
    law: Law,
    direction: Direction,
    s: &[u32],
    at: usize,
    z: Spans,
    out: &mut [u32],
) -> Option<usize>
    requires { (at ≤ length s.now) × BindsLaw law direction s.now at (Bound z) }
    ensures { Tries law direction s.now at (length out.old) out.new result }
{
    let (_, put) = search::sides(law, direction);
    let end = term::end_of(s, at);
    splice(put, s, z, at, end, out)
}

// Whether a law makes each term of `len` nodes one of more than `room`: one whose side to be matched is a letter adds two nodes.
pub fn outgrows(law: Law, direction: Direction, len: usize, room: usize) -> bool
    ensures { Outgrows law direction len room result }
{
    first_of(law, direction) < LETTERS && room.saturating_sub(len) < 2
}

// Whether a law makes of every term the same back as forward: the sides of add_comm are equal but for the names of their letters.
pub fn repeats(law: Law, direction: Direction) -> bool
    ensures { Repeats law direction result }
{
    law == Law::AddComm && direction == Direction::Back
}
