// The laws, matching, and the direct match.
ghost use Rattle.std.specs.Prelude.{◌≡◌, ◌++◌, ◌+◌, ◌≤◌, ◌<◌, length, take};
ghost use Rattle.search.specs.Coded.{law_of, law_number, numbered_law, direction_number, numbered_direction, Sides, Directed};
ghost use Rattle.search.specs.Span.{span_of, with_span, Within, letter_met, Meets, Matches};
ghost use Rattle.search.specs.Directly.{BindsSides, TakesFirst, Directs};

use terms::copy::overwrite;
use terms::term;
use terms::term::{ADD, MUL, ONE, ZERO};

#[derive(Clone, Copy, PartialEq, Eq)]
pub enum Law {
    AddAssoc,
    AddComm,
    AddZeroRight,
    MulAssoc,
    MulOneLeft,
    MulOneRight,
    LeftDistrib,
    RightDistrib,
    ZeroMul,
    MulZero,
}

#[derive(Clone, Copy, PartialEq, Eq)]
pub enum Direction {
    Forward,
    Back,
}

// The laws in law order.
pub const LAWS: [Law; 10] = [
    Law::AddAssoc,
    Law::AddComm,
    Law::AddZeroRight,
    Law::MulAssoc,
    Law::MulOneLeft,
    Law::MulOneRight,
    Law::LeftDistrib,
    Law::RightDistrib,
    Law::ZeroMul,
    Law::MulZero,
];

// The directions in the order in which they are tried.
pub const DIRECTIONS: [Direction; 2] = [Direction::Forward, Direction::Back];

// The place of a law in the law order.
impl From<Law> for u32 {
    ghost from_gives = { λ law n. (n ≡ law_number law) × (n < 10) };

    fn from(law: Law) -> u32 {
        law as u32
    }
}

// The law with a number: the first one past 9, which no slot that the search has written holds.
impl From<u32> for Law {
    ghost from_gives = { λ n law. law ≡ numbered_law n };

    fn from(n: u32) -> Law {
        LAWS.get(n as usize).copied().unwrap_or(LAWS[0])
    }
}

impl From<Direction> for u32 {
    ghost from_gives = { λ direction n. (n ≡ direction_number direction) × (n < 2) };

    fn from(direction: Direction) -> u32 {
        direction as u32
    }
}

// The direction with a number: back past 0.
impl From<u32> for Direction {
    ghost from_gives = { λ n direction. direction ≡ numbered_direction n };

    fn from(n: u32) -> Direction {
        if n == 0 {
            Direction::Forward
        } else {
            Direction::Back
        }
    }
}

// The most nodes of a term.
pub const LARGEST: usize = 31;

// The letters of a law. A letter of a term is below ZERO, and one of a law below LETTERS.
const A: u32 = 0;

const B: u32 = 1;

const C: u32 = 2;

pub const LETTERS: u32 = 3;

// The sides of a law, the left and the right one, as runs.
#[tactic(auto, using(crate::proofs::Rows::law_sides), unfolding(terms::specs::Run::run, crate::specs::Law::semiring, crate::specs::Coded::law_at))]
pub fn sides_of(law: Law) -> (&'static [u32], &'static [u32])
    ensures { Sides result.0.now result.1.now (law_of law) }
{
    match law {
        Law::AddAssoc => (&[ADD, A, ADD, B, C], &[ADD, ADD, A, B, C]),
        Law::AddComm => (&[ADD, A, B], &[ADD, B, A]),
        Law::AddZeroRight => (&[A], &[ADD, A, ZERO]),
        Law::MulAssoc => (&[MUL, A, MUL, B, C], &[MUL, MUL, A, B, C]),
        Law::MulOneLeft => (&[A], &[MUL, ONE, A]),
        Law::MulOneRight => (&[A], &[MUL, A, ONE]),
        Law::LeftDistrib => (&[ADD, MUL, A, B, MUL, A, C], &[MUL, A, ADD, B, C]),
        Law::RightDistrib => (&[ADD, MUL, A, C, MUL, B, C], &[MUL, ADD, A, B, C]),
        Law::ZeroMul => (&[ZERO], &[MUL, ZERO, A]),
        Law::MulZero => (&[ZERO], &[MUL, A, ZERO]),
    }
}

// The side of a law that is replaced, read in a direction, and the side that is put in for it. Law and direction are handed on side by
// side, as a step has them in the scope document.
pub fn sides(law: Law, direction: Direction) -> (&'static [u32], &'static [u32])
    ensures { Directed result.0.now result.1.now law direction }
{
    let (left, right) = sides_of(law);
    match direction {
        Direction::Forward => (left, right),
        Direction::Back => (right, left),
    }
}

// A part of a run: where it starts and how many numbers it has. A part of no numbers stands for none: no Option, which whoever
// fills in a side, where each letter has its part, would have to unwrap.
#[derive(Clone, Copy, PartialEq, Eq)]
pub struct Span {
    pub at: usize,
    pub len: usize,
}

// The parts of a run that a law's letters stand for. The run is lent beside them, since the matcher's answer, whose form the scope document
// names, holds none.
#[derive(Clone, Copy, PartialEq, Eq)]
pub struct Spans {
    pub a: Span,
    pub b: Span,
    pub c: Span,
}

// What matching finds. An enum of its own, since that is its form in the scope document.
#[derive(Clone, Copy, PartialEq, Eq)]
pub enum Binding {
    Bound(Spans),
    Unbound,
}

// No letter stands for a part.
pub const NO_SPANS: Spans = Spans {
    a: Span { at: 0, len: 0 },
    b: Span { at: 0, len: 0 },
    c: Span { at: 0, len: 0 },
};

impl Spans {
    ghost use Rattle.search.specs.Bound.{is_known};

    // The part that a letter stands for.
    pub fn of(self, x: u32) -> Span
        ensures { result ≡ span_of self x }
    {
        match x {
            A => self.a,
            B => self.b,
            _ => self.c,
        }
    }

    // The parts with another one for a letter.
    fn with(self, x: u32, span: Span) -> Spans
        ensures { result ≡ with_span self x span }
    {
        match x {
            A => Spans { a: span, ..self },
            B => Spans { b: span, ..self },
            _ => Spans { c: span, ..self },
        }
    }

    // Whether a number of a law's side is no letter, or a letter that stands for a part.
    pub fn is_known(self, x: u32) -> bool
        ensures { result ≡ is_known self x }
    {
        LETTERS <= x || self.of(x).len != 0
    }
}

// Whether a letter of a law may stand for the term from `at` to `end`: it is not bound, or bound to an equal one.
fn may_meet(s: &[u32], z: Spans, x: u32, at: usize, end: usize) -> bool
    requires { (x < 3) × (at ≤ end) × (end ≤ length s.now) × Within (length s.now) z }
    ensures { Meets s.now z x at end (letter_met z x at end result) }
{
    let old = z.of(x);
    old.len == 0 || s[old.at..old.at + old.len] == s[at..end]
}

// Matches the pattern whose run is `p` against the term whose run starts at `at`, from what the letters stand for already. A run and a
// position of it are no struct, since several positions of one run are spoken of at once, and the functions of terms take the two so. The
// position is counted by hand: a letter moves it over a whole term.
pub fn bind(p: &[u32], s: &[u32], at: usize, z: Spans) -> Binding
    requires { (at ≤ length s.now) × Within (length s.now) z }
    ensures { Matches p.now s.now at z result }
{
    let mut bound = z;
    let mut i = at;
    for &x in p {
        if x < LETTERS {
            let end = term::end_of(s, i);
            if !may_meet(s, bound, x, i, end) {
                return Binding::Unbound;
            }
            bound = bound.with(
                x,
                Span {
                    at: i,
                    len: end - i,
                },
            );
            i = end;
        } else if i < s.len() && s[i] == x {
            i += 1;
        } else {
            return Binding::Unbound;
        }
    }
    Binding::Bound(bound)
}

// Two terms whose runs stand in one list, one at the front and one at `middle`, so that spans are positions of it.
#[derive(Clone, Copy)]
pub struct Pair<'a> {
    pub both: &'a [u32],
    pub middle: usize,
    ghost within: { middle ≤ length both.now },
}

// Matches the sides of a law, the left with the first term of a pair and then the right with the second.
pub fn bind_sides(law: Law, pair: Pair<'_>) -> Binding
    ensures { BindsSides law pair.entry.both.now pair.entry.middle result }
{
    let (left, right) = sides_of(law);
    let Binding::Bound(z) = bind(left, pair.both, 0, NO_SPANS) else {
        return Binding::Unbound;
    };
    bind(right, pair.both, pair.middle, z)
}

// Puts numbers after the first `n` of a buffer, which has room for them: the position after them. A buffer goes by positions, and not by
// its parts: of a part that is given back no contract could say what the buffer holds then.
pub fn append(out: &mut [u32], n: usize, src: &[u32]) -> usize
    requires { n + length src.now ≤ length out.old }
    ensures { (result ≡ n + length src.now) × (take result out.new ≡ take n out.old ++ src.now) }
{
    let end = n + src.len();
    overwrite(&mut out[n..end], src);
    end
}

// The first law whose sides match the terms of a pair.
fn first_law(pair: Pair<'_>) -> Option<Law>
    ensures { TakesFirst pair.entry.both.now pair.entry.middle result }
{
    for law in LAWS {
        if let Binding::Bound(_) = bind_sides(law, pair) {
            return Some(law);
        }
    }
    None
}

// The first law whose sides match two terms of at most 31 nodes.
pub fn search_direct_axiom(left: &[u32], right: &[u32]) -> Option<Law>
    ensures { Directs left.now right.now result }
{
    if LARGEST < left.len() || LARGEST < right.len() {
        return None;
    }
    let mut both = [0u32; 2 * LARGEST];
    let middle = append(&mut both, 0, left);
    append(&mut both, middle, right);
    first_law(Pair {
        both: &both,
        middle,
    })
}
