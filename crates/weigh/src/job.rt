// The text of a job: its seven lines, and refusals 1 to 5, 16 and 6.
ghost use Rattle.std.specs.Prelude.{◌≡◌, ◌<◌, length};
ghost use Rattle.weigh.specs.Layout.{weights_line};
ghost use Rattle.weigh.specs.Job.{weights_in_range};
ghost use Rattle.weigh.specs.Read.{numbers_in, ReadsWeights, LaysOut, Orients, Accepts, ReadsSides, ReadsWeigh};

use search::bounded_search::Limits;
use terms::term;
use text::job::accept::in_range;
use text::job::lines::{limit, limit_line};
use text::job::rights::few_variables;
use text::job::side::{Run, read_term};
use text::job::{keyed, up_to};
use text::refusal::Refusal;

// The most bytes of a job, the most that a path may weigh, and the most that a law may.
const MOST_BYTES: usize = 1024;

const MOST_COST: u32 = 99;

const MOST_WEIGHT: u32 = 9;

// A job as it is written: a number too large is 4,097 here.
#[derive(Clone, Copy)]
struct Written<'a> {
    left: &'a [u8],
    right: &'a [u8],
    cost: u32,
    limits: Limits,
    weights: [u32; 10],
}

// The sides, the smaller on the left, cost, limits and weights of an accepted job.
#[derive(Drop)]
pub struct Read {
    pub left: Run,
    pub right: Run,
    pub cost: u32,
    pub limits: Limits,
    pub weights: [u32; 10],
}

// Ten numbers, parted by spaces. The last is all that is left, so that an eleventh makes it no number.
#[tactic(auto, using(crate::proofs::ReadWeights::numbers_read))]
fn weights(text: &[u8]) -> Option<[u32; 10]>
    ensures { ReadsWeights (numbers_in 10 text.now) result }
{
    let mut weights = [0u32; 10];
    let mut rest = text;
    for k in 0..9 {
        let (first, more) = up_to(rest, b' ')?;
        weights[k] = limit(first)?;
        rest = more;
    }
    weights[9] = limit(rest)?;
    Some(weights)
}

// The weights in the line that is a text.
#[tactic(auto, using(crate::proofs::ReadWeights::line_read), unfolding(text::specs::Bytes::ascii))]
fn weights_line(s: &[u8]) -> Option<[u32; 10]>
    ensures { ReadsWeights (weights_line 10 s.now) result }
{
    let (text, rest) = keyed(s, b"weights=")?;
    let read = weights(text)?;
    if !rest.is_empty() {
        return None;
    }
    Some(read)
}

// The seven lines that are a text. A job of WEIGH has no steps.
fn layout_of(s: &[u8]) -> Option<Written<'_>>
    ensures { LaysOut s.now result }
{
    let (left, s) = keyed(s, b"left=")?;
    let (right, s) = keyed(s, b"right=")?;
    let (cost, s) = limit_line(s, b"cost=")?;
    let (size, s) = limit_line(s, b"size=")?;
    let (depth, s) = limit_line(s, b"depth=")?;
    let (nodes, s) = limit_line(s, b"nodes=")?;
    let weights = weights_line(s)?;
    let limits = Limits {
        steps: 0,
        size,
        depth,
        nodes,
    };
    Some(Written {
        left,
        right,
        cost,
        limits,
        weights,
    })
}

// Whether each weight is in its range.
fn weights_in_range(weights: &[u32]) -> bool
    ensures { result ≡ weights_in_range weights.now }
{
    weights.iter().all(|&n| 1 <= n && n <= MOST_WEIGHT)
}

// The sides, the smaller first.
fn oriented(left: Run, right: Run) -> (Run, Run)
    ensures { Orients left right result }
{
    if term::compare(left.numbers(), right.numbers()).is_gt() {
        (right, left)
    } else {
        (left, right)
    }
}

// Refusals 4, 5, 16 and 6 for sides of at most 31 nodes.
fn accept(left: Run, right: Run, w: Written<'_>) -> Result<Read, Refusal>
    ensures { Accepts left right w.entry result }
{
    if !few_variables(left.numbers(), right.numbers()) {
        return Err(Refusal::TooManyVariables);
    }
    if !in_range(w.limits) {
        return Err(Refusal::LimitOver);
    }
    if MOST_COST < w.cost || !weights_in_range(&w.weights) {
        return Err(Refusal::WeightOver);
    }
    if term::equal(left.numbers(), right.numbers()) {
        return Err(Refusal::SameSides);
    }
    let (left, right) = oriented(left, right);
    Ok(Read {
        left,
        right,
        cost: w.cost,
        limits: w.limits,
        weights: w.weights,
    })
}

// The job of a text that is well formed: refusals 2 and 3, then those of the terms.
fn read_sides(w: Written<'_>) -> Result<Read, Refusal>
    requires { (length w.left.now < 1024) × (length w.right.now < 1024) }
    ensures { ReadsSides w.entry result }
{
    let mut run = [0u32; MOST_BYTES];
    let n = read_term(w.left, &mut run).ok_or(Refusal::NoTerm)?;
    let left = Run::of(&run[..n]);
    let n = read_term(w.right, &mut run).ok_or(Refusal::NoTerm)?;
    let right = Run::of(&run[..n]);
    accept(
        left.ok_or(Refusal::TooLarge)?,
        right.ok_or(Refusal::TooLarge)?,
        w,
    )
}

// The job of a text.
pub fn read_weigh(s: &[u8]) -> Result<Read, Refusal>
    ensures { ReadsWeigh s.now result }
{
    if MOST_BYTES < s.len() {
        return Err(Refusal::Malformed);
    }
    read_sides(layout_of(s).ok_or(Refusal::Malformed)?)
}
