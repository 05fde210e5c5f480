// Jobs accepted or refused: the sides read, and refusals 1 to 6, 9 and 10.
// The right sides go into any buffer that is long enough for their slots: an array of one length would ask more of those who call.
ghost use Rattle.std.specs.Prelude.{◌≡◌, ◌*◌, ◌≤◌, ◌<◌, length};
ghost use Rattle.search.specs.Index.{SLOT};
ghost use Rattle.search.specs.Searched.{limits_of};
ghost use Rattle.text.specs.Job.{in_range};
ghost use Rattle.text.specs.Refusal.{number_of};
ghost use Rattle.text.specs.Accepting.{Orients, AcceptsSides, ReadsSides, Answers, read_within, ReadsFind, ReadsJob};

use super::lines::layout_of;
use super::rights::{all_pass, few_variables, read_rights};
use super::side::{Run, read_term};
use super::written::Written;
use crate::refusal::Refusal;
use search::bounded_search::Limits;
use search::search::LARGEST;
use search::slots;
use search::slots::SlotRun;
use terms::candidate::{in_order, smaller};
use terms::term;
use words::candidate::Equation;

// The most right sides of a job of FIND. That a job has no more stands in the clauses below and in no type, since what is written is told before
// that is refused.
pub const MOST_RIGHTS: usize = 16;

// The most bytes of a job of FIND, of one that is short, and of another job.
const MOST_BYTES: usize = 4096;

const SHORT: usize = 512;

const MOST_BYTES_OF_ONE: usize = 1024;

// The most that each limit may be.
const MOST_STEPS: u32 = 16;

const MOST_SIZE: u32 = 31;

const MOST_DEPTH: u32 = 15;

const MOST_NODES: u32 = 4096;

// Left's run, how many right sides there are, and the limits. The runs of the right sides stay beside it, in the slots that were lent: if it borrowed
// these, no clause could say what they hold behind the call.
#[derive(Drop)]
pub struct Read {
    pub left: Run,
    pub rights: usize,
    pub limits: Limits,
}

// Whether each limit is in its range.
#[tactic(auto, unfolding(crate::specs::Job::in_range))]
pub fn in_range(m: Limits) -> bool
    ensures { result ≡ in_range (limits_of m) }
{
    m.steps <= MOST_STEPS && m.size <= MOST_SIZE && m.depth <= MOST_DEPTH && m.nodes <= MOST_NODES
}

// The smaller of left, `a`, and the only right side is left, the other is kept in the slot.
fn orient(a: &[u32], rights: &mut [u32]) -> Run
    requires { SLOT ≤ length rights.old }
    ensures { Orients a.now rights.old result rights.new }
{
    let mut x = [0u32; LARGEST];
    let mut y = [0u32; LARGEST];
    let mut sides = Equation::new(&mut x, &mut y);
    let b = slots::run_of(rights, 0);
    sides.store(smaller(a, b), in_order(a, b).1);
    let other = SlotRun {
        numbers: sides.right(),
    };
    slots::hold_slot(rights, 0, other);
    Run::of(sides.left()).unwrap()
}

// Refusals 4 to 6 and 10 for left and the `n` right sides in slots. A right side that comes before left takes its place where it is the only one.
#[tactic(auto, using(crate::proofs::Accepts::sides_accepted))]
fn accept_sides(left: Run, n: usize, limits: Limits, rights: &mut [u32]) -> Result<Read, Refusal>
    requires { (0 < n) × (n ≤ 16) × (SLOT * n ≤ length rights.old) }
    ensures { AcceptsSides left n limits rights.old result rights.new }
{
    let a = left.numbers();
    if !all_pass(rights, n, |b| few_variables(a, b)) {
        return Err(Refusal::TooManyVariables);
    }
    if !in_range(limits) {
        return Err(Refusal::LimitOver);
    }
    if !all_pass(rights, n, |b| !term::equal(a, b)) {
        return Err(Refusal::SameSides);
    }
    if all_pass(rights, n, |b| term::compare(b, a).is_ge()) {
        return Ok(Read {
            left,
            rights: n,
            limits,
        });
    }
    let alone = n == 1;
    if !alone {
        return Err(Refusal::RightBeforeLeft);
    }
    Ok(Read {
        left: orient(a, rights),
        rights: n,
        limits,
    })
}

// The jobs of a text that is well formed: refusals 2 to 6 and 10. `run` has room for the items of any side.
#[tactic(auto, using(std::proofs::lemmas::Result::err_from_is_err_and, crate::proofs::Jobs::foul_left, crate::proofs::Jobs::foul_right, crate::proofs::Jobs::sides_read))]
fn read_sides(w: Written<'_>, run: &mut [u32], rights: &mut [u32]) -> Result<Read, Refusal>
    requires { (length w.left.now < length run.old) × (length w.lines.now ≤ length run.old) × (w.rights ≤ 16) × (SLOT * w.rights ≤ length rights.old) }
    ensures { ReadsSides w.entry result rights.new }
{
    let n = read_term(w.left, run).ok_or(Refusal::NoTerm)?;
    let left = Run::of(&run[..n]);
    read_rights(w, run, rights)?;
    accept_sides(left.ok_or(Refusal::TooLarge)?, w.rights, w.limits, rights)
}

// The jobs of a text of at most `BYTES` bytes with at most `most` right sides; with more it is refused by `over`. The buffer for the items is
// filled with zeros first, which for a large one takes as long as a short search.
#[tactic(auto, using(crate::proofs::Jobs::within_read, std::proofs::lemmas::Result::err_from_is_err_and))]
fn read_within<const BYTES: usize>(
    s: &[u8],
    most: usize,
    over: Refusal,
    rights: &mut [u32],
) -> Result<Read, Refusal>
    requires { (BYTES ≤ 4096) × (most ≤ 16) × (SLOT * most ≤ length rights.old) }
    ensures { Answers (read_within BYTES most (number_of over) s.now) result rights.new }
{
    if BYTES < s.len() {
        return Err(Refusal::Malformed);
    }
    let w = layout_of(s).ok_or(Refusal::Malformed)?;
    if most < w.rights {
        return Err(over);
    }
    let mut run = [0u32; BYTES];
    read_sides(w, &mut run, rights)
}

// FIND's jobs, one for each right side. 512 bytes are enough for one right side of 31 nodes.
#[tactic(auto, using(crate::proofs::Jobs::short_find_read, crate::proofs::Jobs::find_read))]
pub fn read_find(s: &[u8], rights: &mut [u32]) -> Result<Read, Refusal>
    requires { SLOT * 16 ≤ length rights.old }
    ensures { ReadsFind s.now result rights.new }
{
    if s.len() <= SHORT {
        read_within::<SHORT>(s, MOST_RIGHTS, Refusal::TooManyRights, rights)
    } else {
        read_within::<MOST_BYTES>(s, MOST_RIGHTS, Refusal::TooManyRights, rights)
    }
}

// The job of WORDS, RENAME and SAME, which has one right side.
pub fn read_job(s: &[u8], rights: &mut [u32]) -> Result<Read, Refusal>
    requires { SLOT ≤ length rights.old }
    ensures { ReadsJob s.now result rights.new }
{
    read_within::<MOST_BYTES_OF_ONE>(s, 1, Refusal::Malformed, rights)
}
