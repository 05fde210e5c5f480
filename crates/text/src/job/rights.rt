// The right sides of a job: read into slots, and what is asked of each of them.
ghost use Rattle.std.specs.Prelude.{◌*◌, ◌≤◌, length};
ghost use Rattle.std.specs.Fn.{FnReturnsAt};
ghost use Rattle.search.specs.Index.{SLOT};
ghost use Rattle.text.specs.Accepting.{FewVariables, AllPass, ReadsRights};

use super::keyed;
use super::side::read_term;
use super::written::Written;
use crate::refusal::Refusal;
use search::slots;
use search::slots::SlotRun;
use terms::term;
use words::candidate::MOST_VARIABLES;

// Whether two runs together have at most six different v letters.
pub fn few_variables(a: &[u32], b: &[u32]) -> bool
    ensures { FewVariables a.now b.now result }
{
    let mut names = [0u32; MOST_VARIABLES];
    term::variables(a, b, &mut names).is_some()
}

// Whether each of the first `n` right sides passes a test. They are a part of any length beside their number: `Runs` would ask more of a
// caller, since a part that is cut behind its last run will do.
pub fn all_pass<F: Fn(&[u32]) -> bool>(rights: &[u32], n: usize, passes: F) -> bool
    requires { (n ≤ 16) × F.IsAlwaysCallable passes }
    ensures { AllPass (λ xs b. FnReturnsAt F.Fn passes xs b) rights.now n result }
{
    (0..n as u32).all(|k| passes(slots::run_of(rights, k)))
}

// Reads the right sides into slots; `run` has room for each. One that is no term is refused before one that is too large, so that all are read.
// How many lines there are is known, so that each is there where it is unwrapped. An iterator over them, with what it promises, is longer than this
// loop and the one that counts them.
pub(super) fn read_rights(
    w: Written<'_>,
    run: &mut [u32],
    rights: &mut [u32],
) -> Result<(), Refusal>
    requires { (length w.lines.now ≤ length run.old) × (SLOT * w.rights ≤ length rights.old) }
    ensures { ReadsRights w.entry rights.old rights.new result }
{
    let mut read = Ok(());
    let mut rest = w.lines;
    for r in 0..w.rights {
        let (side, more) = keyed(rest, b"right=").unwrap();
        let n = read_term(side, run).ok_or(Refusal::NoTerm)?;
        match SlotRun::of(&run[..n]) {
            Some(right) => slots::hold_slot(rights, r, right),
            None => read = Err(Refusal::TooLarge),
        }
        rest = more;
    }
    read
}
