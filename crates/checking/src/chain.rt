// Step lines judged one after the other: each against the term before it.
ghost use Rattle.std.specs.Prelude.{◌≤◌, length};
ghost use Rattle.checking.specs.Judged.{Follows, Leads};
ghost use Rattle.checking.specs.Room.{SameRoom};

use super::line::Step;
use super::place::position_of;
use super::reader::Reader;
use super::steps::StepLines;
use search::chain::is_use;
use search::search::{LARGEST, Pair, append};
use terms::term;
use text::job::side::Run;

// The numbers of two terms.
const BOTH: usize = 2 * LARGEST;

// Whether a step line on a term gives another, which is its result.
fn follows(step: Step<'_>, source: &Run, target: &Run) -> bool
    ensures { Follows step.entry source.now target.now result }
{
    let Some(at) = position_of(step.place, source.numbers()) else {
        return false;
    };
    let mut both = [0u32; BOTH];
    let middle = append(&mut both, 0, source.numbers());
    let end = append(&mut both, middle, target.numbers());
    let pair = Pair {
        both: &both[..end],
        middle,
    };
    is_use(step.law, step.direction, pair, at)
}

// Whether each line holds on the term before it, the first on left, and the last gives right, where all are well formed and no result has
// over 31 nodes.
#[tactic(auto, using(crate::proofs::Leading::leads_told))]
pub fn leads(left: Run, right: &[u32], steps: StepLines<'_>, reader: &mut Reader<'_>) -> bool
    requires { length steps.text.now ≤ length reader.old.numbers.now }
    ensures leads { Leads left right.now steps.entry.text.now result }
    ensures room { SameRoom reader.old reader.new }
{
    let mut term = left;
    for step in steps {
        let Some(run) = reader.read(step.result) else {
            return false;
        };
        let Some(target) = Run::of(run) else {
            return false;
        };
        if !follows(step, &term, &target) {
            return false;
        }
        term = target;
    }
    term::equal(term.numbers(), right)
}
