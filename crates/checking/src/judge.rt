// A derivation judged: refusals 1, 2, 3, 4, 11 and 12 in this order.
ghost use Rattle.std.specs.Prelude.{◌<◌, ◌≤◌, length};
ghost use Rattle.checking.specs.Judged.{JudgesTerms, JudgesLines, Judges};

use super::chain::leads;
use super::lines::{Written, few_variables, layout_of, read_results};
use super::reader::Reader;
use super::steps::StepLines;
use text::answer::Sides;
use text::job::side::Run;
use text::refusal::Refusal;

// The most bytes of a derivation.
const MOST_BYTES: usize = 8192;

// Refusals 4, 11 and 12 for sides of at most 31 nodes.
fn judge_terms(
    left: Run,
    right: Run,
    steps: StepLines<'_>,
    reader: &mut Reader<'_>,
) -> Result<(), Refusal>
    requires { length steps.text.now ≤ length reader.old.numbers.now }
    ensures { JudgesTerms left right steps.entry.text.now result }
{
    let sides = Sides {
        left: left.numbers(),
        right: right.numbers(),
    };
    if !few_variables(sides, steps, reader) {
        return Err(Refusal::TooManyVariables);
    }
    if steps.text.is_empty() {
        return Err(Refusal::NoSteps);
    }
    if !leads(left, right.numbers(), steps, reader) {
        return Err(Refusal::WrongSteps);
    }
    Ok(())
}

// A text that is well formed: refusals 2 and 3, then those of the terms.
fn judge_lines(
    left: &[u8],
    right: &[u8],
    steps: StepLines<'_>,
    reader: &mut Reader<'_>,
) -> Result<(), Refusal>
    requires left { length left.now < length reader.old.numbers.now }
    requires right { length right.now < length reader.old.numbers.now }
    requires steps { length steps.text.now ≤ length reader.old.numbers.now }
    ensures { JudgesLines left.now right.now steps.entry.text.now result }
{
    let left = Run::of(reader.read(left).ok_or(Refusal::NoTerm)?);
    let right = Run::of(reader.read(right).ok_or(Refusal::NoTerm)?);
    read_results(steps, reader)?;
    let left = left.ok_or(Refusal::TooLarge)?;
    let right = right.ok_or(Refusal::TooLarge)?;
    judge_terms(left, right, steps, reader)
}

// The lines of a text that is well formed, judged with room for the items of any of its terms. Apart from `judge`, so that the room is filled
// with zeros for such a text alone.
fn judge_written(w: Written<'_>) -> Result<(), Refusal>
    requires { (length w.left.now < 8192) × (length w.right.now < 8192) × (length w.steps.now ≤ 8192) }
    ensures { JudgesLines w.entry.left.now w.entry.right.now w.entry.steps.now result }
{
    let steps = StepLines { text: w.steps };
    let mut numbers = [0u32; MOST_BYTES];
    let mut reader = Reader {
        numbers: &mut numbers,
    };
    judge_lines(w.left, w.right, steps, &mut reader)
}

// The verdict on a text.
pub fn judge(s: &[u8]) -> Result<(), Refusal>
    ensures { Judges s.now result }
{
    if MOST_BYTES < s.len() {
        return Err(Refusal::Malformed);
    }
    let w = layout_of(s).ok_or(Refusal::Malformed)?;
    judge_written(w)
}
