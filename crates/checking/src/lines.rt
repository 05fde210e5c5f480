// The lines of a derivation: its terms as they are written, and what is asked of the results of its step lines. The lines are walked once for
// each question, so that no buffer depends on their number.
ghost use Rattle.std.specs.Prelude.{◌≡◌, ◌≤◌, length, MatchOption};
ghost use Rattle.std.proofs.Math.Option.{none};
ghost use Rattle.terms.specs.Numbers.{is_some};
ghost use Rattle.search.specs.Law.{semiring};
ghost use Rattle.checking.specs.Layout.{check_layout};
ghost use Rattle.checking.specs.LineRead.{lines_from};
ghost use Rattle.checking.specs.LinesRead.{LaidOut, ReadsResults, Variables, FewVariables};
ghost use Rattle.checking.specs.Room.{SameRoom};

use super::line::step_line;
use super::reader::Reader;
use super::steps::StepLines;
use search::search::LARGEST;
use terms::term;
use text::answer::Sides;
use text::job::keyed;
use text::refusal::Refusal;
use words::candidate::MOST_VARIABLES;

// The sides, and the text that the step lines are.
#[derive(Clone, Copy)]
pub struct Written<'a> {
    pub left: &'a [u8],
    pub right: &'a [u8],
    pub steps: &'a [u8],
}

// Whether a text is step lines: nothing is left behind them, which a `for` over `StepLines` would not tell.
#[tactic(auto, using(crate::proofs::StepLines::formed_on, crate::proofs::StepLines::ended))]
fn well_formed(text: &[u8]) -> bool
    ensures { result ≡ is_some (lines_from text.now) }
{
    let mut rest = text;
    while let Some((_, more)) = step_line(rest) {
        rest = more;
    }
    rest.is_empty()
}

// The terms in the lines of a derivation.
#[tactic(auto, using(crate::proofs::StepLines::no_left, crate::proofs::StepLines::no_right, crate::proofs::StepLines::laid_out), unfolding(text::specs::Bytes::ascii))]
pub fn layout_of(s: &[u8]) -> Option<Written<'_>>
    ensures { MatchOption result (check_layout semiring s.now ≡ none) (λ w. LaidOut s.now w) }
{
    let (left, rest) = keyed(s, b"left=")?;
    let (right, steps) = keyed(rest, b"right=")?;
    if !well_formed(steps) {
        return None;
    }
    Some(Written { left, right, steps })
}

// Refusals 2 and 3 for the results of step lines that are well formed. One that is no term is refused before one that is too large, so that
// all are read.
pub fn read_results(steps: StepLines<'_>, reader: &mut Reader<'_>) -> Result<(), Refusal>
    requires { length steps.text.now ≤ length reader.old.numbers.now }
    ensures results { ReadsResults steps.entry.text.now result }
    ensures room { SameRoom reader.old reader.new }
{
    let mut read = Ok(());
    for step in steps {
        let run = reader.read(step.result).ok_or(Refusal::NoTerm)?;
        if LARGEST < run.len() {
            read = Err(Refusal::TooLarge);
        }
    }
    read
}

// The different v letters of both sides and all results, in the front of `names`: how many there are, if there is room for all.
fn variables(
    sides: Sides<'_>,
    steps: StepLines<'_>,
    reader: &mut Reader<'_>,
    names: &mut [u32],
) -> Option<usize>
    requires { length steps.text.now ≤ length reader.old.numbers.now }
    ensures names { Variables sides.entry.left.now sides.entry.right.now steps.entry.text.now (length names.old) result }
    ensures room { SameRoom reader.old reader.new }
{
    let mut count = term::variables(sides.left, sides.right, names)?;
    for step in steps {
        count = term::gather(reader.read(step.result)?, names, count, term::FIXED)?;
    }
    Some(count)
}

// Whether both sides and all results together have at most six different v letters, where all lines are well formed and all results terms.
pub fn few_variables(sides: Sides<'_>, steps: StepLines<'_>, reader: &mut Reader<'_>) -> bool
    requires { length steps.text.now ≤ length reader.old.numbers.now }
    ensures few { FewVariables sides.entry.left.now sides.entry.right.now steps.entry.text.now result }
    ensures room { SameRoom reader.old reader.new }
{
    let mut names = [0u32; MOST_VARIABLES];
    variables(sides, steps, reader, &mut names).is_some()
}
