// A step line: its law, direction, place and result, as they are written.
ghost use Rattle.std.specs.Prelude.{◌≡◌, MatchOption};
ghost use Rattle.std.proofs.Math.Option.{none};
ghost use Rattle.terms.specs.Numbers.{is_some};
ghost use Rattle.search.specs.Law.{semiring};
ghost use Rattle.text.specs.StepText.{read_place};
ghost use Rattle.checking.specs.Layout.{step_layout};
ghost use Rattle.checking.specs.LineRead.{LawIn, DirectionIn, StepAt, line_at, LineAt};

use search::search::{DIRECTIONS, Direction, LAWS, Law};
use text::job::{keyed, up_to};
use text::step::{direction_name, law_name};

// Law and direction, and the place and the result as they are written.
#[derive(Clone, Copy)]
pub struct Step<'a> {
    pub law: Law,
    pub direction: Direction,
    pub place: &'a [u8],
    pub result: &'a [u8],
}

// The law whose name a text is.
fn law_in(text: &[u8]) -> Option<Law>
    ensures { LawIn text.now result }
{
    LAWS.iter().copied().find(|law| text == law_name(*law))
}

// The direction whose name a text is.
fn direction_in(text: &[u8]) -> Option<Direction>
    ensures { DirectionIn text.now result }
{
    DIRECTIONS
        .iter()
        .copied()
        .find(|direction| text == direction_name(*direction))
}

// Whether a text is a place: a dot alone, or at least one side.
fn is_place(text: &[u8]) -> bool
    ensures { result ≡ is_some (read_place text.now) }
{
    match text {
        [] => false,
        [b'.', rest @ ..] => rest.is_empty(),
        _ => text.iter().all(|b| *b == b'l' || *b == b'r'),
    }
}

// The step that the value of a step line tells.
fn step_in(value: &[u8]) -> Option<Step<'_>>
    ensures { MatchOption result (step_layout semiring value.now ≡ none) (λ x. StepAt value.now x) }
{
    let (law, rest) = up_to(value, b' ')?;
    let (direction, rest) = up_to(rest, b' ')?;
    let (place, result) = up_to(rest, b' ')?;
    let law = law_in(law)?;
    let direction = direction_in(direction)?;
    let place = place.strip_prefix(b"at=")?;
    if !is_place(place) {
        return None;
    }
    let result = result.strip_prefix(b"to=")?;
    Some(Step {
        law,
        direction,
        place,
        result,
    })
}

// The step of the line that begins a text, and what follows the line.
#[tactic(auto, using(crate::proofs::LineStarts::no_line, crate::proofs::LineStarts::no_step, crate::proofs::LineStarts::line_told), unfolding(text::specs::Bytes::ascii))]
pub fn step_line(s: &[u8]) -> Option<(Step<'_>, &[u8])>
    ensures { MatchOption result (line_at s.now ≡ none) (λ v. LineAt s.now v.0 v.1.now) }
{
    let (value, rest) = keyed(s, b"step=")?;
    Some((step_in(value)?, rest))
}
