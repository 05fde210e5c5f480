// The lines of a job: the sides as they are written, and the limits.
ghost use Rattle.text.specs.RightLines.{RightsIn};
ghost use Rattle.text.specs.LayoutRead.{ReadsLimit, LimitIn, LimitsIn, LaysOut};

use super::written::Written;
use super::{NumberError, keyed, number};
use search::bounded_search::Limits;

// The largest number that any limit may be.
const LARGEST: u32 = 4096;

// What every larger number is taken for: it is out of each limit's range, too.
const OVER: u32 = 4097;

// The number that a limit's text is. One too large is no reason to stop: a later line may be malformed, which is refused first.
pub fn limit(text: &[u8]) -> Option<u32>
    ensures { ReadsLimit text.now result }
{
    match number(text, LARGEST) {
        Ok(n) => Some(n),
        Err(NumberError::TooLarge) => Some(OVER),
        Err(NumberError::Malformed) => None,
    }
}

// The limit in the line with a key that begins a text, and what follows the line.
#[tactic(auto, using(crate::proofs::Layouts::no_limit, crate::proofs::Layouts::foul_limit, crate::proofs::Layouts::limit_stated))]
pub fn limit_line<'a>(s: &'a [u8], key: &[u8]) -> Option<(u32, &'a [u8])>
    ensures { LimitIn s.now key.now result }
{
    let (value, rest) = keyed(s, key)?;
    Some((limit(value)?, rest))
}

// The limits in the four lines that are a text.
#[tactic(auto, using(crate::proofs::Layouts::limits_read), unfolding(crate::specs::Bytes::ascii))]
fn limit_lines(s: &[u8]) -> Option<Limits>
    ensures { LimitsIn s.now result }
{
    let (steps, s) = limit_line(s, b"steps=")?;
    let (size, s) = limit_line(s, b"size=")?;
    let (depth, s) = limit_line(s, b"depth=")?;
    let (nodes, s) = limit_line(s, b"nodes=")?;
    if !s.is_empty() {
        return None;
    }
    Some(Limits {
        steps,
        size,
        depth,
        nodes,
    })
}

// How many `right=` lines begin a text, and what follows them: both are known at the first line without the key. An iterator over
// them, with what it promises, is longer than this loop and the one that reads them.
#[tactic(auto, using(crate::proofs::RightLines::one_line, crate::proofs::RightLines::no_more), unfolding(crate::specs::Bytes::ascii))]
fn right_lines(s: &[u8]) -> (usize, &[u8])
    ensures { RightsIn s.now result.0 result.1.now }
{
    let mut count = 0;
    let mut rest = s;
    while let Some((_, more)) = keyed(rest, b"right=") {
        count += 1;
        rest = more;
    }
    (count, rest)
}

// The sides in the lines of a job, and the limits.
pub fn layout_of(s: &[u8]) -> Option<Written<'_>>
    ensures { LaysOut s.now result }
{
    let (left, lines) = keyed(s, b"left=")?;
    let (rights, rest) = right_lines(lines);
    if rights == 0 {
        return None;
    }
    let limits = limit_lines(rest)?;
    Some(Written {
        left,
        lines,
        rights,
        limits,
    })
}
