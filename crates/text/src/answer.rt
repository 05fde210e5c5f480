// Answers: lines of a key and a value, written where they fit.
ghost use Rattle.std.specs.Prelude.{ℕ, List, length};
ghost use Rattle.text.specs.Answer.{fitting};
ghost use Rattle.text.specs.Entry.{Gives};

// FIND's answer, its blocks, and the text of an outcome.
pub mod block;
pub mod find;
pub mod outcome;

// WORDS' answer.
pub mod lists;

// RENAME's answer.
pub mod rename;

// SAME's answer.
pub mod same;

use crate::put::{Text, put_in_front};
use crate::refusal::Refusal;

// The sides of an equation, as runs.
#[derive(Clone, Copy)]
pub struct Sides<'a> {
    pub left: &'a [u32],
    pub right: &'a [u32],
}

// A text measured on an output of no bytes, and written where it fits: how long it is. Otherwise the output stays untouched.
pub fn answered<T: Text>(text: &T, out: &mut [u8]) -> Result<usize, Refusal>
    ensures { (t : List ℕ) → T.shows text.now t → Gives (fitting (length out.old) t) out.old result out.new }
{
    let n = put_in_front(text, &mut out[..0]);
    if out.len() < n {
        return Err(Refusal::ShortOutput);
    }
    put_in_front(text, out);
    Ok(n)
}
