// SAME: whether the words of both sides are the same, and nothing else.
ghost use Rattle.std.specs.Prelude.{◌≡◌, ◌≤◌, length};
ghost use Rattle.terms.specs.Term.{Term, size};
ghost use Rattle.terms.specs.Held.{IsRun};
ghost use Rattle.words.specs.Same.{same_words};
ghost use Rattle.text.specs.Answer.{fitting};
ghost use Rattle.text.specs.Words.{same_text};
ghost use Rattle.text.specs.Entry.{Gives};

use super::{Sides, answered};
use crate::put::Text;
use crate::refusal::Refusal;
use crate::writer::Writer;
use words::same::same_words;

// The answer.
#[derive(Clone, Copy)]
struct Same {
    same: bool,
}

impl Text for Same {
    ghost shows = { λ s t. t ≡ same_text s.same };

    fn put(&self, w: &mut Writer<'_>) {
        w.line(b"same=", &self.same);
    }
}

// The answer to an equation of two terms of at most 31 nodes.
pub fn answer_same(sides: Sides<'_>, out: &mut [u8]) -> Result<usize, Refusal>
    ensures { (s t : Term) → IsRun sides.entry.left.now s → IsRun sides.entry.right.now t → size s ≤ 31 → size t ≤ 31 → Gives (fitting (length out.old) (same_text (same_words s t))) out.old result out.new }
{
    let same = same_words(sides.left, sides.right);
    answered(&Same { same }, out)
}
