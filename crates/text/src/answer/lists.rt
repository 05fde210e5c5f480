// WORDS: the words of both sides, the smaller list first, whether they are the same, and where they part.
ghost use Rattle.std.specs.Prelude.{◌≡◌, List, ◌≤◌, length};
ghost use Rattle.terms.specs.Term.{Term, size};
ghost use Rattle.terms.specs.Held.{IsRun};
ghost use Rattle.words.specs.Words.{Word, words};
ghost use Rattle.words.specs.Spelled.{spelled};
ghost use Rattle.words.specs.WordLists.{ComparesLists};
ghost use Rattle.text.specs.Answer.{fitting};
ghost use Rattle.text.specs.Words.{words_text, lists_text};
ghost use Rattle.text.specs.Entry.{Gives};
ghost use Rattle.text.specs.Writer.{Writes};

use super::{Sides, answered};
use crate::put::{Text, WordsOf};
use crate::refusal::Refusal;
use crate::writer::Writer;
use terms::candidate::arranged;
use words::normal_form::{Parting, ROOM, compare_lists, words_of};

// Two lists of words in this order, and whether they are the same.
fn put_lists(w: &mut Writer<'_>, same: bool, a: &[u32], b: &[u32])
    ensures { (us vs : List Word) → a.now ≡ spelled us → b.now ≡ spelled vs → Writes (lists_text same us vs) w.old w.new }
{
    w.line(b"same=", &same);
    w.line(b"left=", &WordsOf(a));
    w.line(b"right=", &WordsOf(b));
}

// The answer, from the spelled lists of both sides and how they compare.
#[derive(Clone, Copy)]
struct Lists<'a> {
    sides: Sides<'a>,
    parting: Parting,
}

impl<'a> Text for Lists<'a> {
    ghost shows = { λ l t. ComparesLists l.sides.left.now l.sides.right.now l.parting × ((us : List Word) × (vs : List Word) × (l.sides.left.now ≡ spelled us) × (l.sides.right.now ≡ spelled vs) × (t ≡ words_text us vs)) };

    fn put(&self, w: &mut Writer<'_>) {
        let Sides { left, right } = self.sides;
        let Parting { order, place } = self.parting;
        let same = order.is_eq();
        let (first, second) = arranged(order, left, right);
        put_lists(w, same, first, second);
        if !same {
            w.line(b"differ=", &place);
        }
    }
}

// The answer to an equation of two terms of at most 31 nodes.
pub fn answer_words(sides: Sides<'_>, out: &mut [u8]) -> Result<usize, Refusal>
    ensures { (s t : Term) → IsRun sides.entry.left.now s → IsRun sides.entry.right.now t → size s ≤ 31 → size t ≤ 31 → Gives (fitting (length out.old) (words_text (words s) (words t))) out.old result out.new }
{
    let mut a = [0u32; ROOM];
    let mut b = [0u32; ROOM];
    let m = words_of(sides.left, &mut a);
    let n = words_of(sides.right, &mut b);
    let sides = Sides {
        left: &a[..m],
        right: &b[..n],
    };
    let parting = compare_lists(sides.left, sides.right);
    answered(&Lists { sides, parting }, out)
}
