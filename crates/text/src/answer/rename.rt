// RENAME: the equation and its lists of words, each with the v letters renamed so that it is the least.
ghost use Rattle.std.specs.Prelude.{◌≡◌, List, ◌++◌, ◌≤◌, length};
ghost use Rattle.terms.specs.Term.{Term, size};
ghost use Rattle.terms.specs.Letters.{letters, rising, variables};
ghost use Rattle.terms.specs.Equation.{Equation};
ghost use Rattle.terms.specs.Held.{IsRun};
ghost use Rattle.words.specs.Words.{Word, words};
ghost use Rattle.words.specs.Rename.{canonical_terms};
ghost use Rattle.words.specs.Making.{made};
ghost use Rattle.text.specs.Answer.{fitting};
ghost use Rattle.text.specs.Rename.{term_lines, renamed_words};
ghost use Rattle.text.specs.Renamed as renamed;
ghost use Rattle.text.specs.Entry.{Gives};

use super::{Sides, answered};
use crate::put::{TermOf, Text, WordsOf};
use crate::refusal::Refusal;
use crate::writer::Writer;
use search::search::LARGEST;
use words::candidate;
use words::candidate::canonical_terms;
use words::candidate::words::canonical_words;
use words::normal_form::ROOM;
use words::same::same_words;

// The answer, from the renamed equation and the renamed lists of words, which there are where the sides' words differ.
#[derive(Clone, Copy)]
struct Renamed<'a> {
    sides: Sides<'a>,
    lists: Option<Sides<'a>>,
}

impl<'a> Text for Renamed<'a> {
    ghost shows = { λ r t. (e : Equation Term) × (us : List Word) × (vs : List Word) × IsRun r.sides.left.now e.left × IsRun r.sides.right.now e.right × renamed.Renamed us vs r.lists × (t ≡ term_lines e ++ renamed_words us vs) };

    fn put(&self, w: &mut Writer<'_>) {
        w.line(b"left=", &TermOf(self.sides.left));
        w.line(b"right=", &TermOf(self.sides.right));
        match self.lists {
            Some(lists) => {
                w.line(b"wleft=", &WordsOf(lists.left));
                w.line(b"wright=", &WordsOf(lists.right));
            }
            None => {
                w.line(b"wleft=", b"-");
                w.line(b"wright=", b"-");
            }
        }
    }
}

// The lists of words renamed, where they differ.
fn renamed_lists<'a>(
    sides: Sides<'_>,
    lists: &'a mut candidate::Equation<'_, '_>,
) -> Option<Sides<'a>>
    ensures { (s t : Term) → IsRun sides.entry.left.now s → IsRun sides.entry.right.now t → size s ≤ 31 → size t ≤ 31 → length (rising (variables (letters s ++ letters t))) ≤ 6 → 5508 ≤ (made lists.old).room → renamed.Renamed (words s) (words t) result }
{
    if same_words(sides.left, sides.right) {
        return None;
    }
    canonical_words(sides.left, sides.right, lists);
    Some(Sides {
        left: lists.left(),
        right: lists.right(),
    })
}

// The answer to an equation of two terms of at most 31 nodes with at most six v letters.
pub fn answer_rename(sides: Sides<'_>, out: &mut [u8]) -> Result<usize, Refusal>
    ensures { (s t : Term) → IsRun sides.entry.left.now s → IsRun sides.entry.right.now t → size s ≤ 31 → size t ≤ 31 → length (rising (variables (letters s ++ letters t))) ≤ 6 → Gives (fitting (length out.old) (term_lines (canonical_terms s t) ++ renamed_words (words s) (words t))) out.old result out.new }
{
    let (mut a, mut b) = ([0u32; LARGEST], [0u32; LARGEST]);
    let mut terms = candidate::Equation::new(&mut a, &mut b);
    canonical_terms(sides.left, sides.right, &mut terms);
    let (mut u, mut v) = ([0u32; ROOM], [0u32; ROOM]);
    let mut lists = candidate::Equation::new(&mut u, &mut v);
    let renamed = Renamed {
        sides: Sides {
            left: terms.left(),
            right: terms.right(),
        },
        lists: renamed_lists(sides, &mut lists),
    };
    answered(&renamed, out)
}
