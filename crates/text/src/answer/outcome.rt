// The text of an outcome of the search, line by line.
ghost use Rattle.std.specs.Prelude.{◌≡◌, ◌≤◌, List, ◌++◌, ℕ};
ghost use Rattle.terms.specs.Term.{Term, size};
ghost use Rattle.terms.specs.Held.{IsRun};
ghost use Rattle.terms.specs.Letters.{letters, rising};
ghost use Rattle.search.specs.Line.{Line};
ghost use Rattle.text.specs.Answer.{refused, printed};
ghost use Rattle.text.specs.Printing.{path_text, none_text, figures};
ghost use Rattle.text.specs.Prints.{PrintsReturned};
ghost use Rattle.text.specs.Walk.{Walk};
ghost use Rattle.text.specs.Writer.{Writes};

use super::Sides;
use crate::kernel_bridge::lambdas::Proof;
use crate::put::{TermOf, Text, put_in_front};
use crate::refusal::ANSWERED;
use crate::step::{Lines, Uses, put_steps};
use crate::writer::Writer;
use terms::term;

// The most letters of an accepted job, v and c together: two sides of 31 nodes have no more.
const MOST_LETTERS: usize = 32;

// A path that was found between two sides: its lines, and how many terms were opened till then. Where none was found there are no lines, and
// sides and count go by themselves.
#[derive(Clone, Copy)]
pub struct Found<'a> {
    pub sides: Sides<'a>,
    pub expanded: usize,
    pub lines: Lines<'a>,
}

// The text where no path is found.
pub fn put_none(w: &mut Writer<'_>, sides: Sides<'_>, expanded: usize, cut: bool)
    ensures { (s t : Term) → IsRun sides.entry.left.now s → IsRun sides.entry.right.now t → Writes (none_text s t expanded cut) w.old w.new }
{
    w.line(b"answer=", b"none");
    w.line(b"left=", &TermOf(sides.left));
    w.line(b"right=", &TermOf(sides.right));
    w.line(b"expanded=", &expanded);
    w.line(b"cut=", &cut);
}

// A refusal by its number, as a block says it and a program prints it. No `Refusal`, since a program knows no more of it than the number that an
// entry returned.
#[derive(Clone, Copy)]
pub struct Refused(pub usize);

impl Text for Refused {
    ghost shows = { λ r t. t ≡ printed (refused r.0) };

    fn put(&self, w: &mut Writer<'_>) {
        let number = self.0;
        w.line(b"answer=", b"refused");
        w.line(b"number=", &number);
    }
}

// What a program prints, at the front of the output, by the number that an entry returned: the answer, which the entry left there, or two
// lines with the refusal's number. It gives the length.
pub fn printed(number: usize, output: &mut [u8]) -> usize
    ensures { PrintsReturned number output.old result output.new }
{
    if ANSWERED <= number {
        number - ANSWERED
    } else {
        put_in_front(&Refused(number), output)
    }
}

// How many lines a path has, what stands after that, how many terms were opened, and the laws used.
fn put_figures<T: Text>(w: &mut Writer<'_>, found: Found<'_>, more: &T)
    ensures { (s : Term) (xs : List Line) (m : List ℕ) → Walk found.entry.lines.ws.now found.entry.lines.path.now s xs → T.shows more.now m → Writes (figures m found.entry.expanded xs) w.old w.new }
{
    let steps = found.lines.path.len();
    w.line(b"steps=", &steps);
    more.put(w);
    w.line(b"expanded=", &found.expanded);
    w.line(b"uses=", &Uses(found.lines));
}

// The lines where a path is found.
fn put_lines<T: Text>(w: &mut Writer<'_>, verdict: &[u8], found: Found<'_>, more: &T, names: &[u32])
    ensures { (s t : Term) (xs : List Line) (m : List ℕ) → IsRun found.entry.sides.left.now s → IsRun found.entry.sides.right.now t → Walk found.entry.lines.ws.now found.entry.lines.path.now s xs → T.shows more.now m → names.now ≡ rising (letters s ++ letters t) → Writes (path_text verdict.now s t m xs found.entry.expanded) w.old w.new }
{
    let lines = found.lines;
    w.line(b"answer=", &verdict);
    w.line(b"left=", &TermOf(found.sides.left));
    w.line(b"right=", &TermOf(found.sides.right));
    put_figures(w, found, more);
    put_steps(w, lines);
    w.line(b"proof=", &Proof { lines, names });
}

// The text where a path is found: what stands behind `answer=`, and which lines after `steps=`, is the caller's. The proof text names all letters, v
// and c.
pub fn put_proved<T: Text>(w: &mut Writer<'_>, verdict: &[u8], found: Found<'_>, more: &T)
    ensures { (s t : Term) (xs : List Line) (m : List ℕ) → IsRun found.entry.sides.left.now s → IsRun found.entry.sides.right.now t → size s ≤ 31 → size t ≤ 31 → Walk found.entry.lines.ws.now found.entry.lines.path.now s xs → T.shows more.now m → Writes (path_text verdict.now s t m xs found.entry.expanded) w.old w.new }
{
    let mut names = [0u32; MOST_LETTERS];
    if let Some(n) = term::letters(found.sides.left, found.sides.right, &mut names) {
        put_lines(w, verdict, found, more, &names[..n]);
    }
}
