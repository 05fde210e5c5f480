// The whole proof in the proof text: a path inside the binders of the equation's letters.
ghost use Rattle.std.specs.Prelude.{◌≡◌, List, ◌++◌};
ghost use Rattle.terms.specs.Term.{Term};
ghost use Rattle.terms.specs.Letters.{letters, rising};
ghost use Rattle.search.specs.Law.{semiring};
ghost use Rattle.search.specs.Line.{Line};
ghost use Rattle.text.specs.Proof.{proof};
ghost use Rattle.text.specs.Walk.{Walk};
ghost use Rattle.text.specs.Framed.{opens, closes};
ghost use Rattle.text.specs.Writer.{Writes};

use super::path::render_path;
use super::put_variable;
use crate::put::Text;
use crate::step::Lines;
use crate::writer::Writer;

// The binders of n variables, x0 first.
fn open_lambdas(w: &mut Writer<'_>, n: usize)
    ensures { Writes (opens n) w.old w.new }
{
    for i in 0..n {
        w.put_bytes(b"(lam ");
        put_variable(w, i);
        w.put_byte(b' ');
    }
}

// The ends of n binders.
fn close_lambdas(w: &mut Writer<'_>, n: usize)
    ensures { Writes (closes n) w.old w.new }
{
    for _ in 0..n {
        w.put_byte(b')');
    }
}

// The proof of an equation whose letters are `names`, from a path between its sides: the Rust's `render_path`.
#[derive(Clone, Copy)]
pub struct Proof<'a> {
    pub lines: Lines<'a>,
    pub names: &'a [u32],
}

impl<'a> Text for Proof<'a> {
    ghost shows = { λ p text. (s : Term) × (t : Term) × (xs : List Line) × Walk p.lines.ws.now p.lines.path.now s xs × (p.names.now ≡ rising (letters s ++ letters t)) × (text ≡ proof semiring s t xs) };

    fn put(&self, w: &mut Writer<'_>) {
        let count = self.names.len();
        open_lambdas(w, count);
        render_path(w, self.lines, self.names);
        close_lambdas(w, count);
    }
}
