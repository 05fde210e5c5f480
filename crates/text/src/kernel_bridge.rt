// Terms and laws in the proof text, whose letters are x0, x1, and so on. The functions take the equation's letters as `names` beside the writer: one
// struct of both would lend the writer anew at each of its uses.
ghost use Rattle.std.specs.Prelude.{◌≡◌, List, ◌∷◌, [], ℕ, ◌≤◌, length, drop};
ghost use Rattle.std.proofs.Math.Option.{Option};
ghost use Rattle.terms.specs.Term.{Term, size};
ghost use Rattle.terms.specs.Held.{Holds};
ghost use Rattle.search.specs.Law.{semiring};
ghost use Rattle.search.specs.Match.{Bindings};
ghost use Rattle.search.specs.Span.{Meant, Means};
ghost use Rattle.search.specs.Coded.{name_of};
ghost use Rattle.text.specs.StepText.{law_name};
ghost use Rattle.text.specs.Proof.{index_of, variable, ref, call, term, bound, applied};
ghost use Rattle.text.specs.Rendered.{atom, operator};
ghost use Rattle.text.specs.Applied.{argument, applications, arguments, Copies};
ghost use Rattle.text.specs.Writer.{Writes};

use crate::step;
use crate::writer::Writer;
use search::search::{Binding, LARGEST, Law, Pair, Span, Spans, append, bind_sides};
use terms::term;
use terms::term::{ADD, ZERO};

// The whole proof.
pub mod lambdas;

// The lines of a path.
pub mod path;

// The place of a letter among the equation's letters: how many they are, if it is none of them, which no letter of an accepted job is. No Option,
// since the definition of the proof text has that number for none.
fn index_of(names: &[u32], n: u32) -> usize
    ensures { result ≡ index_of n names.now }
{
    names
        .iter()
        .position(|name| n == *name)
        .unwrap_or(names.len())
}

// A letter by its place among the equation's letters.
pub fn put_variable(w: &mut Writer<'_>, i: usize)
    ensures { Writes (variable i) w.old w.new }
{
    w.put_byte(b'x');
    w.put_number(i);
}

// A letter, as a name of the proof text.
fn put_reference(w: &mut Writer<'_>, n: u32, names: &[u32])
    ensures { Writes (ref (variable (index_of n names.now))) w.old w.new }
{
    w.put_bytes(b"(ref ");
    put_variable(w, index_of(names, n));
    w.put_byte(b')');
}

// A letter, 0 or 1.
fn put_atom(w: &mut Writer<'_>, n: u32, names: &[u32])
    ensures { Writes (atom names.now n) w.old w.new }
{
    if n < ZERO {
        put_reference(w, n, names);
    } else if n == ZERO {
        w.put_bytes(b"(ref zeroA)");
    } else {
        w.put_bytes(b"(ref oneA)");
    }
}

// A sum or product up to its left part.
#[tactic(auto, using(crate::proofs::Writing::put_as, crate::proofs::Rendered::operator_add, crate::proofs::Rendered::operator_mul), unfolding(crate::specs::Bytes::ascii))]
fn put_operator(w: &mut Writer<'_>, n: u32)
    ensures { Writes (operator n) w.old w.new }
{
    if n == ADD {
        w.put_bytes(b"(app (app (ref add) ");
    } else {
        w.put_bytes(b"(app (app (ref mul) ");
    }
}

// What a run has from a position on: nothing past its end.
fn tail(s: &[u32], at: usize) -> &[u32]
    ensures { result.now ≡ drop at s.now }
{
    &s[at.min(s.len())..]
}

// The term at the front of a run. It calls itself for the parts of a sum or product.
pub fn render_term(w: &mut Writer<'_>, s: &[u32], names: &[u32])
    ensures { (t : Term) → Holds s.now 0 t → Writes (term names.now t) w.old w.new }
{
    let Some(&n) = s.first() else {
        return;
    };
    if n < ADD {
        put_atom(w, n, names);
        return;
    }
    let right = term::end_of(s, 1);
    put_operator(w, n);
    render_term(w, tail(s, 1), names);
    w.put_bytes(b") ");
    render_term(w, tail(s, right), names);
    w.put_byte(b')');
}

// What stands before a law's name: an application for each letter that stands for a term.
fn put_applications(w: &mut Writer<'_>, z: Spans)
    ensures { (xs : List ℕ) (σ : Bindings) → Means xs z σ → Writes (applications σ) w.old w.new }
{
    for v in [z.c, z.b, z.a] {
        if v.len != 0 {
            w.put_bytes(b"(app ");
        }
    }
}

// What stands behind a law's name for a letter of the law, which stands for a part of a run.
fn put_argument(w: &mut Writer<'_>, run: &[u32], v: Span, names: &[u32])
    ensures { (p : Option Term) → Meant run.now v p → Writes (argument names.now p) w.old w.new }
{
    if v.len != 0 {
        w.put_byte(b' ');
        render_term(w, tail(run, v.at), names);
        w.put_byte(b')');
    }
}

// What stands behind the law's name for all its letters.
fn put_arguments(w: &mut Writer<'_>, run: &[u32], z: Spans, names: &[u32])
    ensures { (σ : Bindings) → Means run.now z σ → Writes (arguments names.now σ) w.old w.new }
{
    for v in [z.a, z.b, z.c] {
        put_argument(w, run, v, names);
    }
}

// A law applied to the terms that its letters stand for, which are parts of a run.
fn put_call(w: &mut Writer<'_>, law: Law, run: &[u32], z: Spans, names: &[u32])
    ensures { (σ : Bindings) → Means run.now z σ → Writes (call (law_name (name_of law)) (bound names.now (0 ∷ 1 ∷ 2 ∷ []) σ)) w.old w.new }
{
    put_applications(w, z);
    w.put_bytes(b"(ref ");
    w.put_bytes(step::law_name(law));
    w.put_byte(b')');
    put_arguments(w, run, z, names);
}

// Copies the term at the front of a run behind the first `n` numbers of a buffer, and gives where the copy ends: nothing is copied where there is no
// room, and it ends at `n`. No Option: the caller goes on from that place in any case.
fn copy_term(out: &mut [u32], n: usize, s: &[u32]) -> usize
    requires { n ≤ length out.old }
    ensures { Copies s.now 0 out.old n result out.new }
{
    let end = term::end_of(s, 0);
    if out.len() - n < end {
        return n;
    }
    append(out, n, &s[..end])
}

// A law applied to the terms by which its sides are the terms at the front of `s` and of `t`, both of at most 31 nodes.
pub fn render_axiom_application(w: &mut Writer<'_>, law: Law, s: &[u32], t: &[u32], names: &[u32])
    ensures { (u v : Term) → Holds s.now 0 u → Holds t.now 0 v → size u ≤ 31 → size v ≤ 31 → Writes (applied names.now semiring (name_of law) u v) w.old w.new }
{
    let mut both = [0u32; 2 * LARGEST];
    let middle = copy_term(&mut both, 0, s);
    copy_term(&mut both, middle, t);
    let pair = Pair {
        both: &both,
        middle,
    };
    if let Binding::Bound(z) = bind_sides(law, pair) {
        put_call(w, law, &both, z, names);
    }
}
