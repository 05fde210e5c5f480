// The lines of a path in the proof text, joined.
ghost use Rattle.std.specs.Prelude.{List, ℕ, ◌-◌, ◌≤◌, ◌<◌, length, take};
ghost use Rattle.terms.specs.Term.{Term, size};
ghost use Rattle.terms.specs.Held.{Holds};
ghost use Rattle.search.specs.Law.{semiring};
ghost use Rattle.search.specs.Line.{Line, back};
ghost use Rattle.search.specs.Search.{Noted};
ghost use Rattle.search.specs.Place.{place_at};
ghost use Rattle.search.specs.Coded.{name_of, direction_of, side_of};
ghost use Rattle.search.specs.Runs.{Spells};
ghost use Rattle.search.specs.Slots.{noted_at, Slots};
ghost use Rattle.search.specs.Traced.{Linked};
ghost use Rattle.text.specs.Proof.{part, context, at_place, one_line, chain};
ghost use Rattle.text.specs.Walk.{Walk};
ghost use Rattle.text.specs.Framed.{frame, ends};
ghost use Rattle.text.specs.Writer.{Writes};

use super::{put_operator, render_axiom_application, render_term, tail};
use crate::step::Lines;
use crate::writer::Writer;
use search::chain::Side;
use search::search::{Direction, Law};
use search::slots::Origin;
use search::{chain, path, slots};
use terms::term::ADD;

// Where in a run the part on one side of the term at its front begins: an atom is its own part.
#[tactic(auto, using(crate::proofs::Framing::part_found, crate::proofs::Framing::part_missing))]
fn part_of(s: &[u32], side: Side) -> &[u32]
    ensures { (t : Term) → Holds s.now 0 t → Holds result.now 0 (part (side_of side) t) }
{
    match chain::part(s, 0, side) {
        Some(at) => tail(s, at),
        None => s,
    }
}

// A sum or product with a hole for the part on one side: nothing of an atom.
fn render_context(w: &mut Writer<'_>, s: &[u32], side: Side, names: &[u32])
    ensures { (t : Term) → Holds s.now 0 t → Writes (context names.now (side_of side) t) w.old w.new }
{
    let Some(&n) = s.first() else {
        return;
    };
    if n < ADD {
        return;
    }
    put_operator(w, n);
    match side {
        Side::Left => {
            w.put_bytes(b"(ref hole)) ");
            render_term(w, part_of(s, Side::Right), names);
            w.put_byte(b')');
        }
        Side::Right => {
            render_term(w, part_of(s, Side::Left), names);
            w.put_bytes(b") (ref hole))");
        }
    }
}

// A law from t to s, turned round.
fn render_symmetry(w: &mut Writer<'_>, law: Law, s: &[u32], t: &[u32], names: &[u32])
    ensures { (u v : Term) → Holds s.now 0 u → Holds t.now 0 v → size u ≤ 31 → size v ≤ 31 → Writes (at_place names.now semiring back (name_of law) u v) w.old w.new }
{
    w.put_bytes(b"(app (app (app (ref eq_symm) ");
    render_term(w, t, names);
    w.put_bytes(b") ");
    render_term(w, s, names);
    w.put_bytes(b") ");
    render_axiom_application(w, law, t, s, names);
    w.put_byte(b')');
}

// The law of a line at its place.
fn render_law(
    w: &mut Writer<'_>,
    law: Law,
    direction: Direction,
    s: &[u32],
    t: &[u32],
    names: &[u32],
)
    ensures { (u v : Term) → Holds s.now 0 u → Holds t.now 0 v → size u ≤ 31 → size v ≤ 31 → Writes (at_place names.now semiring (direction_of direction) (name_of law) u v) w.old w.new }
{
    match direction {
        Direction::Forward => render_axiom_application(w, law, s, t, names),
        Direction::Back => render_symmetry(w, law, s, t, names),
    }
}

// What stands before the proof of a part in the proof of the whole: the context, and the part of s and of t. The Rust's puts that proof and
// the end too.
fn render_congruence(w: &mut Writer<'_>, side: Side, s: &[u32], t: &[u32], names: &[u32])
    ensures { (u v : Term) → Holds s.now 0 u → Holds t.now 0 v → Writes (frame names.now (side_of side) u v) w.old w.new }
{
    w.put_bytes(b"(app (app (app (app (ref eq_ap) (lam hole ");
    render_context(w, s, side, names);
    w.put_bytes(b")) ");
    render_term(w, part_of(s, side), names);
    w.put_bytes(b") ");
    render_term(w, part_of(t, side), names);
    w.put_bytes(b") ");
}

// One line, from s to t, with its law at `place` of s. It calls itself for the part that has the place: its calls nest once for
// each sum or product around the place. No struct of a law, its direction and both terms: it would be made anew for each part.
fn render_step(
    w: &mut Writer<'_>,
    law: Law,
    direction: Direction,
    s: &[u32],
    place: usize,
    t: &[u32],
    names: &[u32],
)
    ensures { (u v : Term) → Holds s.now 0 u → Holds t.now 0 v → place < size u → size u ≤ 31 → size v ≤ 31 → Writes (one_line names.now semiring (place_at u place) (direction_of direction) (name_of law) u v) w.old w.new }
{
    let Some((side, part)) = path::side_at(s, 0, place) else {
        render_law(w, law, direction, s, t, names);
        return;
    };
    render_congruence(w, side, s, t, names);
    render_step(
        w,
        law,
        direction,
        tail(s, part),
        place - part,
        part_of(t, side),
        names,
    );
    w.put_byte(b')');
}

// The line that leads to the term in slot k: nothing for the start.
fn render_slot(w: &mut Writer<'_>, ws: &[u32], k: u32, names: &[u32])
    ensures { (ns : List Noted) (j : ℕ) (x : Line) → Slots ws.now ns → Linked ws.now ns j k x → Writes (one_line names.now semiring x.place x.direction x.law (noted_at ns j).term x.result) w.old w.new }
{
    if let Origin::From(step) = slots::origin_of(ws, k) {
        render_step(
            w,
            step.law,
            step.direction,
            slots::run_of(ws, step.parent),
            step.place as usize,
            slots::run_of(ws, k),
            names,
        );
    }
}

// What stands before the two proofs that are joined: the terms in slot 0, in slot m and in slot k. The Rust's puts the proofs and the end too.
fn render_transitivity(w: &mut Writer<'_>, ws: &[u32], m: u32, k: u32, names: &[u32])
    ensures { (s u v : Term) → Spells ws.now 0 s → Spells ws.now m u → Spells ws.now k v → Writes (ends names.now s u v) w.old w.new }
{
    w.put_bytes(b"(app (app (app (app (app (ref eq_trans) ");
    render_term(w, slots::run_of(ws, 0), names);
    w.put_bytes(b") ");
    render_term(w, slots::run_of(ws, m), names);
    w.put_bytes(b") ");
    render_term(w, slots::run_of(ws, k), names);
    w.put_bytes(b") ");
}

// The lines of a path, joined: nothing for none. It calls itself for all but the last: its calls nest once for each line. The Rust's puts the
// binders around them too: ours is `Proof`.
pub fn render_path(w: &mut Writer<'_>, lines: Lines<'_>, names: &[u32])
    ensures { (s : Term) (xs : List Line) → Walk lines.entry.ws.now lines.entry.path.now s xs → Writes (chain names.now semiring s xs) w.old w.new }
{
    let ws = lines.ws;
    let Some((last, before)) = lines.path.split_last() else {
        return;
    };
    let Some(middle) = before.last() else {
        render_slot(w, ws, *last, names);
        return;
    };
    render_transitivity(w, ws, *middle, *last, names);
    render_path(w, Lines { ws, path: before }, names);
    w.put_bytes(b") ");
    render_slot(w, ws, *last, names);
    w.put_byte(b')');
}
