// The lines of a path as text: law, direction, place and result of each, and the laws that the path uses.
ghost use Rattle.std.specs.Prelude.{◌≡◌, ℕ, ◌-◌, ◌<◌, eqb};
ghost use mathlib.Core.List.{List, [], ◌∷◌, flat_map};
ghost use Rattle.terms.specs.Term.{Term, size};
ghost use Rattle.terms.specs.Held.{IsRun, Holds};
ghost use Rattle.search.specs.Law.{rank, semiring};
ghost use Rattle.search.specs.Line.{Line};
ghost use Rattle.search.specs.Search.{Noted};
ghost use Rattle.search.specs.Coded.{name_of, direction_of, side_of};
ghost use Rattle.search.specs.Place.{place_at};
ghost use Rattle.search.specs.Slots.{Marks, Slots};
ghost use Rattle.search.specs.Traced.{Linked};
ghost use Rattle.text.specs.Bytes.{parted};
ghost use Rattle.text.specs.StepText as text;
ghost use Rattle.text.specs.StepText.{law_name, sides, step_value};
ghost use Rattle.text.specs.Find.{used, uses};
ghost use Rattle.text.specs.Find as find;
ghost use Rattle.text.specs.Walk.{Walk};
ghost use Rattle.text.specs.Writer.{Writes};

use crate::put::{Text, put_term};
use crate::writer::Writer;
use search::chain::Side;
use search::search::{Direction, LAWS, Law};
use search::slots::{Origin, Step};
use search::{path, slots};

// The lines of a path: the slots of a workspace to which they lead.
#[derive(Clone, Copy)]
pub struct Lines<'a> {
    pub ws: &'a [u32],
    pub path: &'a [u32],
}

// A law's name.
#[tactic(auto, unfolding(crate::specs::StepText::law_name, crate::specs::Bytes::ascii))]
pub fn law_name(law: Law) -> &'static [u8]
    ensures { result.now ≡ law_name (name_of law) }
{
    match law {
        Law::AddAssoc => b"add_assoc",
        Law::AddComm => b"add_comm",
        Law::AddZeroRight => b"add_zero_right",
        Law::MulAssoc => b"mul_assoc",
        Law::MulOneLeft => b"mul_one_left",
        Law::MulOneRight => b"mul_one_right",
        Law::LeftDistrib => b"left_distrib",
        Law::RightDistrib => b"right_distrib",
        Law::ZeroMul => b"zero_mul",
        Law::MulZero => b"mul_zero",
    }
}

// Whether a law is read forward or back.
#[tactic(auto, unfolding(crate::specs::StepText::direction, crate::specs::Bytes::ascii))]
pub fn direction_name(direction: Direction) -> &'static [u8]
    ensures { result.now ≡ text.direction (direction_of direction) }
{
    match direction {
        Direction::Forward => b"forward",
        Direction::Back => b"back",
    }
}

// The byte of a side.
#[tactic(auto, unfolding(crate::specs::StepText::sides, crate::specs::Bytes::ascii))]
fn letter_of(side: Side) -> u8
    ensures { result ∷ [] ≡ sides (side_of side ∷ []) }
{
    match side {
        Side::Left => b'l',
        Side::Right => b'r',
    }
}

// The sides from the term that starts at `from` to the place, outermost first. It goes by positions of the whole run, as a line's place is one.
fn put_sides(w: &mut Writer<'_>, run: &[u32], from: usize, place: usize)
    ensures { (t : Term) → Holds run.now from t → place - from < size t → Writes (sides (place_at t (place - from))) w.old w.new }
{
    if let Some((side, part)) = path::side_at(run, from, place) {
        w.put_byte(letter_of(side));
        put_sides(w, run, part, place);
    }
}

// A place of a term: the sides that lead to it, or `.` for the root.
fn put_place(w: &mut Writer<'_>, run: &[u32], place: usize)
    ensures { (t : Term) → IsRun run.now t → place < size t → Writes (text.place (place_at t place)) w.old w.new }
{
    if place == 0 {
        w.put_byte(b'.');
    } else {
        put_sides(w, run, 0, place);
    }
}

// A line on the source: law, direction, place and result.
#[derive(Clone, Copy)]
struct StepValue<'a> {
    step: Step,
    source: &'a [u32],
    result: &'a [u32],
}

impl<'a> Text for StepValue<'a> {
    ghost shows = { λ l t. (s : Term) × (x : Line) × IsRun l.source.now s × Marks l.step s x × IsRun l.result.now x.result × (t ≡ step_value x) };

    fn put(&self, w: &mut Writer<'_>) {
        let step = self.step;
        w.put_bytes(law_name(step.law));
        w.put_byte(b' ');
        w.put_bytes(direction_name(step.direction));
        w.put_bytes(b" at=");
        put_place(w, self.source, step.place as usize);
        w.put_bytes(b" to=");
        put_term(w, self.result);
    }
}

// The line that leads to the term in slot k.
fn put_step(w: &mut Writer<'_>, ws: &[u32], k: u32)
    ensures { (ns : List Noted) (j : ℕ) (x : Line) → Slots ws.now ns → Linked ws.now ns j k x → Writes (find.step x) w.old w.new }
{
    if let Origin::From(step) = slots::origin_of(ws, k) {
        let line = StepValue {
            step,
            source: slots::run_of(ws, step.parent),
            result: slots::run_of(ws, k),
        };
        w.line(b"step=", &line);
    }
}

// The lines of a path.
pub fn put_steps(w: &mut Writer<'_>, lines: Lines<'_>)
    ensures { (s : Term) (xs : List Line) → Walk lines.entry.ws.now lines.entry.path.now s xs → Writes (flat_map find.step xs) w.old w.new }
{
    for k in lines.path {
        put_step(w, lines.ws, *k);
    }
}

// Whether the law leads to the term in slot k.
fn leads_to(ws: &[u32], k: u32, law: Law) -> bool
    ensures { (ns : List Noted) (j : ℕ) (x : Line) → Slots ws.now ns → Linked ws.now ns j k x → result ≡ eqb (rank (name_of law)) (rank x.law) }
{
    match slots::origin_of(ws, k) {
        Origin::From(step) => law == step.law,
        Origin::Start => false,
    }
}

// Whether a line of the path is by the law.
fn uses_law(lines: Lines<'_>, law: Law) -> bool
    ensures { (s : Term) (xs : List Line) → Walk lines.entry.ws.now lines.entry.path.now s xs → result ≡ used (name_of law) xs }
{
    lines.path.iter().any(|k| leads_to(lines.ws, *k, law))
}

// The laws that a path uses, each once, in law order, parted by `,` (byte 44).
#[derive(Clone, Copy)]
pub struct Uses<'a>(pub Lines<'a>);

impl<'a> Text for Uses<'a> {
    ghost shows = { λ u t. (s : Term) × (xs : List Line) × Walk u.0.ws.now u.0.path.now s xs × (t ≡ parted 44 (uses semiring xs)) };

    // Counted by hand: filter and enumerate would be two adapters in place of one test.
    fn put(&self, w: &mut Writer<'_>) {
        let mut count = 0;
        for law in LAWS {
            if uses_law(self.0, law) {
                w.put_gap(count, b',');
                w.put_bytes(law_name(law));
                count += 1;
            }
        }
    }
}
