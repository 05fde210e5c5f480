// A block of FIND's answer: what one search for all right sides says of one of them, as text.
// Tests that no accepted job meets stand in place of requirements: runs longer than 31, a noted right side without a parent, and a search that stopped since all are noted, for a right side that is not.
ghost use mathlib.Core.List.{List, [], ◌∷◌, flat_map};
ghost use Rattle.std.specs.Prelude.{◌≡◌, ℕ, ◌≤◌, length};
ghost use Rattle.terms.specs.Term.{Term};
ghost use Rattle.search.specs.Law.{semiring};
ghost use Rattle.search.specs.Line as line;
ghost use Rattle.search.specs.Line.{Line};
ghost use Rattle.search.specs.Search.{proved, whole_line};
ghost use Rattle.search.specs.Coded.{name_of};
ghost use Rattle.text.specs.FindJob.{jobs_of};
ghost use Rattle.text.specs.Job.{Job};
ghost use Rattle.text.specs.Find.{outcome_text, block};
ghost use Rattle.text.specs.Answering as answering;
ghost use Rattle.text.specs.Answering.{Led, Met, Unmet, Known, AllKnown};
ghost use Rattle.text.specs.Writer.{Writes};

use super::Sides;
use super::outcome::{Found, Refused, put_none, put_proved};
use crate::put::Text;
use crate::refusal::Refusal;
use crate::step::Lines;
use crate::writer::Writer;
use search::bounded_search::{Ended, Stop};
use search::path::path_of;
use search::replies::Reply;
use search::search::{Direction, Law};
use search::slots;
use search::slots::{Origin, Runs, SLOT, SlotRun, Step};

// The most lines of a path of an accepted job.
const MOST_LINES: usize = 16;

// What one search left: how it ended, whether it was cut, and the noted terms.
#[derive(Clone, Copy)]
pub struct Searched<'a> {
    pub ended: Ended,
    pub cut: bool,
    pub ws: &'a [u32],
}

// A path was found that leads to the term in slot `last`.
fn put_path(w: &mut Writer<'_>, sides: Sides<'_>, expanded: usize, last: u32, ws: &[u32])
    ensures { (j : Job) (xs : List Line) (n : ℕ) → answering.Sides sides.entry.left.now sides.entry.right.now j → Led ws.now j.left last xs → length xs ≤ 16 → Writes (outcome_text semiring j (proved xs expanded n)) w.old w.new }
{
    let mut path = [0u32; MOST_LINES];
    if let Some(n) = path_of(ws, last, &mut path) {
        let lines = Lines {
            ws,
            path: &path[..n],
        };
        let found = Found {
            sides,
            expanded,
            lines,
        };
        put_proved(w, b"proved", found, b"");
    }
}

// A law matches the whole equation: its line is noted in two slots of their own, and then printed as any other path is.
fn put_direct(w: &mut Writer<'_>, sides: Sides<'_>, law: Law)
    ensures { (j : Job) → answering.Sides sides.entry.left.now sides.entry.right.now j → Writes (outcome_text semiring j (proved (whole_line (name_of law) j.right ∷ []) 0 0)) w.old w.new }
{
    let Some(left) = SlotRun::of(sides.left) else {
        return;
    };
    let Some(right) = SlotRun::of(sides.right) else {
        return;
    };
    let mut ws = [0u32; 2 * SLOT];
    slots::note_start(&mut ws, left);
    let step = Step {
        law,
        direction: Direction::Forward,
        place: 0,
        parent: 0,
    };
    slots::note(&mut ws, 1, right, step, 1);
    put_path(w, sides, 0, 1, &ws);
}

// Right is noted in slot `k`: by then its parent and all terms noted before the parent were opened.
fn put_met(w: &mut Writer<'_>, sides: Sides<'_>, k: u32, ws: &[u32])
    ensures { (j : Job) (slots : ℕ) → answering.Sides sides.entry.left.now sides.entry.right.now j → Met ws.now k slots j → Writes (block slots j) w.old w.new }
{
    if let Origin::From(step) = slots::origin_of(ws, k) {
        let expanded = step.parent as usize + 1;
        put_path(w, sides, expanded, k, ws);
    }
}

// Right is not noted: no path was found, or a term had no slot left.
fn put_unmet(w: &mut Writer<'_>, sides: Sides<'_>, ended: Ended, cut: bool)
    ensures { (j : Job) (slots : ℕ) → answering.Sides sides.entry.left.now sides.entry.right.now j → Unmet ended cut slots j → Writes (block slots j) w.old w.new }
{
    match ended.stop {
        Stop::Over => put_none(w, sides, ended.opened, cut),
        Stop::All | Stop::Full => Refused(usize::from(Refusal::OutOfSlots)).put(w),
    }
}

// The block of a right side, by what became of it in the search.
fn put_block(w: &mut Writer<'_>, sides: Sides<'_>, reply: Reply, searched: Searched<'_>)
    ensures { (j : Job) (slots : ℕ) → Known sides.entry.left.now sides.entry.right.now reply searched.entry.ended searched.entry.cut searched.entry.ws.now slots j → Writes (block slots j) w.old w.new }
{
    match reply {
        Reply::Direct(law) => put_direct(w, sides, law),
        Reply::Noted(k) => put_met(w, sides, k, searched.ws),
        Reply::Unnoted => put_unmet(w, sides, searched.ended, searched.cut),
    }
}

// The blocks of all right sides, in the job's order: each with what became of it.
#[derive(Clone, Copy)]
pub struct Blocks<'a> {
    pub left: &'a [u32],
    pub rights: Runs<'a>,
    pub replies: &'a [Reply],
    pub searched: Searched<'a>,
    ghost few: { length replies.now ≤ 16 },
}

impl<'a> Text for Blocks<'a> {
    ghost shows = { λ b t. (s : Term) × (ts : List Term) × (m : line.Limits) × (slots : ℕ) × AllKnown b.left.now b.rights.slots.now b.replies.now b.searched.ended b.searched.cut b.searched.ws.now slots s ts m × (t ≡ flat_map (block slots) (jobs_of s ts m)) };

    fn put(&self, w: &mut Writer<'_>) {
        for (r, reply) in self.replies.iter().enumerate() {
            let sides = Sides {
                left: self.left,
                right: self.rights.run(r as u32),
            };
            put_block(w, sides, *reply, self.searched);
        }
    }
}
