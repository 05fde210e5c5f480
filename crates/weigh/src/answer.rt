// WEIGH's answer to an accepted job: its text, where it fits.
ghost use Rattle.std.specs.Prelude.{◌≡◌, ℕ, ◌<◌, ◌≤◌, Bool, List, length};
ghost use Rattle.terms.specs.Term.{Term, size};
ghost use Rattle.terms.specs.Held.{IsRun};
ghost use Rattle.search.specs.Law.{semiring};
ghost use Rattle.search.specs.Line.{Line};
ghost use Rattle.search.specs.Searched.{slots_of};
ghost use Rattle.text.specs.Bytes.{number};
ghost use Rattle.text.specs.Answer.{field, accepted, fitting};
ghost use Rattle.text.specs.Walk.{Walk};
ghost use Rattle.text.specs.Entry.{Gives};
ghost use Rattle.weigh.specs.Weigh.{weight, weights_of, Weighed};
ghost use Rattle.weigh.specs.Outcome.{unproved};
ghost use Rattle.weigh.specs.Searched.{returning};
ghost use Rattle.weigh.specs.Slots.{weighed_at, WeighSlots};
ghost use Rattle.weigh.specs.Job.{WeighJob, read_weigh};
ghost use Rattle.weigh.specs.Text.{weigh_text, weigh_entry};
ghost use Rattle.weigh.specs.Answering.{Sides, Held, path_verdict, totals_text};
ghost use Rattle.weigh.specs.Answering as answering;
ghost use Rattle.weigh.specs.Read.{Takes};

use crate::job::Read;
use crate::layers::{Stop, search_weighed};
use crate::path::{MOST_LINES, copy_path};
use search::slots;
use search::slots::SLOT;
use text::answer::outcome::{Found, put_none, put_proved};
use text::answer::{Sides, answered};
use text::put::Text;
use text::refusal::Refusal;
use text::step::Lines;
use text::writer::Writer;

// The lines after that of `steps=`: what the lines of a path weigh in all, and, where it is in hand, the smallest total of a term that waits.
#[derive(Clone, Copy)]
struct Totals {
    total: usize,
    atleast: Option<usize>,
}

impl Text for Totals {
    ghost shows = { λ n t. t ≡ totals_text n.total n.atleast };

    fn put(&self, w: &mut Writer<'_>) {
        w.line(b"total=", &self.total);
        if let Some(atleast) = self.atleast {
            w.line(b"atleast=", &atleast);
        }
    }
}

// What stands behind `answer=` where a path is returned.
fn verdict(atleast: Option<usize>) -> &'static [u8]
    ensures { result.now ≡ path_verdict atleast }
{
    match atleast {
        None => b"proved",
        Some(_) => b"atmost",
    }
}

// The answer with a path.
#[derive(Clone, Copy)]
struct Returned<'a> {
    found: Found<'a>,
    totals: Totals,
}

impl<'a> Text for Returned<'a> {
    ghost shows = { λ p t. (j : WeighJob) × (xs : List Line) × (n : ℕ) × answering.Sides p.found.sides.left.now p.found.sides.right.now j × Walk p.found.lines.ws.now p.found.lines.path.now j.left xs × (p.totals.total ≡ weight (weights_of j.weights) xs) × (t ≡ weigh_text semiring j (returning p.totals.atleast xs p.found.expanded n)) };

    fn put(&self, w: &mut Writer<'_>) {
        put_proved(w, verdict(self.totals.atleast), self.found, &self.totals);
    }
}

// The answer without one.
#[derive(Clone, Copy)]
struct Unproved<'a> {
    sides: Sides<'a>,
    opened: usize,
    cut: bool,
}

impl<'a> Text for Unproved<'a> {
    ghost shows = { λ u t. (j : WeighJob) × (n : ℕ) × answering.Sides u.sides.left.now u.sides.right.now j × (t ≡ weigh_text semiring j (unproved u.opened n u.cut)) };

    fn put(&self, w: &mut Writer<'_>) {
        put_none(w, self.sides, self.opened, self.cut);
    }
}

// The numbers of the slots to which a path is copied: one for each term.
const ROOM: usize = SLOT * MOST_LINES + SLOT;

// Right came up, or is held, in slot `last` of the workspace. No accepted job has a longer path than there is room for.
fn answer_path(
    sides: Sides<'_>,
    opened: usize,
    last: u32,
    atleast: Option<usize>,
    ws: &[u32],
    out: &mut [u8],
) -> Result<usize, Refusal>
    ensures { (j : WeighJob) (es : List Weighed) (n : ℕ) → answering.Sides sides.entry.left.now sides.entry.right.now j → Held ws.now last atleast j es → Gives (fitting (length out.old) (weigh_text semiring j (returning atleast (weighed_at es last).trail opened n))) out.old result out.new }
{
    let mut path = [0u32; MOST_LINES];
    let mut copy = [0u32; ROOM];
    let Some(n) = copy_path(ws, last, &mut path, &mut copy) else {
        return Err(Refusal::OutOfSlots);
    };
    let lines = Lines {
        ws: &copy,
        path: &path[..n],
    };
    let found = Found {
        sides,
        expanded: opened,
        lines,
    };
    let totals = Totals {
        total: slots::value_of(ws, last) as usize,
        atleast,
    };
    answered(&Returned { found, totals }, out)
}

// No path was found.
fn answer_none(sides: Sides<'_>, opened: usize, cut: bool, out: &mut [u8]) -> Result<usize, Refusal>
    ensures { (j : WeighJob) (n : ℕ) → answering.Sides sides.entry.left.now sides.entry.right.now j → Gives (fitting (length out.old) (weigh_text semiring j (unproved opened n cut))) out.old result out.new }
{
    answered(&Unproved { sides, opened, cut }, out)
}

// Searches, and answers by how the search ended.
pub fn answer_weigh(read: &Read, out: &mut [u8], ws: &mut [u32]) -> Result<usize, Refusal>
    ensures { (bs : List ℕ) → Takes (read_weigh bs) read.now → Gives (weigh_entry bs (slots_of (length ws.old)) (length out.old)) out.old result out.new }
{
    let sides = Sides {
        left: read.left.numbers(),
        right: read.right.numbers(),
    };
    let ended = search_weighed(
        sides.left,
        sides.right,
        read.weights,
        read.cost,
        read.limits,
        ws,
    );
    let opened = ended.opened;
    match ended.stop {
        Stop::Right(k) => answer_path(sides, opened, k, None, ws, out),
        Stop::InHand(k, atleast) => answer_path(sides, opened, k, Some(atleast as usize), ws, out),
        Stop::Cut => answer_none(sides, opened, true, out),
        Stop::Over => answer_none(sides, opened, false, out),
        Stop::Full => Err(Refusal::OutOfSlots),
    }
}
