// The lines of an opened term, each with its total: its result is noted, or the total of one that is noted is lowered.
ghost use Rattle.std.specs.Prelude.{◌*◌, ◌≤◌, length};
ghost use Rattle.search.specs.Index.{SLOT};
ghost use Rattle.weigh.specs.Opened.{NotesTotal};

use crate::weighing::Weighing;
use search::results::too_deep;
use search::search::{Binding, DIRECTIONS, LARGEST, LAWS, Spans};
use search::slots::{Origin, Runs, SlotRun, Step};
use search::{line, slots};
use text::job::side::Run;

// Notes the result of a step with its total in the next slot, or lowers the total of one that is noted, with its origin: how many are noted
// then, unless no slot is left.
fn note_total(
    ws: &mut [u32],
    noted: usize,
    slots: usize,
    run: SlotRun<'_>,
    step: Step,
    total: u32,
) -> Option<usize>
    requires { (noted ≤ slots) × (slots ≤ 65535) × (SLOT * slots ≤ length ws.old) }
    ensures { NotesTotal ws.old noted slots run.entry.numbers.now step total result ws.new }
{
    let known = Runs {
        slots: ws,
        count: noted,
    };
    let Some(k) = known.find(run.numbers) else {
        if slots <= noted {
            return None;
        }
        slots::note_slot(ws, noted, run, Origin::From(step), total);
        return Some(noted + 1);
    };
    if total < slots::value_of(ws, k) {
        slots::write_origin(ws, k as usize, Origin::From(step), total);
    }
    Some(noted)
}

// A term that is opened: its run, which does not stand in the workspace, since that is written meanwhile, its slot and its total.
#[derive(Clone, Copy)]
struct Opened<'a> {
    run: &'a [u32],
    slot: u32,
    total: u32,
}

impl Weighing {
    ghost use Rattle.std.specs.Prelude.{◌≡◌, ◌+◌, ◌<◌};
    ghost use Rattle.search.specs.Law.{semiring};
    ghost use Rattle.search.specs.Place.{lines_at};
    ghost use Rattle.search.specs.Bound.{BindsLaw};
    ghost use Rattle.search.specs.Coded.{name_of};
    ghost use Rattle.search.specs.Resulted.{tried_by};
    ghost use Rattle.search.specs.declared.search.Binding.TheVariants.{Bound};
    ghost use Rattle.weigh.specs.Weigh.{weights_of};
    ghost use Rattle.weigh.specs.Opened.{TakesLines, Opens};

    // Takes the line of a step whose law is bound: its result, if the buffer has room for it and it keeps the depth.
    fn take_line(
        self,
        term: Opened<'_>,
        step: Step,
        z: Spans,
        total: u32,
        out: &mut [u32],
        noted: usize,
        ws: &mut [u32],
    ) -> Option<usize>
        requires bound { (step.place < length term.run.now) × BindsLaw step.law step.direction term.run.now step.place (Bound z) × (length out.old ≤ 31) }
        requires sum { (total ≡ term.total + weights_of self.weights (name_of step.law)) × (total ≤ self.cost) }
        requires slots { (noted ≤ self.slots) × (SLOT * self.slots ≤ length ws.old) }
        ensures { TakesLines self.weights self.cost ws.old noted self.slots term.entry.run.now (length out.old) self.limits.depth step.parent term.entry.total (tried_by step) result ws.new }
    {
        let at = step.place as usize;
        let Some(end) = line::put_line(step.law, step.direction, term.run, at, z, out) else {
            return Some(noted);
        };
        let result = &out[..end];
        if too_deep(result, self.limits.depth as usize) {
            return Some(noted);
        }
        note_total(
            ws,
            noted,
            self.slots,
            SlotRun { numbers: result },
            step,
            total,
        )
    }

    // Takes the lines at a place, law by law, forward before back. A law whose total is over cost is passed over, and so is one with a letter left
    // unbound, one whose result has no room, and one back that makes what it made forward.
    fn lines_at(
        self,
        term: Opened<'_>,
        place: u32,
        out: &mut [u32],
        noted: usize,
        ws: &mut [u32],
    ) -> Option<usize>
        requires place { (place < length term.run.now) × (length out.old ≤ 31) }
        requires slots { (noted ≤ self.slots) × (SLOT * self.slots ≤ length ws.old) }
        ensures { TakesLines self.weights self.cost ws.old noted self.slots term.entry.run.now (length out.old) self.limits.depth term.entry.slot term.entry.total (λ t. lines_at semiring t place) result ws.new }
    {
        let mut count = noted;
        for law in LAWS {
            let Some(total) = self.total_of(law, term.total) else {
                continue;
            };
            for direction in DIRECTIONS {
                if line::repeats(law, direction)
                    || line::outgrows(law, direction, term.run.len(), out.len())
                {
                    continue;
                }
                let binding = line::bind_law(law, direction, term.run, place as usize);
                // In the form that the scope document names.
                let Binding::Bound(z) = binding else {
                    continue;
                };
                let step = Step {
                    law,
                    direction,
                    place,
                    parent: term.slot,
                };
                count = self.take_line(term, step, z, total, out, count, ws)?;
            }
        }
        Some(count)
    }

    // Opens the noted term in slot `i`, whose total is `total`: how many terms are noted then, unless one has no slot left.
    pub fn open(self, i: u32, total: u32, noted: usize, ws: &mut [u32]) -> Option<usize>
        requires slots { (noted ≤ self.slots) × (SLOT * self.slots ≤ length ws.old) }
        ensures { Opens self.weights self.cost self.limits ws.old noted self.slots i total result ws.new }
    {
        let Some(run) = Run::of(slots::run_of(ws, i)) else {
            return Some(noted);
        };
        let term = Opened {
            run: run.numbers(),
            slot: i,
            total,
        };
        let mut out = [0u32; LARGEST];
        let size = self.limits.size as usize;
        let mut count = noted;
        for place in 0..term.run.len() {
            count = self.lines_at(term, place as u32, &mut out[..size], count, ws)?;
        }
        Some(count)
    }
}
