// The results of an opened term that are not noted, in slots like those of noted terms, and in term order. They stand apart from the
// search, which asks for them once for each term that it opens.
ghost use Rattle.std.specs.Prelude.{◌≡◌, ◌*◌, ◌≤◌, length};
ghost use Rattle.search.specs.Index.{SLOT};
ghost use Rattle.search.specs.Ordered.{judged, Spotted};
ghost use Rattle.search.specs.Resulted.{TooDeep, Resulted, Lent};

use crate::search::{Binding, DIRECTIONS, LARGEST, LAWS, Spans};
use crate::slots::{Origin, Runs, SlotRun, Step};
use crate::{line, slots};
use std::cmp::Ordering;
use terms::term;

// How many lines there are at a place: one for each law and each direction.
pub const LINES: usize = LAWS.len() * DIRECTIONS.len();

// The results of one term, in slots like those of noted terms, in two lent buffers of any lengths: the first `count` numbers of `order`
// name their slots, in term order. A buffer and a count: no library of such vectors is taken in.
#[derive(Drop)]
pub struct Results<'a> {
    pub slots: &'a mut [u32],
    pub order: &'a mut [u32],
    pub count: usize,
    ghost room: { SLOT * length order.now ≤ length slots.now },
    ghost few: { length order.now ≤ 620 },
    ghost counted: { count ≤ length order.now },
}

// How the run in a slot compares with another.
fn compare_at(slots: &[u32], k: u32, s: &[u32]) -> Ordering
    ensures { result ≡ judged slots.now s.now k }
{
    term::compare(slots::run_of(slots, k), s)
}

// The place of a run among those in the slots that `order` names, which are in term order, by halving the part where it may go: none where
// it is there.
pub fn spot_of(res: &[u32], order: &[u32], s: &[u32]) -> Option<usize>
    ensures { Spotted res.now order.now s.now result }
{
    order.binary_search_by(|&k| compare_at(res, k, s)).err()
}

// Whether the term of a run is deeper than a limit. A term of n nodes is at most half of n deep, so that most runs are not walked.
pub fn too_deep(s: &[u32], limit: usize) -> bool
    ensures { TooDeep s.now limit result }
{
    limit < s.len() / 2 && limit < term::depth(s)
}

// A term that is opened: its run and its slot, the terms that are noted already, and how deep a result may be.
#[derive(Clone, Copy)]
struct Opened<'a> {
    run: &'a [u32],
    slot: u32,
    noted: Runs<'a>,
    depth: usize,
}

impl Results<'_> {
    ghost use Rattle.std.specs.Prelude.{◌+◌, ◌<◌, length, take};
    ghost use Rattle.search.specs.Law.{semiring};
    ghost use Rattle.search.specs.Place.{lines_at};
    ghost use Rattle.search.specs.Bound.{BindsLaw};
    ghost use Rattle.search.specs.Ordered.{Keeps};
    ghost use Rattle.search.specs.Resulted.{tried_by, Adds, Lent};
    ghost use Rattle.search.specs.declared.search.Binding.TheVariants.{Bound};

    // The place of a run among the results: none where it is there. It takes `&self`: of a buffer that is lent for reading out of a
    // `&mut self` only the length is known afterwards.
    fn spot(&self, s: &[u32]) -> Option<usize>
        ensures { Spotted self.now.slots.now (take self.now.count self.now.order.now) s.now result }
    {
        spot_of(self.slots, &self.order[..self.count], s)
    }

    // Puts a result in its place in term order, unless it is there already or is noted.
    fn keep(&mut self, noted: Runs<'_>, run: SlotRun<'_>, step: Step)
        requires { self.old.count < length self.old.order.now }
        ensures kept { Keeps noted.entry.slots.now noted.entry.count run.entry.numbers.now step self.old.slots.now self.old.order.now self.new.slots.now self.new.order.now self.old.count self.new.count }
        ensures lent { Lent self.old.slots self.old.order self.new.slots self.new.order }
    {
        if noted.contains(run.numbers) {
            return;
        }
        let Some(place) = self.spot(run.numbers) else {
            return;
        };
        let slot = self.count;
        slots::write_slot(self.slots, slot, run, Origin::From(step), 0);
        self.count += 1;
        term::shift(&mut self.order[..slot + 1], place, slot as u32);
    }

    // Keeps the line of a step whose law is bound: its result, if the buffer has room for it, it keeps the depth and it is not noted.
    fn keep_line(&mut self, term: Opened<'_>, step: Step, z: Spans, out: &mut [u32])
        requires { (step.place < length term.run.now) × BindsLaw step.law step.direction term.run.now step.place (Bound z) × (length out.old ≤ 31) × (self.old.count < length self.old.order.now) }
        ensures added { Adds term.entry.noted.slots.now term.entry.noted.count term.entry.run.now (length out.old) term.entry.depth step.parent (tried_by step) 1 self.old.slots.now self.old.order.now self.old.count self.new.slots.now self.new.order.now self.new.count }
        ensures lent { Lent self.old.slots self.old.order self.new.slots self.new.order }
    {
        let at = step.place as usize;
        let Some(end) = line::put_line(step.law, step.direction, term.run, at, z, out) else {
            return;
        };
        let result = &out[..end];
        if !too_deep(result, term.depth) {
            self.keep(term.noted, SlotRun { numbers: result }, step);
        }
    }

    // Tries each law at a place, forward before back. One with a letter left unbound is passed over, and so is one whose result has no
    // room and one back that makes what it made forward.
    fn lines_at(&mut self, term: Opened<'_>, place: u32, out: &mut [u32])
        requires { (place < length term.run.now) × (length out.old ≤ 31) × (self.old.count + 20 ≤ length self.old.order.now) }
        ensures added { Adds term.entry.noted.slots.now term.entry.noted.count term.entry.run.now (length out.old) term.entry.depth term.entry.slot (λ t. lines_at semiring t place) 20 self.old.slots.now self.old.order.now self.old.count self.new.slots.now self.new.order.now self.new.count }
        ensures lent { Lent self.old.slots self.old.order self.new.slots self.new.order }
    {
        for law in LAWS {
            for direction in DIRECTIONS {
                if line::repeats(law, direction)
                    || line::outgrows(law, direction, term.run.len(), out.len())
                {
                    continue;
                }
                let binding = line::bind_law(law, direction, term.run, place as usize);
                // In the form that the scope document names.
                let Binding::Bound(z) = binding else {
                    continue;
                };
                let step = Step {
                    law,
                    direction,
                    place,
                    parent: term.slot,
                };
                self.keep_line(term, step, z, out);
            }
        }
    }
}

// The results of the term of a run that keep size and depth and are not noted, in term order. A term of so many places that its lines may
// have no room is not tried.
pub fn results_of<'a>(
    noted: Runs<'a>,
    s: &'a [u32],
    parent: u32,
    size: usize,
    depth: usize,
    results: &mut Results<'_>,
)
    ensures resulted { Resulted noted.entry.slots.now noted.entry.count s.now parent size depth (length results.old.order.now) results.new.slots.now results.new.order.now results.new.count }
    ensures lent { Lent results.old.slots results.old.order results.new.slots results.new.order }
{
    results.count = 0;
    if results.order.len() / LINES < s.len() || LARGEST < size {
        return;
    }
    let term = Opened {
        run: s,
        slot: parent,
        noted,
        depth,
    };
    let mut out = [0u32; LARGEST];
    for place in 0..s.len() {
        results.lines_at(term, place as u32, &mut out[..size]);
    }
}
