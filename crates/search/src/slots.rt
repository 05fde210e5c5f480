// The slots of a workspace, 40 numbers to each, and all that reads and writes them.
// Of a slot, number 0 is the length of a run, 1 to 4 are its origin, 5 to 7 are of the index, the run stands from number 8 on, and 39
// is a value to which the search gives a meaning; FIND's is a distance. So what a look-up reads stands together.
// By the index a run is looked for among those of one bucket only: number 6 of slot b is the head of bucket b, the newest slot whose run
// is in it, number 7 of a slot leads to the next older one in its bucket, or to the slot itself, and number 5 is the hash of its run.
// Nothing is cleared beforehand: a head counts only if it leads to a noted slot of its bucket.
ghost use Rattle.std.specs.Prelude.{◌≡◌, ◌+◌, ◌*◌, ◌≤◌, ◌<◌, length, MatchOption};
ghost use Rattle.search.specs.Index.{SLOT, slots_of};
ghost use Rattle.search.specs.Runs.{value_of, Originates, Shows, Heads, Compares, Seeks, Finds, Rewrites, Writes, HoldsRun, Enters};
ghost use Rattle.search.specs.Slots.{Starts, Notes};

use crate::index;
use crate::search::{Direction, LARGEST, Law};
use terms::copy::overwrite;
use terms::term;

pub const SLOT: usize = 40;

// Where in a slot its numbers stand.
const ORIGIN: usize = 1;

pub const HASH: usize = 5;

const HEAD: usize = 6;

const NEXT: usize = 7;

const RUN: usize = 8;

const VALUE: usize = 39;

// A line: the place is the position in the run where the replaced subterm starts, the parent the slot of the term that is opened.
#[derive(Clone, Copy, PartialEq, Eq)]
pub struct Step {
    pub law: Law,
    pub direction: Direction,
    pub place: u32,
    pub parent: u32,
}

// What a noted term comes from. An enum of its own, since that is its form in the scope document.
#[derive(Clone, Copy, PartialEq, Eq)]
pub enum Origin {
    Start,
    From(Step),
}

impl Origin {
    ghost use Rattle.search.specs.Origins.{numbers};

    // An origin in four numbers.
    fn numbers(self) -> [u32; 4]
        ensures { result ≡ numbers self }
    {
        match self {
            Origin::Start => [0; 4],
            Origin::From(s) => [
                u32::from(s.law) + 1,
                u32::from(s.direction),
                s.place,
                s.parent,
            ],
        }
    }
}

// What the term in a slot comes from: the start past the end. Here and below nothing is asked of a slot's number, and a slot that is not
// whole is answered for: a workspace comes with any contents. It goes beside the number, since several slots of one are spoken of.
pub fn origin_of(ws: &[u32], k: u32) -> Origin
    ensures { Originates ws.now k result }
{
    let at = SLOT * (k as usize) + ORIGIN;
    if ws.len() < at + 4 {
        return Origin::Start;
    }
    let [law, direction, place, parent] = [ws[at], ws[at + 1], ws[at + 2], ws[at + 3]];
    if law == 0 {
        return Origin::Start;
    }
    Origin::From(Step {
        law: Law::from(law - 1),
        direction: Direction::from(direction),
        place,
        parent,
    })
}

// The run in a slot, as a part of the slots: no numbers where the slot is cut short.
pub fn run_of(ws: &[u32], k: u32) -> &[u32]
    ensures { Shows ws.now k result.now }
{
    let at = SLOT * (k as usize);
    let from = at + RUN;
    if ws.len() < from {
        return &[];
    }
    let n = ws[at] as usize;
    match ws.get(from..from + n) {
        Some(run) => run,
        None => &[],
    }
}

// Number 39 of a slot: 0 past the end.
pub fn value_of(ws: &[u32], k: u32) -> u32
    ensures { result ≡ value_of ws.now k }
{
    let at = SLOT * (k as usize) + VALUE;
    ws.get(at).copied().unwrap_or(0)
}

// The newest of the first `count` slots whose run is in a bucket, or `count` if none is. No Option, since the number is what a slot stores
// and what ends the walk: the oldest slot of a bucket leads to itself.
fn newest(ws: &[u32], count: u32, b: usize) -> u32
    requires { (b < slots_of (length ws.now)) × (SLOT * count ≤ length ws.now) }
    ensures { Heads ws.now count b result }
{
    let k = ws[SLOT * b + HEAD];
    let buckets = index::slots_of(ws.len());
    if k < count && index::bucket_at(ws[SLOT * (k as usize) + HASH], buckets) == b {
        k
    } else {
        count
    }
}

// Whether slot `k` has the run `s`, whose hash is `h`: the runs are compared only where the hash is the same.
pub fn has_run(ws: &[u32], k: u32, s: &[u32], h: u32) -> bool
    requires { SLOT * k + SLOT ≤ length ws.now }
    ensures { Compares ws.now k s.now h result }
{
    ws[SLOT * (k as usize) + HASH] == h && term::equal(s, run_of(ws, k))
}

// Terms in the first `count` slots of a workspace, for reading: the noted terms, or the right sides.
#[derive(Clone, Copy)]
pub struct Runs<'a> {
    pub slots: &'a [u32],
    pub count: usize,
    ghost within: { SLOT * count ≤ length slots.now },
    ghost few: { count ≤ 65535 },
}

impl<'a> Runs<'a> {
    // The run in a slot.
    pub fn run(self, k: u32) -> &'a [u32]
        ensures { Shows self.entry.slots.now k result.now }
    {
        run_of(self.slots, k)
    }

    // The slot that has a run: of those in its bucket, the newest first.
    pub fn find(self, s: &[u32]) -> Option<u32>
        ensures { Seeks self.entry.slots.now self.entry.count s.now result }
    {
        let buckets = index::slots_of(self.slots.len());
        if buckets == 0 {
            return None;
        }
        let mut end = self.count as u32;
        let h = index::hash(s);
        let mut k = newest(self.slots, end, index::bucket_at(h, buckets));
        while k < end {
            if has_run(self.slots, k, s, h) {
                return Some(k);
            }
            end = k;
            k = self.slots[SLOT * (k as usize) + NEXT];
        }
        None
    }

    // Whether a slot has a run.
    pub fn contains(self, s: &[u32]) -> bool
        ensures { Finds self.entry.slots.now self.entry.count s.now result }
    {
        self.find(s).is_some()
    }
}

// A run that a slot has room for: that of a term of at most 31 nodes.
#[derive(Clone, Copy)]
pub struct SlotRun<'a> {
    pub numbers: &'a [u32],
    ghost fits: { length numbers.now ≤ 31 },
}

impl<'a> SlotRun<'a> {
    // Numbers as the run of a slot, if there are at most 31.
    pub fn of(numbers: &'a [u32]) -> Option<Self>
        ensures { MatchOption result (31 < length numbers.now) (λ run. run.numbers.now ≡ numbers.now) }
    {
        if LARGEST < numbers.len() {
            return None;
        }
        Some(SlotRun { numbers })
    }
}

// Writes a slot, up to the end of its run. The workspace is lent beside the slot's number here and below: of a struct with both, handed on,
// each call would have to say that it lends the same workspace still.
pub fn write_slot(ws: &mut [u32], k: usize, run: SlotRun<'_>, o: Origin, value: u32)
    requires { SLOT * k + SLOT ≤ length ws.old }
    ensures { Writes ws.old ws.new k run.entry.numbers.now o value }
{
    let at = SLOT * k;
    let s = run.numbers;
    ws[at] = s.len() as u32;
    write_origin(ws, k, o, value);
    overwrite(&mut ws[at + RUN..at + RUN + s.len()], s);
}

// Writes what the term in a slot comes from, and its value: its run stays, and what is of the index.
pub fn write_origin(ws: &mut [u32], k: usize, o: Origin, value: u32)
    requires { SLOT * k + SLOT ≤ length ws.old }
    ensures { Rewrites ws.old ws.new k o value }
{
    let at = SLOT * k;
    overwrite(&mut ws[at + ORIGIN..at + HASH], &o.numbers());
    ws[at + VALUE] = value;
}

// Writes a slot with the hash of its run; it is in no index.
pub fn hold_slot(ws: &mut [u32], k: usize, run: SlotRun<'_>)
    requires { SLOT * k + SLOT ≤ length ws.old }
    ensures { HoldsRun ws.old ws.new k run.entry.numbers.now }
{
    write_slot(ws, k, run, Origin::Start, 0);
    ws[SLOT * k + HASH] = index::hash(run.numbers);
}

// Notes a run in slot `k`: the slot leads to the newest older one in its bucket, and is the head of the bucket from now on.
pub fn note_slot(ws: &mut [u32], k: usize, run: SlotRun<'_>, o: Origin, value: u32)
    requires { (SLOT * k + SLOT ≤ length ws.old) × (k < 65535) }
    ensures { Enters ws.old ws.new k run.entry.numbers.now o value }
{
    let h = index::hash(run.numbers);
    let b = index::bucket_at(h, index::slots_of(ws.len()));
    let older = newest(ws, k as u32, b);
    write_slot(ws, k, run, o, value);
    ws[SLOT * k + HASH] = h;
    ws[SLOT * k + NEXT] = older;
    ws[SLOT * b + HEAD] = k as u32;
}

// Notes the term that the search starts with.
pub fn note_start(ws: &mut [u32], run: SlotRun<'_>)
    requires { SLOT ≤ length ws.old }
    ensures { Starts ws.new run.entry.numbers.now }
{
    note_slot(ws, 0, run, Origin::Start, 0);
}

// Notes the result of a step in the slot with number `count`.
pub fn note(ws: &mut [u32], count: usize, run: SlotRun<'_>, step: Step, distance: u32)
    requires { (SLOT * count + SLOT ≤ length ws.old) × (count < 65535) }
    ensures { Notes ws.old ws.new count run.entry.numbers.now step distance }
{
    note_slot(ws, count, run, Origin::From(step), distance);
}
