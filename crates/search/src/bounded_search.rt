// The bounded search, with the noted terms in slots: one for all right sides.
ghost use Rattle.std.specs.Prelude.{◌*◌, ◌/◌, ◌≤◌, ◌<◌, length};
ghost use Rattle.search.specs.Law.{semiring};
ghost use Rattle.search.specs.Index.{SLOT};
ghost use Rattle.search.specs.Searched.{Begins, Searches, Cuts};

use crate::replies::Reply;
use crate::results::{LINES, Results};
use crate::search::LARGEST;
use crate::slots::{HASH, Origin, Runs, SLOT, SlotRun};
use crate::{index, replies, results, slots};

// How far a search goes: lines in a path, size and depth of a result, terms that are opened.
#[derive(Clone, Copy, PartialEq, Eq)]
pub struct Limits {
    pub steps: u32,
    pub size: u32,
    pub depth: u32,
    pub nodes: u32,
}

// Why a search stopped: every right side that it waited for is noted; nothing is left to open; a term has no slot left.
#[derive(Clone, Copy, PartialEq, Eq)]
pub enum Stop {
    All,
    Over,
    Full,
}

// How a search ended, with how many terms opened and how many noted.
#[derive(Clone, Copy, PartialEq, Eq)]
pub struct Ended {
    pub stop: Stop,
    pub opened: usize,
    pub noted: usize,
}

// What a search is for: the right sides, how far it goes, and how many slots there are for noted terms. The workspace and the replies are
// lent beside it: of a struct with them each contract would have to say that it lends the same ones still.
#[derive(Clone, Copy)]
struct Search<'a> {
    rights: Runs<'a>,
    limits: Limits,
    slots: usize,
    ghost some: { 0 < slots },
    ghost few: { slots ≤ 65535 },
}

impl Search<'_> {
    ghost use Rattle.search.specs.Resulted.{most_nodes, Lent};
    ghost use Rattle.search.specs.Searched.{Opens, Takes, Explores};

    // The results of the noted term in slot `i` that are not noted.
    fn open(self, noted: Runs<'_>, i: u32, results: &mut Results<'_>)
        ensures opened { Opens semiring noted.entry.slots.now noted.entry.count i self.entry.limits (length results.old.order.now) results.new.slots.now results.new.order.now results.new.count }
        ensures lent { Lent results.old.slots results.old.order results.new.slots results.new.order }
    {
        let s = noted.run(i);
        let size = self.limits.size as usize;
        let depth = self.limits.depth as usize;
        results::results_of(noted, s, i, size, depth, results);
    }

    // Takes the result in slot `k` of `res`, whose source is at a distance: it is noted, and so many right sides that the search waits for
    // are equal to it, unless no slot is left. A slot of `res` always has a run of at most 31 numbers and a step.
    fn take(
        self,
        noted: usize,
        res: &[u32],
        k: u32,
        distance: u32,
        replies: &mut [Reply],
        ws: &mut [u32],
    ) -> Option<usize>
        requires { (noted ≤ self.slots) × (SLOT * self.slots ≤ length ws.old) × (distance < 4294967295) × (length replies.old ≤ self.rights.count) }
        ensures { Takes ws.old noted self.entry.slots res.now k distance self.entry.rights.slots.now replies.old result ws.new replies.new }
    {
        if self.slots <= noted {
            return None;
        }
        let run = SlotRun::of(slots::run_of(res, k))?;
        let Origin::From(step) = slots::origin_of(res, k) else {
            return None;
        };
        slots::note(ws, noted, run, step, distance + 1);
        let h = ws[SLOT * noted + HASH];
        Some(replies::strike(self.rights, run.numbers, h, noted as u32, replies))
    }

    // Opens the noted terms in turn, from the first one on, and notes their results, until the `waiting` right sides that are unnoted are
    // noted, each with its slot told. The results are not noted when their term is opened, and no two are the same, so that each is new in
    // its turn. The promise is for terms whose lines have room among the results. What is noted is counted by hand: it goes on from term to term.
    fn explore(
        self,
        waiting: usize,
        replies: &mut [Reply],
        ws: &mut [u32],
        results: &mut Results<'_>,
    ) -> Ended
        requires { (SLOT * self.slots ≤ length ws.old) × (length replies.old ≤ self.rights.count) }
        ensures { Explores semiring self.entry.rights.slots.now waiting self.entry.limits self.entry.slots (most_nodes (length results.old.order.now)) ws.old ws.new replies.old replies.new result }
    {
        let mut stop = Stop::Over;
        let mut opened = 0;
        let mut missing = waiting;
        let mut noted = 1;
        // Over all slots, since terms are noted as it goes. The labelled loop is left from the inner one: a form of the scope document.
        'outer: for i in 0..self.slots {
            if noted <= i || self.limits.nodes as usize <= i {
                break;
            }
            let distance = slots::value_of(ws, i as u32);
            if self.limits.steps <= distance {
                break;
            }
            let known = Runs {
                slots: ws,
                count: noted,
            };
            self.open(known, i as u32, results);
            opened = i + 1;
            let found = &*results.slots;
            for &k in &results.order[..results.count] {
                let Some(struck) = self.take(noted, found, k, distance, replies, ws) else {
                    stop = Stop::Full;
                    break 'outer;
                };
                noted += 1;
                if missing <= struck {
                    stop = Stop::All;
                    break 'outer;
                }
                missing -= struck;
            }
        }
        Ended {
            stop,
            opened,
            noted,
        }
    }

    // Explores with room for so many results, in buffers that are filled with zeros first.
    fn explore_within<const NUMBERS: usize, const MOST: usize>(
        self,
        waiting: usize,
        replies: &mut [Reply],
        ws: &mut [u32],
    ) -> Ended
        requires { (SLOT * MOST ≤ NUMBERS) × (NUMBERS ≤ 24800) × (MOST ≤ 620) × (SLOT * self.slots ≤ length ws.old) × (length replies.old ≤ self.rights.count) }
        ensures { Explores semiring self.entry.rights.slots.now waiting self.entry.limits self.entry.slots (most_nodes MOST) ws.old ws.new replies.old replies.new result }
    {
        let mut slots = [0u32; NUMBERS];
        let mut order = [0u32; MOST];
        let mut results = Results {
            slots: &mut slots,
            order: &mut order,
            count: 0,
        };
        self.explore(waiting, replies, ws, &mut results)
    }
}

// Terms of so many nodes have few results.
const SMALL: usize = 7;

// The most results of terms of at most 7 nodes and of those of at most 31, and the numbers of their slots.
const FEW: usize = SMALL * LINES;

const FEW_NUMBERS: usize = FEW * SLOT;

const MANY: usize = LARGEST * LINES;

const MANY_NUMBERS: usize = MANY * SLOT;

// How a search ends that has no slot for left.
const NO_SLOT: Ended = Ended {
    stop: Stop::Full,
    opened: 0,
    noted: 0,
};

// Notes left and explores. Results of more than 31 nodes have no room in a slot: the promise is for limits whose size is at most that.
// The buffers are filled with zeros first, and to fill larger ones takes as long as a short search.
fn explore_from(
    left: &[u32],
    rights: Runs<'_>,
    replies: &mut [Reply],
    waiting: usize,
    limits: Limits,
    ws: &mut [u32],
) -> Ended
    requires { length replies.old ≤ rights.count }
    ensures { Begins semiring left.now rights.entry.slots.now waiting limits ws.old ws.new replies.old replies.new result }
{
    let slots = index::slots_of(ws.len());
    if slots == 0 {
        return NO_SLOT;
    }
    let Some(run) = SlotRun::of(left) else {
        return NO_SLOT;
    };
    slots::note_start(ws, run);
    let search = Search {
        rights,
        limits,
        slots,
    };
    if left.len() <= SMALL && limits.size as usize <= SMALL {
        search.explore_within::<FEW_NUMBERS, FEW>(waiting, replies, ws)
    } else {
        search.explore_within::<MANY_NUMBERS, MANY>(waiting, replies, ws)
    }
}

// Searches for paths from left to the right sides, as many as there are replies. Those that match directly need no slot; if there are
// others, left is noted first, and one search serves them all. Left and the right sides stand side by side as the Rust's search takes them.
pub fn search_bounded_rewrite(
    left: &[u32],
    rights: Runs<'_>,
    replies: &mut [Reply],
    limits: Limits,
    ws: &mut [u32],
) -> Ended
    requires { length replies.old ≤ rights.count }
    ensures { Searches semiring left.now rights.entry.slots.now limits ws.old ws.new replies.old replies.new result }
{
    let waiting = replies::match_rights(left, rights, replies);
    if waiting == 0 {
        return Ended {
            stop: Stop::All,
            opened: 0,
            noted: 0,
        };
    }
    explore_from(left, rights, replies, waiting, limits, ws)
}

// Whether a search that is over was cut: a noted term at a distance below steps was left unopened. Of those that wait, the next to open
// is the nearest. No search notes a term past the slots.
pub fn is_cut(ws: &[u32], ended: Ended, limits: Limits) -> bool
    ensures { Cuts ws.now ended limits result }
{
    let noted = ended.noted.min(index::slots_of(ws.len()));
    ended.opened < noted && slots::value_of(ws, ended.opened as u32) < limits.steps
}
