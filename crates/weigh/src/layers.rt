// The search for the cheapest path, layer by layer: the terms of one total are gathered, put in term order, and opened in order.
ghost use Rattle.std.specs.Prelude.{◌*◌, ◌≤◌, ◌<◌, length};
ghost use Rattle.search.specs.Index.{SLOT};
ghost use Rattle.weigh.specs.Layered.{RunsOut};
ghost use Rattle.weigh.specs.Searched.{Searches};

use crate::gather::gather;
use crate::weighing::{LARGEST_SIZE, MOST_NODES, Weighing};
use search::bounded_search::Limits;
use search::slots::{Runs, SlotRun};
use search::{index, slots};
use terms::term;

// Why a search ended: right came up, in this slot; no more terms may be opened, and right is noted, in this slot, while the smallest total of a term
// that waits is this; no path was found, and a noted term was left unopened, or none was; a term had no slot left.
#[derive(Clone, Copy)]
pub enum Stop {
    Right(u32),
    InHand(u32, u32),
    Cut,
    Over,
    Full,
}

// How a search ended, or stands so far, with how many terms opened and how many noted. Where a term had no slot left both mean nothing.
#[derive(Clone, Copy)]
pub struct Ended {
    pub stop: Stop,
    pub opened: usize,
    pub noted: usize,
}

// The most terms of a layer that are looked at: all that may be opened, and one more.
const MOST: usize = MOST_NODES as usize + 1;

// Why a search ends that may open no more terms, where the smallest total of a term that waits is `atleast`: with right in hand, or cut.
fn run_out(ws: &[u32], noted: usize, right: &[u32], atleast: u32) -> Stop
    requires { (noted ≤ 65535) × (SLOT * noted ≤ length ws.now) }
    ensures { RunsOut ws.now noted right.now atleast result }
{
    let known = Runs {
        slots: ws,
        count: noted,
    };
    match known.find(right) {
        Some(k) => Stop::InHand(k, atleast),
        None => Stop::Cut,
    }
}

impl Weighing {
    ghost use Rattle.weigh.specs.Layered.{OpensLayer, OpensLayers};

    // Opens the terms of a layer in order. Right coming up ends the search, uncounted, before the node limit is looked at. Where that is met, the term
    // that would be opened next has the smallest total of all that wait.
    fn open_layer(
        self,
        right: &[u32],
        layer: &[u32],
        total: u32,
        before: Ended,
        ws: &mut [u32],
    ) -> Ended
        requires { (before.noted ≤ self.slots) × (before.opened ≤ self.limits.nodes) × (SLOT * self.slots ≤ length ws.old) }
        ensures { OpensLayer self.weights self.cost self.limits self.slots right.now layer.now total before ws.old ws.new result }
    {
        let mut now = Ended {
            stop: Stop::Over,
            ..before
        };
        for &k in layer {
            if term::equal(right, slots::run_of(ws, k)) {
                return Ended {
                    stop: Stop::Right(k),
                    ..now
                };
            }
            if self.limits.nodes as usize <= now.opened {
                return Ended {
                    stop: run_out(ws, now.noted, right, total),
                    ..now
                };
            }
            let Some(noted) = self.open(k, total, now.noted, ws) else {
                return Ended {
                    stop: Stop::Full,
                    ..now
                };
            };
            now.noted = noted;
            now.opened += 1;
        }
        now
    }

    // Opens layer after layer, from left's on. Of a layer no more terms are looked at than may be opened, and one.
    fn open_layers(self, right: &[u32], ws: &mut [u32]) -> Ended
        requires { (0 < self.slots) × (SLOT * self.slots ≤ length ws.old) }
        ensures { OpensLayers self.weights self.cost self.limits self.slots right.now ws.old ws.new result }
    {
        let mut order = [0u32; MOST];
        let mut ended = Ended {
            stop: Stop::Over,
            opened: 0,
            noted: 1,
        };
        for total in 0..self.cost as usize + 1 {
            let most = self.limits.nodes as usize - ended.opened + 1;
            let count = gather(ws, ended.noted, total as u32, most, &mut order);
            ended = self.open_layer(right, &order[..count], total as u32, ended, ws);
            let Stop::Over = ended.stop else {
                return ended;
            };
        }
        ended
    }
}

// How a search ends that has no slot for left.
const NO_SLOT: Ended = Ended {
    stop: Stop::Full,
    opened: 0,
    noted: 0,
};

// Searches for the cheapest path from left to right. The promise is for limits of an accepted job. Not inlined, so that a layer does not lie beside the
// path on the caller's stack.
#[inline(never)]
pub fn search_weighed(
    left: &[u32],
    right: &[u32],
    weights: [u32; 10],
    cost: u32,
    limits: Limits,
    ws: &mut [u32],
) -> Ended
    ensures { Searches weights cost left.now right.now limits ws.old ws.new result }
{
    let slots = index::slots_of(ws.len());
    if slots == 0 || LARGEST_SIZE < limits.size || MOST_NODES < limits.nodes {
        return NO_SLOT;
    }
    let Some(run) = SlotRun::of(left) else {
        return NO_SLOT;
    };
    slots::note_start(ws, run);
    let weighing = Weighing {
        weights,
        cost,
        limits,
        slots,
    };
    weighing.open_layers(right, ws)
}
