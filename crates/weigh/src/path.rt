// The path to right, out of the workspace: there a parent may stand in a later slot than the term that it leads to, since a lower total brings
// another parent. So the terms on the path are copied into slots of their own, in order, and printed from there as any path is.
// Tests that no accepted job meets stand in place of requirements: a way that breaks off or is too long, and runs longer than 31.
ghost use Rattle.std.specs.Prelude.{◌+◌, ◌*◌, ◌≤◌, ◌<◌, length};
ghost use Rattle.search.specs.Index.{SLOT};
ghost use Rattle.weigh.specs.Copied.{WaysTo, CopiesWay, CopiesPath};

use search::path::path_of;
use search::slots;
use search::slots::{Origin, SLOT, SlotRun, Step};

// The most lines of a path of an accepted job: it weighs at most 99, and each line at least 1.
pub const MOST_LINES: usize = 99;

// Fills the end of `path` with the slots of the terms on the way from the start to slot `last`, from left to right, the start left out: where in
// `path` they begin. None where `path` is shorter.
fn way_to(ws: &[u32], last: u32, path: &mut [u32]) -> Option<usize>
    ensures { WaysTo ws.now last path.new result }
{
    let mut at = path.len();
    let mut k = last;
    while let Origin::From(step) = slots::origin_of(ws, k) {
        if at == 0 {
            return None;
        }
        at -= 1;
        path[at] = k;
        k = step.parent;
    }
    Some(at)
}

// Copies left, and the terms in the slots of a way from it, one after the other, into the first slots of `out`: each with the one before it as its
// parent.
fn copy_way(ws: &[u32], way: &[u32], out: &mut [u32])
    requires { (length way.now ≤ 99) × (SLOT * length way.now + SLOT ≤ length out.old) }
    ensures { CopiesWay ws.now way.now out.new }
{
    let Some(left) = SlotRun::of(slots::run_of(ws, 0)) else {
        return;
    };
    slots::note_start(out, left);
    for (i, k) in way.iter().enumerate() {
        let Origin::From(step) = slots::origin_of(ws, *k) else {
            return;
        };
        let Some(run) = SlotRun::of(slots::run_of(ws, *k)) else {
            return;
        };
        let copied = Step {
            law: step.law,
            direction: step.direction,
            place: step.place,
            parent: i as u32,
        };
        slots::note(out, i + 1, run, copied, i as u32 + 1);
    }
}

// Copies the path to the term in slot `last` into the first slots of `out`, and fills the front of `path` with the slots of its terms there, left's
// left out: how many there are.
pub fn copy_path(ws: &[u32], last: u32, path: &mut [u32], out: &mut [u32]) -> Option<usize>
    requires { (length path.old ≤ 99) × (SLOT * length path.old + SLOT ≤ length out.old) }
    ensures { CopiesPath ws.now last path.new out.new result }
{
    let from = way_to(ws, last, path)?;
    let count = path.len() - from;
    copy_way(ws, &path[from..], out);
    path_of(out, count as u32, path)
}
