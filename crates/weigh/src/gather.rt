// A layer: the noted terms of one total, which are opened one after the other, in term order. All of them are known before the first is opened,
// since every line weighs something.
ghost use Rattle.std.specs.Prelude.{◌≤◌, length};
ghost use Rattle.weigh.specs.Gathered.{Inserts, Gathers};

use search::results::spot_of;
use search::slots;
use terms::term;

// Puts slot `k` in its place among the first `count` numbers of `order`, which name slots in term order, of which the last is dropped
// where they would be more than `most`: how many there are then. Where they are so many, the last is looked at first: of a large layer most terms
// are not before it. A term that is there already changes nothing.
fn insert(ws: &[u32], k: u32, most: usize, order: &mut [u32], count: usize) -> usize
    requires { (count ≤ most) × (most ≤ length order.old) }
    ensures { Inserts ws.now k most order.old count order.new result }
{
    let run = slots::run_of(ws, k);
    if 0 < count && count == most {
        let last = slots::run_of(ws, order[count - 1]);
        if term::compare(last, run).is_le() {
            return count;
        }
    }
    let Some(place) = spot_of(ws, &order[..count], run) else {
        return count;
    };
    let end = (count + 1).min(most);
    if place < end {
        term::shift(&mut order[..end], place, k);
    }
    end
}

// The slots of the noted terms with a total, in term order, at the front of `order`: how many there are, but no more than `most`. No term with that
// total is opened yet.
pub fn gather(ws: &[u32], noted: usize, total: u32, most: usize, order: &mut [u32]) -> usize
    requires { (noted ≤ 65535) × (most ≤ length order.old) }
    ensures { Gathers ws.now noted total most order.new result }
{
    let mut count = 0;
    for k in 0..noted as u32 {
        if slots::value_of(ws, k) == total {
            count = insert(ws, k, most, order, count);
        }
    }
    count
}
