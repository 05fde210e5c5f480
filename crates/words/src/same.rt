// Whether two terms have the same words.
ghost use Rattle.std.specs.Prelude.{◌≡◌, ◌*◌, ◌≤◌, length};
ghost use Rattle.terms.specs.Theory.Reflects.{Reflects};
ghost use Rattle.words.specs.Spelled.{SLOT, words_at};
ghost use Rattle.words.specs.Multiply.{MOST};
ghost use Rattle.words.specs.Counting.{AsMany};
ghost use Rattle.words.specs.WordLists.{ListsWords, SameWords};

use super::count::count_of;
use super::normal_form::{MOST, ROOM, multiply_out, word_of};
use super::sort::sort_slots;
use terms::term::equal;

// The list of the words of the term of a run: they stand in slots, and `order` has the slots in order. How many words there are.
fn list_words(run: &[u32], words: &mut [u32], scratch: &mut [u32], order: &mut [u32]) -> usize
    requires { (SLOT * MOST ≤ length words.old) × (SLOT * MOST ≤ length scratch.old) × (length order.old ≡ MOST) }
    ensures { ListsWords run.now result words.new order.new }
{
    let mut spare = [0u32; MOST];
    let n = multiply_out(run, words, scratch);
    sort_slots(words, &mut order[..n], &mut spare);
    n
}

// Whether two lists of slots have the same words, up to the first that differs.
fn same_slots(u: &[u32], a: &[u32], v: &[u32], b: &[u32]) -> bool
    ensures { Reflects (words_at u.now a.now ≡ words_at v.now b.now) result }
{
    if a.len() != b.len() {
        return false;
    }
    for i in 0..a.len() {
        if !equal(word_of(u, a[i] as usize), word_of(v, b[i] as usize)) {
            return false;
        }
    }
    true
}

// The lists of words made and compared. Not inlined, so that they do not lie beside the caller's on the stack.
#[inline(never)]
fn same_lists(left: &[u32], right: &[u32]) -> bool
    requires { AsMany left.now right.now }
    ensures { SameWords left.now right.now result }
{
    let (mut u, mut v, mut scratch) = ([0u32; ROOM], [0u32; ROOM], [0u32; ROOM]);
    let (mut a, mut b) = ([0u32; MOST], [0u32; MOST]);
    let m = list_words(left, &mut u, &mut scratch, &mut a);
    let n = list_words(right, &mut v, &mut scratch, &mut b);
    same_slots(&u, &a[..m], &v, &b[..n])
}

// Whether the terms of two runs have the same words: no list is made where they have not as many.
pub fn same_words(left: &[u32], right: &[u32]) -> bool
    ensures { SameWords left.now right.now result }
{
    count_of(left) == count_of(right) && same_lists(left, right)
}
