// Slots sorted by the words in them, and the words written as a run.
ghost use Rattle.std.specs.Prelude.{◌≡◌, ◌+◌, ◌*◌, ◌<◌, ◌≤◌, [], ◌∷◌, ◌++◌, length, take, drop};
ghost use Rattle.terms.specs.Sort.{kept, before};
ghost use Rattle.words.specs.Words.{order_words, normal};
ghost use Rattle.words.specs.Rename.{count_from};
ghost use Rattle.words.specs.Spelled.{SLOT, word_at, words_at, words_in};
ghost use Rattle.words.specs.Multiply.{MOST};
ghost use Rattle.words.specs.Sort.{from_first, Merges, Spells};
ghost use Rattle.words.specs.WordLists.{slot_words};

use super::normal_form::{MOST, SLOT, word_of};
use terms::copy::overwrite;
use terms::term::compare;

// The slots one after another: 0, 1, and so on.
pub fn number_slots(order: &mut [u32])
    requires { length order.old ≤ 4294967296 }
    ensures { order.new ≡ count_from (length order.old) 0 }
{
    for (i, slot) in order.iter_mut().enumerate() {
        *slot = i as u32;
    }
}

// Whether the word in slot `x` may stand before that in slot `y`.
fn in_order(words: &[u32], x: u32, y: u32) -> bool
    ensures { result ≡ before kept (order_words (word_at words.now x) (word_at words.now y)) }
{
    compare(word_of(words, x as usize), word_of(words, y as usize)).is_le()
}

// Whether the next of two lists to be merged is the first's.
fn takes_first(words: &[u32], a: &[u32], b: &[u32]) -> bool
    ensures { result ≡ from_first words.now a.now b.now }
{
    let Some(&x) = a.first() else {
        return false;
    };
    let Some(&y) = b.first() else {
        return true;
    };
    in_order(words, x, y)
}

// Two lists of slots, each sorted by its words, merged into one.
// The places in both are counted: only a look at both tells which of them moves on.
fn merge(words: &[u32], a: &[u32], b: &[u32], out: &mut [u32])
    requires { length out.old ≡ length a.now + length b.now }
    ensures { Merges words.now a.now b.now out.new }
{
    let mut i = 0;
    let mut j = 0;
    for k in 0..out.len() {
        if takes_first(words, &a[i..], &b[j..]) {
            out[k] = a[i];
            i += 1;
        } else {
            out[k] = b[j];
            j += 1;
        }
    }
}

// The two parts of `order`, each sorted by its words, merged: two comparisons are enough where the one comes before the other.
fn merge_parts(words: &[u32], order: &mut [u32], mid: usize, spare: &mut [u32])
    requires { (mid < length order.old) × (length order.old ≤ length spare.old) × (0 < mid) }
    ensures { Merges words.now (take mid order.old) (drop mid order.old) order.new }
{
    let n = order.len();
    if in_order(words, order[mid - 1], order[mid]) {
        return;
    }
    overwrite(&mut spare[..n], order);
    let parts = &spare[..n];
    if in_order(words, parts[n - 1], parts[0]) {
        // Two copies take less time than `rotate_left`.
        overwrite(&mut order[..n - mid], &parts[mid..]);
        overwrite(&mut order[n - mid..], &parts[..mid]);
        return;
    }
    merge(words, &parts[..mid], &parts[mid..], order);
}

// The slots of `order` sorted by their words, repeats kept: both halves are sorted, then merged.
// The library's sort takes twice as long: words multiplied out lie in sorted runs that need no merge.
// Three contracts ask that `spare` be no shorter than `order`: `sort` calls itself with parts of `order` and the same `spare`, so that a
// type of both with this fact would be made anew at each call.
pub fn sort(words: &[u32], order: &mut [u32], spare: &mut [u32])
    requires { length order.old ≤ length spare.old }
    ensures { words_at words.now order.new ≡ normal kept (words_at words.now order.old) }
{
    let n = order.len();
    if n < 2 {
        return;
    }
    if n == 2 {
        if !in_order(words, order[0], order[1]) {
            order.swap(0, 1);
        }
        return;
    }
    let mid = n / 2;
    sort(words, &mut order[..mid], spare);
    sort(words, &mut order[mid..], spare);
    merge_parts(words, order, mid, spare);
}

// A word at the front of `out`, each letter plus 1, then 0: where it ends. Without room for it `out` counts as full, so that no later word is
// put.
fn spell_word(word: &[u32], out: &mut [u32]) -> usize
    ensures { Spells (word.now ∷ []) out.old result out.new }
{
    let n = word.len();
    if out.len() <= n {
        return out.len();
    }
    for (i, &letter) in word.iter().enumerate() {
        out[i] = letter.wrapping_add(1);
    }
    out[n] = 0;
    n + 1
}

// The words in the slots of `order`, one after another at the front of `out`, if there is room: where they end.
pub fn spell(words: &[u32], order: &[u32], out: &mut [u32]) -> usize
    ensures { Spells (words_at words.now order.now) out.old result out.new }
{
    let mut n = 0;
    for &slot in order {
        n += spell_word(word_of(words, slot as usize), &mut out[n..]);
    }
    n
}

// The first slots, as many as `order` is long, in the order of their words.
pub fn sort_slots(words: &[u32], order: &mut [u32], spare: &mut [u32])
    requires { (length order.old ≤ MOST) × (length order.old ≤ length spare.old) }
    ensures { words_at words.now order.new ≡ normal kept (words_in words.now (length order.old)) }
{
    number_slots(order);
    sort(words, order, spare);
}

// Their words in this order, written at the front of `out`, if there is room: where they end.
fn sort_and_spell(words: &[u32], order: &mut [u32], spare: &mut [u32], out: &mut [u32]) -> usize
    requires { (length order.old ≤ MOST) × (length order.old ≤ length spare.old) }
    ensures { Spells (normal kept (words_in words.now (length order.old))) out.old result out.new }
{
    sort_slots(words, order, spare);
    spell(words, order, out)
}

// The words in all the slots, sorted and written at the front of `out`, if there is room: where they end.
// A term of 31 nodes has at most 324 words.
pub fn spell_sorted(words: &[u32], out: &mut [u32]) -> usize
    requires { length words.now ≤ SLOT * MOST }
    ensures { Spells (normal kept (slot_words words.now)) out.old result out.new }
{
    let mut order = [0u32; MOST];
    let mut spare = [0u32; MOST];
    let n = words.len() / SLOT;
    sort_and_spell(words, &mut order[..n], &mut spare, out)
}
