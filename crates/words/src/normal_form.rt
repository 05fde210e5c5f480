// The words of a term: its summands when multiplied out, sorted.
ghost use Rattle.std.specs.Prelude.{◌≡◌, [], ◌∷◌, ◌++◌, take};
ghost use Rattle.std.proofs.lemmas.List.Edits.{sets};
ghost use Rattle.words.specs.Spelled.{word_at, ends};
ghost use Rattle.words.specs.Multiply.{atom_words, PutsWords, JoinsRow, Joins, Expands, MultipliesOut};
ghost use Rattle.words.specs.WordLists.{WordsOf, ComparesLists};

use super::sort::spell_sorted;
use std::cmp::Ordering;
use std::ops::Range;
use terms::difference::difference_by_fours;
use terms::term::{ADD, ONE, ZERO};

// The most words of a term of 31 nodes.
pub const MOST: usize = 324;

// The most letters of one.
pub const LONGEST: usize = 16;

// A slot is 17 numbers: a word's length, then room for its letters. The slots are lent, and the next one to be filled goes beside them through all
// that fills them: of a struct with both each contract would have to say that it lends the same slots still.
pub const SLOT: usize = 17;

// The numbers in so many slots.
pub const ROOM: usize = MOST * SLOT;

// The word in slot k, as a part of the slots; no letters where there is no such slot.
pub fn word_of(words: &[u32], k: usize) -> &[u32]
    ensures { result.now ≡ word_at words.now k }
{
    let start = k.saturating_mul(SLOT).min(words.len());
    let Some((&count, letters)) = words[start..].split_first() else {
        return &[];
    };
    // Any number may stand in the place of the length: the letters end where the list does.
    front(letters, count as usize)
}

// Numbers stored one after the other from `at` on, as far as they fit.
// Mostly they are the few letters of a word: for those a call of `copy_from_slice` takes twice as long.
pub fn copy(out: &mut [u32], at: usize, numbers: &[u32])
    ensures { out.new ≡ sets out.old at numbers.now }
{
    let start = at.min(out.len());
    let n = numbers.len().min(out.len() - start);
    for i in 0..n {
        out[start + i] = numbers[i];
    }
}

// The first n numbers of a list, or all if there are fewer.
// A function that fills a buffer gives back a length, not the part that it filled: of a `&mut` that may have gone into the result a contract
// has no `new`, so that none could say what the buffer holds after the call.
pub fn front(xs: &[u32], n: usize) -> &[u32]
    ensures { result.now ≡ take n xs.now }
{
    &xs[..n.min(xs.len())]
}

// The letters of `a`, then those of `b`, put as a word into slot `k`: the next slot, which is `k` itself where there is no room. No Option: no
// job's words lack room, and the next slot is what every caller goes on with.
pub fn put_word(words: &mut [u32], k: usize, a: &[u32], b: &[u32]) -> usize
    ensures { PutsWords ((a.now ++ b.now) ∷ []) words.old k result words.new }
{
    let n = a.len() + b.len();
    if LONGEST < n || MOST <= k || words.len() < SLOT * (k + 1) {
        return k;
    }
    let at = SLOT * k;
    words[at] = n as u32;
    copy(words, at + 1, a);
    copy(words, at + 1 + a.len(), b);
    k + 1
}

// The word `a` joined to each word in some slots, put into `out` from slot `k` on: the next slot.
fn join_row(a: &[u32], words: &[u32], slots: Range<usize>, out: &mut [u32], k: usize) -> usize
    ensures { JoinsRow a.now words.now slots.start slots.end out.old k result out.new }
{
    let mut next = k;
    for i in slots {
        next = put_word(out, next, a, word_of(words, i));
    }
    next
}

// Each word in the left slots joined to each in the right ones, put into `out` from slot `k` on: the next slot.
fn join(words: &[u32], left: Range<usize>, right: Range<usize>, out: &mut [u32], k: usize) -> usize
    ensures { Joins words.now left.start left.end right.start right.end out.old k result out.new }
{
    let mut next = k;
    for i in left {
        next = join_row(word_of(words, i), words, right.start..right.end, out, next);
    }
    next
}

// The words of an atom, by its number in a run, put into the slots from `k` on: the next slot.
fn put_atom(words: &mut [u32], k: usize, x: u32) -> usize
    ensures { PutsWords (atom_words x) words.old k result words.new }
{
    match x {
        ZERO => k,
        ONE => put_word(words, k, &[], &[]),
        letter => put_word(words, k, &[letter], &[]),
    }
}

// Where the term that starts at a position ends, and the slot after its words.
#[derive(Drop)]
struct Expanded {
    end: usize,
    count: usize,
}

// The term at a position multiplied out into the slots of `words` from `count` on. It calls itself twice for each sum and product.
// The parts of a product go into the other slots, from `free` on, and their words are joined into these: so no word is moved out of the way.
fn expand_at(
    run: &[u32],
    at: usize,
    words: &mut [u32],
    count: usize,
    other: &mut [u32],
    free: usize,
) -> Expanded
    ensures { Expands run.now at words.old count other.old free result words.new other.new }
{
    let Some(&x) = run.get(at) else {
        return Expanded { end: at, count };
    };
    if x < ADD {
        return Expanded {
            end: at + 1,
            count: put_atom(words, count, x),
        };
    }
    if x == ADD {
        let left = expand_at(run, at + 1, words, count, other, free);
        return expand_at(run, left.end, words, left.count, other, free);
    }
    let left = expand_at(run, at + 1, other, free, words, count);
    let right = expand_at(run, left.end, other, left.count, words, count);
    Expanded {
        end: right.end,
        count: join(
            other,
            free..left.count,
            left.count..right.count,
            words,
            count,
        ),
    }
}

// The term of a run multiplied out: how many words there are, in the first slots of `words`.
// A term of 31 nodes wants 5,508 numbers of room in `words` and in `scratch`.
pub fn multiply_out(run: &[u32], words: &mut [u32], scratch: &mut [u32]) -> usize
    ensures { MultipliesOut run.now words.old scratch.old result words.new }
{
    expand_at(run, 0, words, 0, scratch, 0).count
}

// The words of the term of a run, written at the front of `out`, if there is room: where they end.
// A term of 31 nodes has at most 324 words of at most 16 letters: 17 numbers each, in a slot and in `out`.
pub fn words_of(run: &[u32], out: &mut [u32]) -> usize
    ensures { WordsOf run.now out.old result out.new }
{
    let mut words = [0u32; ROOM];
    let mut scratch = [0u32; ROOM];
    let n = multiply_out(run, &mut words, &mut scratch);
    spell_sorted(&words[..SLOT * n], out)
}

// How two lists of words compare, and at which word they part, counted from 0; of equal lists, how many words they have.
#[derive(Clone, Copy)]
pub struct Parting {
    pub order: Ordering,
    pub place: usize,
}

// How many words end in a part of a spelled list: each does with a 0. The library's `filter` and `count` take half as long again.
fn ends(run: &[u32]) -> usize
    ensures { result ≡ ends run.now }
{
    let mut n = 0;
    for &x in run {
        if x == 0 {
            n += 1;
        }
    }
    n
}

// Which of two lists of words comes first, word by word, and where they part: the lists are runs as `words_of` writes them.
// They often agree for long: so they are compared by fours.
pub fn compare_lists(a: &[u32], b: &[u32]) -> Parting
    ensures { ComparesLists a.now b.now result }
{
    match difference_by_fours(a, b) {
        Some(k) => Parting {
            order: a.get(k).cmp(&b.get(k)),
            place: ends(front(a, k)),
        },
        None => Parting {
            order: Ordering::Equal,
            place: ends(a),
        },
    }
}
