// The least equation of two lists of words over all renamings of their v letters.
ghost use Rattle.std.specs.Prelude.{◌≡◌, ◌≤◌, [], ◌∷◌, map, length, take};
ghost use Prim.Native.Nat.{compare};
ghost use mathlib.Core.List.{flatten};
ghost use Rattle.terms.specs.Compare.{order_numbers};
ghost use Rattle.terms.specs.Equation.{orient};
ghost use Rattle.terms.specs.Sort.{lost, insert_all};
ghost use Rattle.terms.specs.Letters.{variables};
ghost use Rattle.terms.specs.Promises.{ordering_of, Fills, ListsVariables};
ghost use Rattle.words.specs.Spelled.{spelled};
ghost use Rattle.words.specs.Rename.{rename_words};
ghost use Rattle.words.specs.RenameRun.{rename_run};
ghost use Rattle.words.specs.Renaming.{new_of};
ghost use Rattle.words.specs.Multiply.{PutsWords};
ghost use Rattle.words.specs.Making.{made, lent};
ghost use Rattle.words.specs.WordLists.{slot_words, RenamesWords, WordRoom, CanonicalWords};

use super::super::normal_form::{
    LONGEST, ROOM, SLOT, compare_lists, front, multiply_out, put_word, word_of,
};
use super::super::sort::spell_sorted;
use super::renaming::Renaming;
use super::{Compared, Equation, MOST_VARIABLES, Renamed, least_renaming};
use std::cmp::Ordering;
use terms::term;
use terms::term::FIXED;

// The v letters of the words in all the slots put among the first `n` numbers, one after another.
fn gather_words(words: &[u32], out: &mut [u32], n: usize) -> Option<usize>
    requires { n ≤ length out.old }
    ensures { Fills (insert_all lost compare (take n out.old) (variables (flatten (slot_words words.now)))) out.old result out.new }
{
    let mut count = n;
    for i in 0..words.len() / SLOT {
        count = term::gather(word_of(words, i), out, count, FIXED)?;
    }
    Some(count)
}

// The different v letters of the words in two lists of slots, rising, in the front of `out`. The same for runs is in terms; no run holds all
// words.
fn variables_of_words(u: &[u32], v: &[u32], out: &mut [u32]) -> Option<usize>
    ensures { ListsVariables (flatten (slot_words u.now)) (flatten (slot_words v.now)) out.old result out.new }
{
    let n = gather_words(u, out, 0)?;
    gather_words(v, out, n)
}

impl Renaming<'_> {
    // A word renamed and put into slot `k`, if there is room: the next slot.
    fn put_renamed(&self, word: &[u32], slots: &mut [u32], k: usize) -> usize
        ensures { PutsWords (rename_run (new_of self.now) word.now ∷ []) slots.old k result slots.new }
    {
        let mut letters = [0u32; LONGEST];
        self.rename(word, &mut letters);
        // No contract bounds the length of the word: of a longer one `front` takes what fits.
        put_word(slots, k, front(&letters, word.len()), &[0; 0])
    }

    // The words in all the slots renamed and put into other slots, if there is room: the next slot.
    fn rename_slots(&self, words: &[u32], slots: &mut [u32]) -> usize
        ensures { PutsWords (map (rename_run (new_of self.now)) (slot_words words.now)) slots.old 0 result slots.new }
    {
        let mut next = 0;
        for i in 0..words.len() / SLOT {
            next = self.put_renamed(word_of(words, i), slots, next);
        }
        next
    }

    // The words in all the slots renamed, sorted and written at the front of `out`, if there is room: where they end.
    fn rename_words(&self, words: &[u32], slots: &mut [u32], out: &mut [u32]) -> usize
        ensures { RenamesWords (new_of self.now) words.now slots.old out.old result out.new }
    {
        let n = self.rename_slots(words, slots);
        // `slots` may be of any length: no contract says that the slots before number n lie within.
        spell_sorted(front(slots, SLOT * n), out)
    }
}

// Two lists of words in slots, and slots and two buffers that all renamings share.
#[derive(Drop)]
struct WordLists<'a> {
    u: &'a [u32],
    v: &'a [u32],
    slots: [u32; ROOM],
    x: [u32; ROOM],
    y: [u32; ROOM],
}

impl<'a> Compared for WordLists<'a> {
    fn compare(a: &[u32], b: &[u32]) -> Ordering
        ensures { ordering_of result ≡ order_numbers a.now b.now }
    {
        compare_lists(a, b).order
    }
}

impl<'a> Renamed for WordLists<'a> {
    ghost equation = { λ s new. orient order_numbers (spelled (rename_words new (slot_words s.u.now))) (spelled (rename_words new (slot_words s.v.now))) };

    ghost is_room = { λ s. WordRoom s.u.now s.v.now };

    // Where a renaming surely makes a greater equation than the best so far, nothing is renamed or sorted.
    fn offer(&mut self, renaming: &Renaming, c: usize, best: &mut Equation<'_, '_>) {
        if renaming.is_greater(self.u, self.v, c, best.left()) {
            return;
        }
        let m = renaming.rename_words(self.u, &mut self.slots, &mut self.x);
        let n = renaming.rename_words(self.v, &mut self.slots, &mut self.y);
        best.offer::<Self>(&self.x[..m], &self.y[..n], c);
    }
}

// The least equation of the words of two terms over all renamings of the words' v letters; nothing if they are more than six, as there.
// Each list wants 5,508 numbers of room, as `words_of` does.
pub fn canonical_words(a: &[u32], b: &[u32], best: &mut Equation<'_, '_>)
    ensures found { CanonicalWords a.now b.now (made best.old).room (made best.new).sides }
    ensures lent { lent best.new ≡ lent best.old }
{
    let mut u = [0u32; ROOM];
    let mut v = [0u32; ROOM];
    let mut scratch = [0u32; ROOM];
    let m = multiply_out(a, &mut u, &mut scratch);
    let n = multiply_out(b, &mut v, &mut scratch);
    let us = &u[..SLOT * m];
    let vs = &v[..SLOT * n];
    let mut names = [0u32; MOST_VARIABLES];
    match variables_of_words(us, vs, &mut names) {
        Some(k) => {
            let mut lists = WordLists {
                u: us,
                v: vs,
                slots: [0; ROOM],
                x: [0; ROOM],
                y: [0; ROOM],
            };
            least_renaming(&mut lists, &names[..k], best);
        }
        None => best.clear(),
    }
}
