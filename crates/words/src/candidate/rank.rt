// Whether two renamed lists of words come after a run, found out without sorting them: most renamings need no more.
ghost use Rattle.std.specs.Prelude.{◌≡◌, ◌+◌, ◌/◌, ◌^◌, ◌<◌, true, [], ◌∷◌, map, length, take};
ghost use Rattle.terms.specs.Promises.{ordering_of};
ghost use Rattle.words.specs.Words.{order_words};
ghost use Rattle.words.specs.Spelled.{word_at};
ghost use Rattle.words.specs.RenameRun.{rename_run};
ghost use Rattle.words.specs.Renaming.{new_of};
ghost use Rattle.words.specs.WordLists.{slot_words};
ghost use Rattle.words.specs.Rank.{first_word, Notes, Ranks, Paired, Passes, Above, Exceeds};

use super::super::normal_form::{SLOT, word_of};
use super::renaming::{Renaming, place_of};
use std::cmp::Ordering;

// How many words of a run are looked at: lists that agree in more are sorted.
const TRIES: usize = 4;

// How many words come before another, and how many do not come after it.
#[derive(Drop)]
pub struct Rank {
    pub less: usize,
    pub upto: usize,
}

impl Rank {
    // One more word counted, by how it compares.
    fn note(&mut self, found: Ordering)
        requires { (self.old.less < 2 ^ 62) × (self.old.upto < 2 ^ 62) }
        ensures { Notes self.old (ordering_of found) self.new }
    {
        self.less += usize::from(found.is_lt());
        self.upto += usize::from(found.is_le());
    }
}

// Whether the word in a slot surely begins with two letters.
fn begins_with(words: &[u32], k: usize, x: u32, y: u32) -> bool
    requires { k < length words.now / SLOT }
    ensures { result ≡ true → take 2 (word_at words.now k) ≡ x ∷ y ∷ [] }
{
    let at = SLOT * k;
    2 <= words[at] && words[at + 1] == x && words[at + 2] == y
}

// The slot after the words, from slot i on, that begin with the letters x and y.
// A loop: by `find` the proof is longer, and the text no shorter.
fn pair_end(words: &[u32], i: usize, x: u32, y: u32) -> usize
    ensures { Paired words.now x y i result }
{
    let count = words.len() / SLOT;
    for k in i..count {
        if !begins_with(words, k, x, y) {
            return k;
        }
    }
    i.max(count)
}

impl Renaming<'_> {
    // Which comes first, a word renamed or the first word that a run spells. By hand: a letter is renamed only when it is reached, and the
    // run's word ends at a 0.
    fn compare_first(&self, word: &[u32], run: &[u32]) -> Ordering
        ensures { ordering_of result ≡ order_words (rename_run (new_of self.now) word.now) (first_word run.now) }
    {
        for (i, x) in word.iter().enumerate() {
            if run.len() <= i || run[i] == 0 {
                return Ordering::Greater;
            }
            let order = self.number(*x).cmp(&(run[i] - 1));
            if order.is_ne() {
                return order;
            }
        }
        if run.len() <= word.len() || run[word.len()] == 0 {
            Ordering::Equal
        } else {
            Ordering::Less
        }
    }

    // The slot after the words, from slot i on, that begin as its word does, if two letters tell that they come after the first word of a run.
    fn pass_greater(&self, words: &[u32], i: usize, run: &[u32]) -> usize
        ensures { Passes (rename_run (new_of self.now)) words.now (first_word run.now) i result }
    {
        let word = word_of(words, i);
        if word.len() < 2 || self.compare_first(&word[..2], run).is_le() {
            return i;
        }
        pair_end(words, i, word[0], word[1])
    }

    // The words in all the slots, renamed, counted against the first word that a run spells.
    fn rank_of(&self, words: &[u32], run: &[u32]) -> Rank
        ensures { Ranks (first_word run.now) (map (rename_run (new_of self.now)) (slot_words words.now)) result }
    {
        let mut counted = Rank { less: 0, upto: 0 };
        let mut i = 0;
        // No range: words that are passed over move i on by more than one.
        while i < words.len() / SLOT {
            let next = self.pass_greater(words, i, run);
            if i < next {
                i = next;
            } else {
                counted.note(self.compare_first(word_of(words, i), run));
                i += 1;
            }
        }
        counted
    }

    // Whether the words in all the slots, renamed and sorted, come after a run, if a few words of the run tell.
    // Word i of the sorted list comes after a word if at most i words come up to it; otherwise it is that word, if at most i come before it.
    fn is_above(&self, words: &[u32], run: &[u32]) -> bool
        ensures { Above (new_of self.now) words.now run.now result }
    {
        let mut rest = run;
        for i in 0..TRIES.min(words.len() / SLOT) {
            let counted = self.rank_of(words, rest);
            if counted.upto <= i {
                return true;
            }
            if i < counted.less {
                return false;
            }
            let Some(end) = place_of(rest, 0) else {
                return false;
            };
            rest = &rest[end + 1..];
        }
        false
    }

    // Whether renaming number c surely makes a greater equation than one whose left side is a run: both lists come after it.
    pub fn is_greater(&self, u: &[u32], v: &[u32], c: usize, run: &[u32]) -> bool
        ensures { Exceeds (new_of self.now) u.now v.now c run.now result }
    {
        c != 0 && self.is_above(u, run) && self.is_above(v, run)
    }
}
