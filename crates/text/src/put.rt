// What is put as text: numbers, terms and lists of words.
ghost use Rattle.std.specs.Prelude.{◌≡◌, ℕ, List, ◌∷◌, [], ◌++◌, map, suc, ◌-◌};
ghost use Rattle.terms.specs.Term.{Term};
ghost use Rattle.terms.specs.Held.{IsRun};
ghost use Rattle.words.specs.Words.{Word};
ghost use Rattle.words.specs.Spelled.{spelled};
ghost use Rattle.text.specs.Answer.{yes_no};
ghost use Rattle.text.specs.Bytes.{number, parted};
ghost use Rattle.text.specs.TermText.{write_letter, write_term};
ghost use Rattle.text.specs.Items.{sign_of, item, gap};
ghost use Rattle.text.specs.Words.{word, word_list};
ghost use Rattle.text.specs.Put.{Put};
ghost use Rattle.text.specs.Writer.{Writes, SameOutput};

use crate::writer::{Writer, store_three};
use terms::term::{ADD, FIXED, ONE, ZERO};

// A value that is put as text.
pub trait Text {
    // which text stands for the value
    ghost shows: { Self → List ℕ → Type 0 };

    fn put(&self, w: &mut Writer<'_>)
        ensures { (t : List ℕ) → shows self.now t → Writes t w.old w.new };
}

// Bytes stand for themselves.
impl<const N: usize> Text for [u8; N] {
    ghost shows = { λ s t. t ≡ s };

    fn put(&self, w: &mut Writer<'_>) {
        w.put_bytes(self);
    }
}

// And so do the bytes of a slice, whose length is known only when it runs.
impl<'a> Text for &'a [u8] {
    ghost shows = { λ s t. t ≡ s.now };

    fn put(&self, w: &mut Writer<'_>) {
        w.put_bytes(*self);
    }
}

// A number in decimal.
impl Text for usize {
    ghost shows = { λ n t. t ≡ number n };

    fn put(&self, w: &mut Writer<'_>) {
        w.put_number(*self);
    }
}

// A test's answer.
impl Text for bool {
    ghost shows = { λ yes t. t ≡ yes_no yes };

    fn put(&self, w: &mut Writer<'_>) {
        if *self {
            w.put_bytes(b"yes");
        } else {
            w.put_bytes(b"no");
        }
    }
}

// The term of a run.
#[derive(Clone, Copy)]
pub struct TermOf<'a>(pub &'a [u32]);

impl<'a> Text for TermOf<'a> {
    ghost shows = { λ run t. (s : Term) × IsRun run.0.now s × (t ≡ write_term s) };

    fn put(&self, w: &mut Writer<'_>) {
        put_term(w, self.0);
    }
}

// The words of a spelled list.
#[derive(Clone, Copy)]
pub struct WordsOf<'a>(pub &'a [u32]);

impl<'a> Text for WordsOf<'a> {
    ghost shows = { λ list t. (ws : List Word) × (list.0.now ≡ spelled ws) × (t ≡ word_list ws) };

    fn put(&self, w: &mut Writer<'_>) {
        put_words(w, self.0);
    }
}

// A text at the front of an output: where it ends.
pub fn put_in_front<T: Text>(text: &T, out: &mut [u8]) -> usize
    ensures { (t : List ℕ) → T.shows text.now t → Put t out.old 0 result out.new }
{
    let mut w = Writer::new(out);
    text.put(&mut w);
    w.at
}

// A letter by its number.
fn put_any_letter(w: &mut Writer<'_>, n: u32)
    ensures { Writes (write_letter n) w.old w.new }
{
    if n < FIXED {
        w.put_byte(b'v');
        w.put_number(n as usize);
    } else {
        w.put_byte(b'c');
        w.put_number((n - FIXED) as usize);
    }
}

// The same: most are v letters of one digit, which is put without the number's recursion.
fn put_letter(w: &mut Writer<'_>, n: u32)
    ensures { Writes (write_letter n) w.old w.new }
{
    if n < 10 {
        w.put_byte(b'v');
        w.put_byte(b'0' + n as u8);
    } else {
        put_any_letter(w, n);
    }
}

// The byte of a run's number that is no letter.
#[tactic(auto, using(crate::proofs::Items::sign_mul), unfolding(crate::specs::Items::sign_of))]
fn sign_of(n: u32) -> u8
    ensures { result ≡ sign_of n }
{
    match n {
        ZERO => b'0',
        ONE => b'1',
        ADD => b'+',
        _ => b'*',
    }
}

// The item of a run's number.
fn put_item(w: &mut Writer<'_>, n: u32)
    ensures { Writes (item n) w.old w.new }
{
    if n < ZERO {
        put_letter(w, n);
    } else {
        w.put_byte(sign_of(n));
    }
}

// A term's text: its items, parted by one space.
pub fn put_term(w: &mut Writer<'_>, run: &[u32])
    ensures same { SameOutput w.old w.new }
    ensures text { (t : Term) → IsRun run.now t → Writes (write_term t) w.old w.new }
{
    for (i, n) in run.iter().enumerate() {
        w.put_gap(i, b' ');
        put_item(w, *n);
    }
}

// Letter i of a word in an output from a place on, with a space before it unless it is the first: where it ends.
fn put_next_letter(out: &mut [u8], at: usize, i: usize, n: u32) -> usize
    ensures { Put (gap 32 i ++ write_letter n) out.old at result out.new }
{
    if 0 < i && n < 10 {
        store_three(out, at, b' ', b'v', b'0' + n as u8);
        return at.saturating_add(3);
    }
    let mut w = Writer { buf: out, at };
    w.put_gap(i, b' ');
    put_letter(&mut w, n);
    w.at
}

// The letters of a word, each plus 1, in an output from a place on: where they end. The place goes by value: a writer's lies in memory, and would be
// read and stored anew for each letter, which is slower.
fn put_letters(out: &mut [u8], at: usize, letters: &[u32]) -> usize
    ensures { Put (parted 32 (map (λ n. write_letter (n - 1)) letters.now)) out.old at result out.new }
{
    let mut place = at;
    for (i, n) in letters.iter().enumerate() {
        place = put_next_letter(out, place, i, n.saturating_sub(1));
    }
    place
}

// A word by its letters, each plus 1: parted by one space, and the empty word `1`.
pub fn put_word(w: &mut Writer<'_>, letters: &[u32])
    ensures same { SameOutput w.old w.new }
    ensures text { (v : Word) → letters.now ≡ map suc v → Writes (word v) w.old w.new }
{
    if letters.is_empty() {
        w.put_byte(b'1');
        return;
    }
    let at = w.at;
    w.at = put_letters(w.buf, at, letters);
}

// The words of a spelled list, each ended by 0, parted by `;`: no words are `0`. An iterator over the pieces would
// leave each its 0, or end with a piece that is no word.
pub fn put_words(w: &mut Writer<'_>, list: &[u32])
    ensures same { SameOutput w.old w.new }
    ensures text { (ws : List Word) → list.now ≡ spelled ws → Writes (word_list ws) w.old w.new }
{
    if list.is_empty() {
        w.put_byte(b'0');
        return;
    }
    let mut rest = list;
    let mut count = 0;
    while let Some(end) = rest.iter().position(|n| *n == 0) {
        w.put_gap(count, b';');
        put_word(w, &rest[..end]);
        rest = &rest[end + 1..];
        count += 1;
    }
}
