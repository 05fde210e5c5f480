// The least equation over all renamings of its v letters.
ghost use Rattle.std.specs.Prelude.{◌≡◌, ℕ, ◌+◌, ◌-◌, ◌≤◌, length, take};
ghost use Rattle.terms.specs.Compare.{order_numbers};
ghost use Rattle.terms.specs.Equation.{orient};
ghost use Rattle.terms.specs.Promises.{ordering_of, in_order_of};
ghost use Rattle.words.specs.Decoded.{decoded, factorial, renaming, least_to};
ghost use Rattle.words.specs.RenameRun.{rename_run};
ghost use Rattle.words.specs.Renaming.{new_of};
ghost use Rattle.words.specs.Candidate.{Sides, Room, ordered, Keeps, KeepsLesser, Tries, Offers, Finds, CanonicalTerms};
ghost use Rattle.words.specs.Making.{made, lent};

// The same for lists of words.
pub mod words;

// Renamed lists of words set against a run.
pub mod rank;

// A renaming, and runs renamed.
pub mod renaming;

// An equation of two runs in the making.
mod making;

use super::normal_form::front;
pub use making::Equation;
use renaming::Renaming;
use std::cmp::Ordering;
use terms::candidate::arranged;
use terms::term;

// The most v letters that are renamed.
pub const MOST_VARIABLES: usize = 6;

// The most nodes of a term.
const NODES: usize = 31;

// The factorials up to that of MOST_VARIABLES.
const FACTORIALS: [usize; 7] = [1, 1, 2, 6, 24, 120, 720];

// How many permutations k numbers have.
pub fn factorial(k: usize) -> usize
    requires { k ≤ MOST_VARIABLES }
    ensures { result ≡ factorial k }
{
    FACTORIALS[k]
}

// Permutation number c of the k numbers from i on, at the front of a buffer.
pub fn permutation(c: usize, k: usize, i: u32, out: &mut [u32])
    requires { (k ≤ length out.old) × (i + k ≤ MOST_VARIABLES) }
    ensures { take k out.new ≡ decoded k i c }
{
    if k == 0 {
        return;
    }
    permutation(c / k, k - 1, i + 1, out);
    term::shift(&mut out[..k], c % k, i);
}

// Terms and lists of words are compared each by a function of their own: that of lists tells the place too, which means nothing in a term's run,
// where 0 is v0.
trait Compared {
    // Which of two runs comes first.
    fn compare(a: &[u32], b: &[u32]) -> Ordering
        ensures { ordering_of result ≡ order_numbers a.now b.now };
}

// Two lent runs, the smaller first: as they came if they are equal.
fn in_order<'a, S: Compared>(a: &'a [u32], b: &'a [u32]) -> (&'a [u32], &'a [u32])
    ensures { result ≡ in_order_of (order_numbers a.now b.now) a.entry b.entry }
{
    arranged(S::compare(a, b), a, b)
}

// Which of two equations comes first, by left side, then right.
fn compare_equations<S: Compared>(a: &[u32], b: &[u32], c: &[u32], d: &[u32]) -> Ordering
    ensures { ordering_of result ≡ ordered a.now b.now c.now d.now }
{
    S::compare(a, c).then_with(|| S::compare(b, d))
}

impl Equation<'_, '_> {
    // Two runs kept, the smaller on the left; nothing where there is no room.
    fn keep<'b, S: Compared>(&mut self, x: &'b [u32], y: &'b [u32])
        ensures kept { Keeps x.now y.now (made self.old).room (made self.new).sides }
        ensures lent { lent self.new ≡ lent self.old }
    {
        let (left, right) = in_order::<S>(x, y);
        self.store(left, right);
    }

    // Two runs kept in place of the equation so far, if they make a lesser one.
    fn keep_lesser<'b, S: Compared>(&mut self, x: &'b [u32], y: &'b [u32])
        ensures kept { KeepsLesser x.now y.now (made self.old).room (made self.old).sides (made self.new).sides }
        ensures lent { lent self.new ≡ lent self.old }
    {
        let (s, t) = in_order::<S>(x, y);
        if compare_equations::<S>(self.left(), self.right(), s, t).is_gt() {
            self.store(s, t);
        }
    }

    // Two runs tried as candidate number c: kept if it is the first, or makes a lesser equation than the best so far.
    fn offer<'b, S: Compared>(&mut self, x: &'b [u32], y: &'b [u32], c: usize)
        ensures tried { Tries x.now y.now c (made self.old).room (made self.old).sides (made self.new).sides }
        ensures lent { lent self.new ≡ lent self.old }
    {
        if c == 0 {
            self.keep::<S>(x, y);
        } else {
            self.keep_lesser::<S>(x, y);
        }
    }
}

// What is renamed: each renaming makes an equation of two runs of it.
trait Renamed {
    ghost equation: { Self → (ℕ → ℕ) → Sides };

    // Whether so much room is enough for them.
    ghost is_room: { Self → ℕ → Type 0 };

    // The equation by a renaming tried as candidate number c.
    // The number stands beside `best`: by it the contract says of which candidates `best` is the least, and at 0 that it holds none yet.
    fn offer(&mut self, renaming: &Renaming, c: usize, best: &mut Equation<'_, '_>)
        ensures tried { Offers (is_room self.old (made best.old).room) (equation self.old) (new_of renaming.now) c (made best.old).sides (made best.new).sides }
        ensures lent { lent best.new ≡ lent best.old }
        ensures same { equation self.new ≡ equation self.old }
        ensures roomy { (n : ℕ) → is_room self.old n → is_room self.new n };
}

// The least equation over all renamings of the names.
fn least_renaming<S: Renamed>(sides: &mut S, names: &[u32], best: &mut Equation<'_, '_>)
    requires { length names.now ≤ MOST_VARIABLES }
    ensures found { Finds (S.is_room sides.old (made best.old).room) (least_to order_numbers (λ c. S.equation sides.old (renaming names.now c)) (factorial (length names.now) - 1)) (made best.new).sides }
    ensures lent { lent best.new ≡ lent best.old }
{
    let k = names.len();
    let mut numbers = [0u32; MOST_VARIABLES];
    for c in 0..factorial(k) {
        permutation(c, k, 0, &mut numbers);
        sides.offer(&Renaming::new(names, &numbers[..k]), c, best);
    }
}

// Two terms, by their runs.
#[derive(Drop)]
struct Terms<'a> {
    a: &'a [u32],
    b: &'a [u32],
}

impl<'a> Compared for Terms<'a> {
    fn compare(a: &[u32], b: &[u32]) -> Ordering
        ensures { ordering_of result ≡ order_numbers a.now b.now }
    {
        term::compare(a, b)
    }
}

impl<'a> Renamed for Terms<'a> {
    ghost equation = { λ s new. orient order_numbers (rename_run new s.a.now) (rename_run new s.b.now) };

    ghost is_room = { λ s. Room 31 s.a.now s.b.now };

    // The buffers have room for the runs of terms of 31 nodes: of longer ones `front` takes what fits.
    fn offer(&mut self, renaming: &Renaming, c: usize, best: &mut Equation<'_, '_>) {
        let mut x = [0u32; NODES];
        let mut y = [0u32; NODES];
        renaming.rename(self.a, &mut x);
        renaming.rename(self.b, &mut y);
        best.offer::<Self>(front(&x, self.a.len()), front(&y, self.b.len()), c);
    }
}

// The least equation over all renamings of the v letters of two terms; nothing if there are more than six. No Option: nothing stands
// where there is no room, too, and an accepted job meets neither.
// A side of 31 nodes wants 31 numbers of room.
pub fn canonical_terms(a: &[u32], b: &[u32], best: &mut Equation<'_, '_>)
    ensures found { CanonicalTerms a.now b.now (made best.old).room (made best.new).sides }
    ensures lent { lent best.new ≡ lent best.old }
{
    let mut names = [0u32; MOST_VARIABLES];
    match term::variables(a, b, &mut names) {
        Some(k) => least_renaming(&mut Terms { a, b }, &names[..k], best),
        None => best.clear(),
    }
}
