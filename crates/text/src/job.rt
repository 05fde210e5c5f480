// The job's text: the bytes, numbers, lines and items that begin it.
ghost use Rattle.std.specs.Prelude.{◌≡◌, ◌+◌, ◌≤◌, ◌<◌, ◌==◌, [], ◌∷◌, position};
ghost use Rattle.text.specs.Bytes.{digits, read_number};
ghost use Rattle.text.specs.Marks.{mark};
ghost use Rattle.text.specs.TermText.{letter_of};
ghost use Rattle.text.specs.Reading.{Cuts, Stands, Items, Values, limited};

use terms::term::{ADD, FIXED, MUL, ONE, ZERO};

// A job accepted or refused.
pub mod accept;

// The lines of a job.
pub mod lines;

// Its right sides.
pub mod rights;

// A side of an equation.
pub mod side;

// It as it is written.
pub mod written;

// The largest number of a v letter, and of a c letter.
const LARGEST_VARIABLE: u32 = 999;

const LARGEST_FIXED: u32 = 99;

// The signs of a term.
#[derive(Clone, Copy, PartialEq, Eq)]
pub enum Sign {
    Plus,
    Times,
    Variable,
    Fixed,
}

// A byte of a term. No Option of three kinds: the scope document has four, of which foul is one.
#[derive(Clone, Copy, PartialEq, Eq)]
pub enum Mark {
    Sign(Sign),
    Digit(u8),
    Space,
    Foul,
}

// Why a text is no number that is allowed.
#[derive(Clone, Copy, PartialEq, Eq, Debug)]
pub enum NumberError {
    TooLarge,
    Malformed,
}

// What a byte of a term is.
#[tactic(auto, using(crate::proofs::Marking::by_value), unfolding(crate::specs::Marks::mark))]
pub fn mark_of(b: u8) -> Mark
    ensures { result ≡ mark b }
{
    match b {
        b'+' => Mark::Sign(Sign::Plus),
        b'*' => Mark::Sign(Sign::Times),
        b'v' => Mark::Sign(Sign::Variable),
        b'c' => Mark::Sign(Sign::Fixed),
        b'0'..=b'9' => Mark::Digit(b - b'0'),
        b' ' => Mark::Space,
        _ => Mark::Foul,
    }
}

// Digits as a number. Once it is above the largest allowed it stays as it is. By hand: the library reads a sign, too, and fails on long ones.
fn digits(text: &[u8], most: u32) -> Result<u32, NumberError>
    requires { most ≤ 4096 }
    ensures { result ≡ limited most (digits 0 text.now) }
{
    let mut n: u32 = 0;
    for b in text {
        let Mark::Digit(d) = mark_of(*b) else {
            return Err(NumberError::Malformed);
        };
        if n <= most {
            n = n * 10 + u32::from(d);
        }
    }
    if n <= most {
        Ok(n)
    } else {
        Err(NumberError::TooLarge)
    }
}

// The number that a text is, without a needless leading zero.
#[tactic(auto, using(crate::proofs::Numbers::number_read))]
pub fn number(text: &[u8], most: u32) -> Result<u32, NumberError>
    requires { most ≤ 4096 }
    ensures { result ≡ limited most (read_number text.now) }
{
    match text {
        [] => Err(NumberError::Malformed),
        [_] => digits(text, most),
        [b'0', ..] => Err(NumberError::Malformed),
        _ => digits(text, most),
    }
}

// Where a byte stands first.
fn place_of(s: &[u8], b: u8) -> Option<usize>
    ensures { result ≡ position (λ x. x == b) s.now }
{
    s.iter().position(|x| *x == b)
}

// The text up to the next of a byte, and what follows that.
pub fn up_to(s: &[u8], b: u8) -> Option<(&[u8], &[u8])>
    ensures { Cuts s.now b result }
{
    let end = place_of(s, b)?;
    Some((&s[..end], &s[end + 1..]))
}

// The value of the line with a key that begins a text, and what follows the line.
pub fn keyed<'a>(s: &'a [u8], key: &[u8]) -> Option<(&'a [u8], &'a [u8])>
    ensures { Values s.now key.now result }
{
    up_to(s.strip_prefix(key)?, b'\n')
}

// An item of one byte, as a number of a run.
#[tactic(auto, using(crate::proofs::Reading::one_byte, crate::proofs::Reading::no_atom), unfolding(terms::specs::Numbers::token))]
fn sign_item(b: u8) -> Option<u32>
    ensures { Items (b ∷ []) result }
{
    match mark_of(b) {
        Mark::Sign(Sign::Plus) => Some(ADD),
        Mark::Sign(Sign::Times) => Some(MUL),
        Mark::Sign(Sign::Variable) => None,
        Mark::Sign(Sign::Fixed) => None,
        Mark::Digit(0) => Some(ZERO),
        Mark::Digit(1) => Some(ONE),
        Mark::Digit(_) => None,
        Mark::Space => None,
        Mark::Foul => None,
    }
}

// The letter of a kind whose number a text is: `first` is the kind's letter 0, `most` its largest number.
fn letter(text: &[u8], first: u32, most: u32) -> Option<u32>
    requires { first + most < 4096 }
    ensures { Stands (letter_of first most (read_number text.now)) result }
{
    Some(first + number(text, most).ok()?)
}

// An item of a term, as a number of a run.
pub fn item(text: &[u8]) -> Option<u32>
    ensures { Items text.now result }
{
    match text {
        [] => None,
        [b] => sign_item(*b),
        [b, name @ ..] => {
            let kind = mark_of(*b);
            if kind == Mark::Sign(Sign::Variable) {
                letter(name, 0, LARGEST_VARIABLE)
            } else if kind == Mark::Sign(Sign::Fixed) {
                letter(name, FIXED, LARGEST_FIXED)
            } else {
                None
            }
        }
    }
}
