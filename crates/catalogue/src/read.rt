// The texts of a put and of a withdrawal.
ghost use Rattle.std.specs.Prelude.{◌≤◌, length, MatchOption};
ghost use Rattle.search.specs.Index.{SLOT};
ghost use Rattle.catalogue.specs.Promises.{Unnumbered, NumberAt, Unkeyed, KeyAt, ReadsPut, ReadsWithdrawal};

use crate::kind::Key;
use text::job::accept::read_job;
use text::job::keyed;
use text::job::lines::limit_line;
use text::job::side::Run;
use text::refusal::Refusal;

// The most bytes of a text.
const LONGEST: usize = 1024;

// The largest number of an entry.
const LARGEST: u32 = 999;

// Number and key of a put, and left's run.
#[derive(Drop)]
pub struct Put {
    pub number: u32,
    pub key: Key,
    pub left: Run,
}

// The number in the first line of a text, from 1 to `LARGEST`, and what follows the line.
fn number_line(s: &[u8]) -> Option<(u32, &[u8])>
    ensures { MatchOption result (Unnumbered s.now) (λ v. NumberAt s.now v.0 v.1.now) }
{
    let (n, rest) = limit_line(s, b"number=")?;
    if !(1..=LARGEST).contains(&n) {
        return None;
    }
    Some((n, rest))
}

// The key in the first line of a text, and what follows the line.
fn key_line(s: &[u8]) -> Option<(Key, &[u8])>
    ensures { MatchOption result (Unkeyed s.now) (λ v. KeyAt s.now v.0 v.1.now) }
{
    let (value, rest) = keyed(s, b"key=")?;
    let key = if value == b"raw".as_slice() {
        Key::Raw
    } else if value == b"words".as_slice() {
        Key::Words
    } else {
        return None;
    };
    Some((key, rest))
}

// A put: refusals 1 to 6. The run of right is kept in a slot.
pub fn read_put(s: &[u8], rights: &mut [u32]) -> Result<Put, Refusal>
    requires { SLOT ≤ length rights.old }
    ensures { ReadsPut s.now result rights.new }
{
    if LONGEST < s.len() {
        return Err(Refusal::Malformed);
    }
    let (number, rest) = number_line(s).ok_or(Refusal::Malformed)?;
    let (key, rest) = key_line(rest).ok_or(Refusal::Malformed)?;
    let left = read_job(rest, rights)?.left;
    Ok(Put { number, key, left })
}

// A withdrawal: refusal 1.
pub fn read_withdrawal(s: &[u8]) -> Result<u32, Refusal>
    ensures { ReadsWithdrawal s.now result }
{
    if LONGEST < s.len() {
        return Err(Refusal::Malformed);
    }
    let (n, rest) = number_line(s).ok_or(Refusal::Malformed)?;
    if !rest.is_empty() {
        return Err(Refusal::Malformed);
    }
    Ok(n)
}
