// The list of stored calls: where its records start, and what stands in them.
ghost use Rattle.std.specs.Prelude.{◌≡◌, ◌-◌, ◌<◌, ◌≤◌, length, drop};
ghost use Rattle.replay.specs.Records.{Reads, entry_of, number_of, due_in, IsEnd};
ghost use Rattle.replay.specs.Dirt.{over};

use std::fmt;

// The entry that a stored call is made of.
#[derive(Clone, Copy, Debug, PartialEq, Eq)]
pub enum Entry {
    Find,
    Words,
    Rename,
    Check,
    Put,
    Withdraw,
    Same,
    Weigh,
    // Any other number; such a call is made of CHECK.
    Other(usize),
}

impl From<usize> for Entry {
    ghost from_gives = { λ n e. e ≡ entry_of n };

    fn from(number: usize) -> Entry {
        match number {
            1 => Entry::Find,
            2 => Entry::Words,
            3 => Entry::Rename,
            4 => Entry::Check,
            5 => Entry::Put,
            6 => Entry::Withdraw,
            7 => Entry::Same,
            8 => Entry::Weigh,
            _ => Entry::Other(number),
        }
    }
}

// The number that stands for the entry in the list.
impl From<Entry> for usize {
    ghost from_gives = { λ entry n. n ≡ number_of entry };

    fn from(entry: Entry) -> usize {
        match entry {
            Entry::Find => 1,
            Entry::Words => 2,
            Entry::Rename => 3,
            Entry::Check => 4,
            Entry::Put => 5,
            Entry::Withdraw => 6,
            Entry::Same => 7,
            Entry::Weigh => 8,
            Entry::Other(number) => number,
        }
    }
}

impl fmt::Display for Entry {
    fn fmt<W: fmt::Write>(&self, f: &mut fmt::Formatter<W>) -> fmt::Result {
        write!(f, "{}", usize::from(*self))
    }
}

// A stored call.
#[derive(Clone, Copy)]
pub struct Record<'a> {
    pub entry: Entry,
    pub slots: usize,
    pub room: usize,
    // The number to return, or none (in the list, 0) where it follows from the answer's length.
    pub number: Option<usize>,
    pub job: &'a [u8],
    pub answer: &'a [u8],
}

// The decimal number at the front of a list, and the list behind the byte that ends it; of a long one, the first six digits.
fn number(list: &[u8]) -> (usize, &[u8])
    ensures small { result.0 ≤ 9999999 }
    ensures end { IsEnd list.now result.1.now }
    ensures shorter { length result.1.now ≤ length list.now - 1 }
{
    let mut value: usize = 0;
    for (i, byte) in list.iter().enumerate() {
        if !byte.is_ascii_digit() || 99999 < value {
            return (value, &list[i + 1..]);
        }
        value = value * 10 + usize::from(*byte - b'0');
    }
    (value, &list[list.len()..])
}

// What a call is to return, by the number stored for it: none where it is to answer.
fn due_in(stored: usize) -> Option<usize>
    ensures { result ≡ due_in stored }
{
    (stored != 0).then_some(stored)
}

// The record that starts the list, and the list behind it.
pub fn read(list: &[u8]) -> Option<(Record<'_>, &[u8])>
    ensures { Reads list.now result }
{
    if list.is_empty() {
        return None;
    }
    let (entry, rest) = number(list);
    let (slots, rest) = number(rest);
    let (room, rest) = number(rest);
    let (job_length, rest) = number(rest);
    let (stored, rest) = number(rest);
    let (answer_length, rest) = number(rest);
    let (job, rest) = rest.split_at_checked(job_length)?;
    let (answer, rest) = rest.split_at_checked(answer_length)?;
    let record = Record {
        entry: Entry::from(entry),
        slots,
        room,
        number: due_in(stored),
        job,
        answer,
    };
    Some((record, rest))
}

// No record is longer: one that starts as far before the end of a part of the list is whole.
const LONGEST: usize = 40960;

// Up to where the records that start in a part are whole. The last part leaves room behind it.
pub fn starts_up_to(end: usize, size: usize) -> usize
    ensures { result ≤ end }
{
    if end < size {
        end
    } else {
        end.saturating_sub(LONGEST)
    }
}

// Moves the bytes from a position on to the front, and answers how many they are.
pub fn move_to_front(s: &mut [u8], from: usize) -> usize
    ensures { (result ≡ length s.old - from) × (s.new ≡ over (drop from s.old) s.old) }
{
    let from = from.min(s.len());
    s.copy_within(from.., 0);
    s.len() - from
}
