// Counts of calls: how many, how many that differ, and for each entry its answers and refusals.
ghost use Rattle.std.specs.Prelude.{◌≡◌, ◌<◌, ℕ};
ghost use Rattle.replay.specs.Tally.{count_at, one_more, refusal, place, counted};

use crate::call::Fault;
use crate::record::Record;
use std::fmt;
use text::refusal::ANSWERED;

const ROWS: usize = 9;

const COLUMNS: usize = 17;

// A row and a column each: where all calls are counted, and where those that differ. They stand in the table, so that one function counts.
const CALLS: (usize, usize) = (0, 0);

const DIFFERENCES: (usize, usize) = (0, 1);

// Nothing is counted beyond.
const MOST: u32 = 1000000;

// The row of an entry's number counts its answers in column 0 and each refusal in the column of its number; row 0 is of
// all entries.
#[derive(Clone, Copy)]
pub struct Tally {
    pub counts: [[u32; COLUMNS]; ROWS],
}

// The number of a refusal, or 0 for an answer: of PUT and WITHDRAW, an answer has the stored number 100 or more.
fn refusal_of(number: Option<usize>) -> usize
    ensures { result ≡ refusal number }
{
    match number {
        Some(n) if n < ANSWERED => n,
        _ => 0,
    }
}

// Where a call is counted by its entry and what it is to give: with all calls where one of them is too large.
fn place_of(call: &Record<'_>) -> (usize, usize)
    ensures place { result ≡ place call.now.entry call.now.number }
    ensures row { result.0 < ROWS }
    ensures column { result.1 < COLUMNS }
{
    let row = usize::from(call.entry);
    let column = refusal_of(call.number);
    if row < ROWS && column < COLUMNS {
        (row, column)
    } else {
        CALLS
    }
}

impl Tally {
    pub fn new() -> Tally
        ensures { (row column : ℕ) → count_at row column result ≡ 0 }
    {
        Tally {
            counts: [[0; COLUMNS]; ROWS],
        }
    }

    pub fn calls(&self) -> u32
        ensures { result ≡ count_at 0 0 self.now }
    {
        self.counts[0][0]
    }

    pub fn differences(&self) -> u32
        ensures { result ≡ count_at 0 1 self.now }
    {
        self.counts[0][1]
    }

    fn add_one(&mut self, place: (usize, usize))
        requires row { place.0 < ROWS }
        requires column { place.1 < COLUMNS }
        ensures { self.new ≡ one_more place self.old }
    {
        let (row, column) = place;
        let n = self.counts[row][column];
        if n < MOST {
            self.counts[row][column] = n + 1;
        }
    }

    pub fn count(&mut self, call: &Record<'_>, held: Result<(), Fault>)
        ensures { self.new ≡ counted call.now held self.old }
    {
        self.add_one(CALLS);
        self.add_one(place_of(call));
        if held.is_err() {
            self.add_one(DIFFERENCES);
        }
    }
}

const NAMES: [&str; 8] = [
    "find", "words", "rename", "check", "put", "withdraw", "same", "weigh",
];

impl fmt::Display for Tally {
    fn fmt<W: fmt::Write>(&self, f: &mut fmt::Formatter<W>) -> fmt::Result {
        writeln!(f, "calls={}", self.calls())?;
        writeln!(f, "differences={}", self.differences())?;
        for (name, row) in NAMES.iter().zip(&self.counts[1..]) {
            write!(f, "{name} answers={}", row[0])?;
            for (number, count) in row.iter().enumerate().skip(1) {
                write!(f, " refused_{number}={count}")?;
            }
            writeln!(f)?;
        }
        Ok(())
    }
}
