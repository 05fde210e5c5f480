// One stored call, made with dirty buffers and held to what is stored.
ghost use Rattle.std.specs.Prelude.{◌≡◌};
ghost use Rattle.replay.specs.Calls.{lent_numbers, due_number, changed_to, is_listing, Made, Judged, Faults};

use crate::dirt;
use crate::record::{Entry, Record};
use search::slots::SLOT;
use std::error::Error;
use std::fmt;
use text::refusal::ANSWERED;

// What is not as it is stored.
#[derive(Clone, Copy, Debug, PartialEq, Eq)]
pub enum Fault {
    // The buffers are too small for this call.
    Buffers,
    Number { returned: usize, due: usize },
    Output,
    Workspace,
    Catalogue,
}

impl fmt::Display for Fault {
    fn fmt<W: fmt::Write>(&self, f: &mut fmt::Formatter<W>) -> fmt::Result {
        match self {
            Fault::Buffers => write!(f, "needs larger buffers"),
            Fault::Number { returned, due } => write!(f, "returned {returned}, due {due}"),
            Fault::Output => write!(f, "left other bytes in the output"),
            Fault::Workspace => write!(f, "changed the workspace"),
            Fault::Catalogue => write!(f, "changed the catalogue"),
        }
    }
}

impl Error for Fault {}

// More slots are lent no more numbers.
const MOST_SLOTS: usize = 1000;

const MOST_NUMBERS: usize = 41000;

// The whole slots of a call take 40 numbers each, and some numbers more make no slot.
fn numbers_for(slots: usize) -> usize
    ensures { result ≡ lent_numbers slots }
{
    if MOST_SLOTS < slots {
        MOST_NUMBERS
    } else {
        slots * SLOT + slots % SLOT
    }
}

// The number that the call is to return: the stored one, or 100 and the answer's length.
fn due_number(stored: Option<usize>, answer: &[u8]) -> usize
    ensures { result ≡ due_number stored answer.now }
{
    stored.unwrap_or(ANSWERED + answer.len())
}

// Makes a call of an entry, on those of the buffers that it takes.
fn made(
    entry: Entry,
    job: &[u8],
    output: &mut [u8],
    workspace: &mut [u32],
    catalogue: &mut [u32],
) -> usize
    ensures { Made entry job.now output.old workspace.old catalogue.old result output.new workspace.new catalogue.new }
{
    match entry {
        Entry::Find => puvainy::puvainy_find(job, output, workspace),
        Entry::Words => puvainy::puvainy_words(job, output),
        Entry::Rename => puvainy::puvainy_rename(job, output),
        Entry::Put => puvainy::puvainy_put(job, catalogue),
        Entry::Withdraw => puvainy::puvainy_withdraw(job, catalogue),
        Entry::Same => puvainy::puvainy_same(job, output),
        Entry::Weigh => puvainy::puvainy_weigh(job, output, workspace),
        Entry::Check | Entry::Other(_) => puvainy::puvainy_check(job, output),
    }
}

impl Entry {
    // Where a call that returned a number may have changed the workspace up to: in the lent part by FIND, but not by
    // its refusals 1 to 6, 9 and 10, and by WEIGH, but not by 1 to 6 and 16; nowhere by the others. Refusals stand here
    // by their numbers, as the entries return them.
    fn changed_up_to(self, number: usize, lent: usize) -> usize
        ensures { result ≡ changed_to self number lent }
    {
        match (self, number) {
            (Entry::Find, ..=6 | 9 | 10) => 0,
            (Entry::Weigh, ..=6 | 16) => 0,
            (Entry::Find | Entry::Weigh, _) => lent,
            _ => 0,
        }
    }

    // Whether it may have changed the catalogue: one of PUT or WITHDRAW that is not refused.
    fn is_listing(self, number: usize) -> bool
        ensures { result ≡ is_listing self number }
    {
        ANSWERED <= number && matches!(self, Entry::Put | Entry::Withdraw)
    }
}

// The buffers that calls are made on, of any lengths. The copies are by type as long as what they copy: this program
// alone makes them, and with a shorter copy a call would be held to a part of what was there.
#[derive(Drop)]
pub struct Buffers<const OUTPUT: usize, const WORKSPACE: usize, const CATALOGUE: usize> {
    pub output: [u8; OUTPUT],
    pub workspace: [u32; WORKSPACE],
    // What the workspace held before the call.
    pub former: [u32; WORKSPACE],
    pub catalogue: [u32; CATALOGUE],
    // What the catalogue held before the call.
    pub before: [u32; CATALOGUE],
}

impl<const OUTPUT: usize, const WORKSPACE: usize, const CATALOGUE: usize> Buffers<
    OUTPUT,
    WORKSPACE,
    CATALOGUE,
> {
    // Holds a call that returned a number to what is due of it.
    fn judge(&self, call: &Record<'_>, first: u8, number: usize, lent: usize) -> Result<(), Fault>
        ensures { Judged call.now first number lent self.now result }
    {
        let due = due_number(call.number, call.answer);
        if number != due {
            return Err(Fault::Number {
                returned: number,
                due,
            });
        }
        if !dirt::is_due(&self.output, call.answer, first) {
            return Err(Fault::Output);
        }
        let from = call.entry.changed_up_to(number, lent);
        if !dirt::is_same_from(&self.workspace, &self.former, from) {
            return Err(Fault::Workspace);
        }
        if !call.entry.is_listing(number) && self.catalogue != self.before {
            return Err(Fault::Catalogue);
        }
        Ok(())
    }

    // Makes a call on parts of the buffers that are as long as it says, and holds it to what is stored.
    pub fn replay(&mut self, call: &Record<'_>, first: u8) -> Result<(), Fault>
        ensures { Faults call.now first self.old self.new result }
    {
        let numbers = numbers_for(call.slots);
        if self.output.len() < call.room || self.workspace.len() < numbers {
            return Err(Fault::Buffers);
        }
        dirt::fill(&mut self.output, first);
        self.former.copy_from_slice(&self.workspace);
        self.before.copy_from_slice(&self.catalogue);
        let number = made(
            call.entry,
            call.job,
            &mut self.output[..call.room],
            &mut self.workspace[..numbers],
            &mut self.catalogue,
        );
        self.judge(call, first, number, numbers)
    }
}
