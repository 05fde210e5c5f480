// Makes the stored calls of standard input and compares what each gives with its stored answer.
#![tactic(auto)]

mod call;
mod dirt;
mod record;
mod report;
mod tally;

ghost use Rattle.std.specs.Prelude.{◌≤◌, IfOk, length};

use crate::call::{Buffers, Fault};
use crate::record::Entry;
use crate::report::Report;
use crate::tally::Tally;
use catalogue::places::LENGTH;
use std::io::{self, ErrorKind, Read};

const OUTPUT: usize = 32768;

const WORKSPACE: usize = 16040;

// How many bytes of the list are read at a time, and how many times at most.
const PART: usize = 131072;

const PARTS: usize = 64;

// Reads until the buffer is full or the input ends, and answers how many bytes it put at the front.
fn read_full(input: &mut impl Read, buffer: &mut [u8]) -> io::Result<usize>
    ensures { IfOk result (λ n. n ≤ length buffer.new) }
{
    let mut done: usize = 0;
    // A read that is interrupted is made again; one into a full buffer answers 0. The bound, which no input reaches, is
    // there so that the loop is proved to end.
    for _ in 0..u64::MAX {
        match input.read(&mut buffer[done..]) {
            Ok(0) => break,
            Ok(n) => done += n,
            Err(error) if error.kind() == ErrorKind::Interrupted => {}
            Err(error) => return Err(error),
        }
    }
    Ok(done)
}

// What calls are made on, counted in and reported by.
#[derive(Drop)]
struct Replay {
    buffers: Buffers<OUTPUT, WORKSPACE, LENGTH>,
    tally: Tally,
    report: Report,
}

impl Replay {
    // Makes the calls that start before a position of the list's part, and answers how many of its bytes are left. Each
    // finds the workspace and the catalogue as former calls left them, and an output full of other bytes.
    fn replay_part(&mut self, list: &[u8], upto: usize) -> usize
        requires { upto ≤ length list.now }
        ensures { result ≤ length list.now }
    {
        let mut first: u8 = 0;
        let mut rest = list;
        while list.len() - upto < rest.len() {
            let Some((call, behind)) = record::read(rest) else {
                // Nothing of the rest can be read.
                self.report.print("the list breaks off\n");
                return 0;
            };
            let held = self.buffers.replay(&call, first);
            self.tally.count(&call, held);
            if let Err(fault) = held {
                self.report_first(call.entry, fault);
            }
            first = first.wrapping_add(1);
            rest = behind;
        }
        rest.len()
    }

    // Only the first call that differs is printed.
    fn report_first(&mut self, entry: Entry, fault: Fault) {
        if self.tally.differences() == 1 {
            let call = self.tally.calls();
            self.report.print(format_args!("difference: call {call} of entry {entry} {fault}\n"));
        }
    }

    // The list is read part by part; what is not replayed of a part is moved to the front of the next.
    fn replay_list(&mut self, list: &mut impl Read, input: &mut [u8]) -> io::Result<()> {
        dirt::fill(&mut self.buffers.workspace, 7);
        let mut held: usize = 0;
        for _ in 0..PARTS {
            let end = held + read_full(list, &mut input[held..])?;
            let upto = record::starts_up_to(end, input.len());
            let left = self.replay_part(&input[..end], upto);
            if end < input.len() {
                return Ok(());
            }
            held = record::move_to_front(input, end - left);
        }
        self.report.print("the list is too long\n");
        Ok(())
    }
}

fn main(rt: HostRuntime) -> io::Result<()> {
    let mut input = [0u8; PART];
    let mut replay = Replay {
        buffers: Buffers {
            output: [0; OUTPUT],
            workspace: [0; WORKSPACE],
            former: [0; WORKSPACE],
            catalogue: [0; LENGTH],
            before: [0; LENGTH],
        },
        tally: Tally::new(),
        report: Report::new(rt.stdout()),
    };
    replay.replay_list(&mut rt.stdin(), &mut input)?;
    replay.report.print(&replay.tally);
    replay.report.end()
}
