// FIND on standard input, with 400 slots and 32,768 output bytes.
#![tactic(auto)]

ghost use Rattle.text.specs.Entry.{program};
ghost use Rattle.text.specs.Prints.{Prints};

use std::io::{self, Read, Write};
use text::answer::outcome::printed;
use text::entry;

// 400 slots.
const WORKSPACE: usize = 16000;

const OUTPUT: usize = 32768;

// What the program prints, at the front of the output: the answer, or two lines with the refusal's number. Both programs do it by `printed`, each
// for its own entry.
fn respond(input: &[u8], output: &mut [u8; OUTPUT], workspace: &mut [u32; WORKSPACE]) -> usize
    ensures { Prints (program input.now) output.new result }
{
    let number = entry::find(input, output, workspace);
    printed(number, output)
}

// One byte more than a job may have is read, so that a longer input is seen to be too long.
fn main(rt: HostRuntime) -> io::Result<()> {
    let mut input = Vec::new(rt.alloc());
    rt.stdin().take(4097).read_to_end(&mut input)?;
    let mut output = [0; OUTPUT];
    let mut workspace = [0; WORKSPACE];
    let length = respond(&input, &mut output, &mut workspace);
    rt.stdout().write_all(&output[..length])
}
