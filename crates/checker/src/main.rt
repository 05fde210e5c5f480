// CHECK on standard input, with 64 output bytes.
#![tactic(auto)]

ghost use Rattle.text.specs.Prints.{Prints};
ghost use Rattle.checking.specs.Check.{program};

use checking::entry;
use std::io::{self, Read, Write};
use text::answer::outcome::printed;

const OUTPUT: usize = 64;

// What the program prints, at the front of the output: the answer, or two lines with the refusal's number. Both programs do it by `printed`, each
// for its own entry.
fn respond(input: &[u8], output: &mut [u8; OUTPUT]) -> usize
    ensures { Prints (program input.now) output.new result }
{
    let number = entry::check(input, output);
    printed(number, output)
}

// One byte more than a derivation may have is read, so that a longer input is seen to be too long.
fn main(rt: HostRuntime) -> io::Result<()> {
    let mut input = Vec::new(rt.alloc());
    rt.stdin().take(8193).read_to_end(&mut input)?;
    let mut output = [0; OUTPUT];
    let length = respond(&input, &mut output);
    rt.stdout().write_all(&output[..length])
}
