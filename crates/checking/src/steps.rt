// The step lines of a derivation, one after the other.
ghost use Rattle.std.specs.Prelude.{length};

use crate::line::{Step, step_line};

// The lines that a text is.
#[derive(Clone, Copy)]
pub struct StepLines<'a> {
    pub text: &'a [u8],
}

impl<'a> Iterator for StepLines<'a> {
    ghost use Rattle.std.specs.Iterator.{at_most};
    ghost use Rattle.checking.specs.LineRead.{NextLine};

    type Item = Step<'a>;

    ghost next_gives = { λ s line t. NextLine s.text.now line t.text.now };

    ghost remaining = { λ s. at_most (length s.text.now) };

    fn next(&mut self) -> Option<Step<'a>> {
        let (step, rest) = step_line(self.text)?;
        self.text = rest;
        Some(step)
    }
}
