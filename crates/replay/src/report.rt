// What is printed. After a write that failed nothing more is written, and `end` answers why.
use std::fmt::Display;
use std::io::{self, Print, Stdout};

#[derive(Clone, Copy)]
pub struct Report {
    to: Stdout,
    outcome: io::Result<()>,
}

impl Report {
    pub fn new(to: Stdout) -> Report {
        Report {
            to,
            outcome: Ok(()),
        }
    }

    // The buffer of a print is not laid on the stack beside a call's: no caller takes it in.
    #[inline(never)]
    pub fn print<D: Display + Drop>(&mut self, text: D) {
        if self.outcome.is_ok() {
            self.outcome = self.to.print(text);
        }
    }

    pub fn end(self) -> io::Result<()> {
        self.outcome
    }
}
