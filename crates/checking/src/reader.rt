// Terms read one at a time.
ghost use Rattle.std.specs.Prelude.{◌≡◌, ◌<◌, length, MatchOption};
ghost use Rattle.std.proofs.Math.Option.{none};
ghost use Rattle.text.specs.TermText.{read_term};
ghost use Rattle.checking.specs.LinesRead.{ReadsTerm};

use text::job::side::read_term;

// Lent room for the items of any term in a text of fewer bytes than it has numbers. A text needs it once, however many lines it has. It goes
// beside the step lines and not in one struct with them: it is room and no part of the derivation, and of such a struct each contract would
// have to say that the lines stay.
#[derive(Drop)]
pub struct Reader<'a> {
    pub numbers: &'a mut [u32],
}

impl<'a> Reader<'a> {
    ghost use Rattle.std.specs.Borrow.{sem};
    ghost use Rattle.checking.specs.Room.{LendsTheSame};

    // The run of the term that a text spells.
    pub fn read(&mut self, text: &[u8]) -> Option<&[u32]>
        requires { length text.now < length self.old.numbers.now }
        ensures run { MatchOption result (read_term text.now ≡ none) (λ run. ReadsTerm text.now run.now) }
        ensures* room { sem 𝓛 (LendsTheSame self.entry) }
    {
        let n = read_term(text, self.numbers)?;
        // Out of the reader as a whole, of which the clause on its room speaks.
        let reader = &*self;
        Some(&reader.numbers[..n])
    }
}
