// A writer: an output, and the place in it where the next byte goes. Text is put as far as the output goes; the place is after the text in any case, so
// that an empty output only measures. It stops at the largest number: no output is as long, so nothing is required of a text's length.
ghost use Rattle.std.specs.Prelude.{◌≡◌, ◌≤◌, ◌<◌, List, ℕ, ◌∷◌, [], ◌++◌, length};
ghost use Rattle.text.specs.Bytes.{number};
ghost use Rattle.text.specs.Items.{gap};
ghost use Rattle.text.specs.Put.{overlay, top};

use crate::put::Text;
use terms::copy::overwrite;

#[derive(Drop)]
pub struct Writer<'a> {
    pub buf: &'a mut [u8],
    pub at: usize,
    ghost place: { at ≤ top },
    ghost room: { length buf.now < top },
}

impl<'a> Writer<'a> {
    ghost use Rattle.text.specs.Writer.{Writes};

    // At the front of an output.
    pub fn new(buf: &'a mut [u8]) -> Writer<'a>
        ensures output { result.buf ≡ buf.entry }
        ensures front { result.at ≡ 0 }
    {
        Writer { buf, at: 0 }
    }

    // One byte. The place is held beside what is stored, or it would be read anew behind it.
    pub fn put_byte(&mut self, b: u8)
        ensures { Writes (b ∷ []) self.old self.new }
    {
        let at = self.at;
        store_byte(self.buf, at, b);
        self.at = at.saturating_add(1);
    }

    // A text of bytes.
    pub fn put_bytes(&mut self, text: &[u8])
        ensures { Writes text.now self.old self.new }
    {
        let at = self.at;
        store(self.buf, at, text);
        self.at = at.saturating_add(text.len());
    }

    // A number in decimal. The library's `write!` would do it by a Result, and tells which digits were written only where that is Ok: nothing says
    // that it is.
    pub fn put_number(&mut self, n: usize)
        ensures { Writes (number n) self.old self.new }
    {
        if 10 <= n {
            self.put_number(n / 10);
        }
        self.put_byte(b'0' + (n % 10) as u8);
    }

    // The byte that parts piece i from the one before it: none before the first.
    pub fn put_gap(&mut self, i: usize, s: u8)
        ensures { Writes (gap s i) self.old self.new }
    {
        if 0 < i {
            self.put_byte(s);
        }
    }

    // A line of an answer: a key, its value and the line's end.
    pub fn line<T: Text>(&mut self, key: &[u8], value: &T)
        ensures { (t : List ℕ) → T.shows value.now t → Writes (key.now ++ (t ++ (10 ∷ []))) self.old self.new }
    {
        self.put_bytes(key);
        value.put(self);
        self.put_byte(b'\n');
    }
}

// What stores knows an output and a place, and no writer: its contracts speak of bytes alone.

// A text in an output from a place on, as far as the output goes.
fn store(out: &mut [u8], at: usize, text: &[u8])
    ensures { out.new ≡ overlay out.old at text.now }
{
    if at < out.len() {
        let n = text.len().min(out.len() - at);
        overwrite(&mut out[at..at + n], &text[..n]);
    }
}

fn store_byte(out: &mut [u8], at: usize, b: u8)
    ensures { out.new ≡ overlay out.old at (b ∷ []) }
{
    if at < out.len() {
        out[at] = b;
    }
}

// Three bytes, at once where they fit: most of a long answer are letters with a space before them, and a copy of so few bytes is slower. Where the
// output has ended nothing is copied: a long answer is measured so.
pub(crate) fn store_three(out: &mut [u8], at: usize, a: u8, b: u8, c: u8)
    ensures { out.new ≡ overlay out.old at (a ∷ b ∷ c ∷ []) }
{
    if out.len() <= at {
        return;
    }
    if 3 <= out.len() - at {
        out[at] = a;
        out[at + 1] = b;
        out[at + 2] = c;
    } else {
        store(out, at, &[a, b, c]);
    }
}
