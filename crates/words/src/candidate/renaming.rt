// New numbers for names. A number that is not among them stays, as c letters do.
ghost use Rattle.std.specs.Prelude.{◌≡◌, ◌==◌, ◌<◌, length, position, IfSome};
ghost use Rattle.std.proofs.lemmas.List.Edits.{sets};
ghost use Rattle.words.specs.Rename.{renamed};
ghost use Rattle.words.specs.RenameRun.{rename_number, rename_run, Tabled};

use terms::term::ZERO;

// How many numbers have their new numbers in a table.
pub const SMALL: usize = 16;

// The first place of a number.
pub fn place_of(xs: &[u32], x: u32) -> Option<usize>
    ensures is { result ≡ position (λ y. x == y) xs.now }
    ensures within { IfSome result (λ i. i < length xs.now) }
{
    xs.iter().position(|y| x == *y)
}

// The new numbers of the small numbers: their own, but for the names among them. Of names that are the same the first counts, so they are
// gone through from the last on.
fn small_numbers(names: &[u32], numbers: &[u32]) -> [u32; SMALL]
    ensures { Tabled (renamed names.now numbers.now) result }
{
    let mut table = std::array::from_fn(|x| x as u32);
    for i in (0..names.len().min(numbers.len())).rev() {
        let name = names[i] as usize;
        if name < SMALL {
            table[name] = numbers[i];
        }
    }
    table
}

// The names, the numbers beside them, and the new numbers of the small numbers.
#[derive(Drop)]
pub struct Renaming<'a> {
    names: &'a [u32],
    numbers: &'a [u32],
    table: [u32; SMALL],
    ghost tabled: { Tabled (renamed names.now numbers.now) table },
}

impl<'a> Renaming<'a> {
    ghost use Rattle.words.specs.Renaming.{new_of};

    pub fn new(names: &'a [u32], numbers: &'a [u32]) -> Self
        ensures { new_of result ≡ renamed names.now numbers.now }
    {
        Renaming {
            names,
            numbers,
            table: small_numbers(names, numbers),
        }
    }

    // The number beside a name, or the name itself if it is not listed.
    pub fn new_name(&self, x: u32) -> u32
        ensures { result ≡ new_of self.now x }
    {
        match place_of(self.names, x) {
            Some(i) => self.numbers.get(i).copied().unwrap_or(x),
            None => x,
        }
    }

    // The new name of a letter; another number stays.
    fn new_number(&self, x: u32) -> u32
        ensures { result ≡ rename_number (new_of self.now) x }
    {
        if x < ZERO { self.new_name(x) } else { x }
    }

    // The new number of another.
    pub fn number(&self, x: u32) -> u32
        ensures { result ≡ rename_number (new_of self.now) x }
    {
        match self.table.get(x as usize) {
            Some(y) => *y,
            None => self.new_number(x),
        }
    }

    // A run renamed into a buffer, as far as it fits.
    pub fn rename(&self, run: &[u32], out: &mut [u32])
        ensures { out.new ≡ sets out.old 0 (rename_run (new_of self.now) run.now) }
    {
        for i in 0..run.len().min(out.len()) {
            out[i] = self.number(run[i]);
        }
    }
}
