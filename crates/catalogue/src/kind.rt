// The key of an entry, and the two lists of numbers that stand for its lines.
ghost use Rattle.std.specs.Prelude.{◌≡◌};
ghost use Rattle.words.specs.Making.{made, lent};
ghost use Rattle.catalogue.specs.Promises.{number_of, MakesLists};

use text::answer::Sides;
use words::candidate::words::canonical_words;
use words::candidate::{Equation, canonical_terms};
use words::same::same_words;

// Each with the number that stands for it in a place.
#[derive(Clone, Copy, PartialEq, Eq)]
pub enum Key {
    Raw = 0,
    Words = 1,
}

impl From<Key> for u32 {
    ghost from_gives = { λ key n. n ≡ number_of key };

    fn from(key: Key) -> u32 {
        key as u32
    }
}

// The lists for the lines of a key: the renamed sides, or the renamed lists of words, of which there are none where the words agree: two
// empty lists then stand in the place.
pub fn lists_of(key: Key, sides: Sides<'_>, lists: &mut Equation<'_, '_>)
    ensures made { MakesLists key sides.entry.left.now sides.entry.right.now (made lists.old).room (made lists.new).sides }
    ensures lent { lent lists.new ≡ lent lists.old }
{
    let Sides { left, right } = sides;
    match key {
        Key::Raw => canonical_terms(left, right, lists),
        Key::Words if same_words(left, right) => lists.clear(),
        Key::Words => canonical_words(left, right, lists),
    }
}
