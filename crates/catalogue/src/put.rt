// An entry put into a catalogue.
ghost use Rattle.std.specs.Prelude.{◌<◌, ◌+◌};
ghost use Rattle.text.specs.Refusal.{number_returned};
ghost use Rattle.catalogue.specs.Catalogue as abstract;
ghost use Rattle.catalogue.specs.Promises.{PutsAt, PutsLists, PutsEquation};

use crate::kind::{Key, lists_of};
use crate::places::{
    COUNT, FREE, Kind, LENGTH, Place, ROOM, has_another, place_of, set_count, store,
};
use text::answer::Sides;
use text::refusal::Refusal;
use words::candidate::Equation;
use words::normal_form::ROOM as WORDS;

// The entry stored in a place, which is free, and the kept count after that.
fn put_at(catalogue: &mut [u32; LENGTH], place: Place, n: u32, kind: Kind<'_>) -> usize
    ensures within { place < abstract.PLACES }
    ensures stored { PutsAt catalogue.old place n kind.entry.key kind.entry.left.now kind.entry.right.now (100 + result) catalogue.new }
{
    let known = has_another(catalogue, None, kind);
    let count = catalogue[COUNT];
    store(catalogue, place, n, kind);
    set_count(catalogue, if known { count } else { count.wrapping_add(1) })
}

// Number, key and sides go side by side: a put that was read holds left alone, since right stays in its slot.

// The lists of an equation's lines made, and the entry stored in a place. Lists that no place has room for are refused; no job has such.
fn put_lists(
    catalogue: &mut [u32; LENGTH],
    place: Place,
    n: u32,
    key: Key,
    sides: Sides<'_>,
) -> Result<usize, Refusal>
    ensures { PutsLists catalogue.old place n key sides.entry.left.now sides.entry.right.now (number_returned result) catalogue.new }
{
    let (mut a, mut b) = ([0u32; WORDS], [0u32; WORDS]);
    let mut lists = Equation::new(&mut a, &mut b);
    lists_of(key, sides, &mut lists);
    let (left, right) = (lists.left(), lists.right());
    if ROOM < left.len() || ROOM < right.len() {
        return Err(Refusal::CatalogueFull);
    }
    let kind = Kind {
        key: u32::from(key),
        left,
        right,
    };
    Ok(put_at(catalogue, place, n, kind))
}

// The equation of two terms put under a number and a key into the first free place: refusals 13 and 15, before any renaming.
pub fn put_equation(
    catalogue: &mut [u32; LENGTH],
    n: u32,
    key: Key,
    sides: Sides<'_>,
) -> Result<usize, Refusal>
    requires { 0 < n }
    ensures { PutsEquation catalogue.old n key sides.entry.left.now sides.entry.right.now (number_returned result) catalogue.new }
{
    if place_of(catalogue, n).is_some() {
        return Err(Refusal::NumberTaken);
    }
    let place = place_of(catalogue, FREE).ok_or(Refusal::CatalogueFull)?;
    put_lists(catalogue, place, n, key, sides)
}
