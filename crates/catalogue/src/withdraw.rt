// An entry withdrawn from a catalogue.
ghost use Rattle.std.specs.Prelude.{◌<◌, ◌+◌};
ghost use Rattle.text.specs.Refusal.{number_returned};
ghost use Rattle.catalogue.specs.Promises.{Shares, TakesOut, WithdrawsEntry};

use crate::places::{
    COUNT, FREE, KEY, Kind, LEFT, LEFT_LENGTH, LENGTH, Place, RIGHT, RIGHT_LENGTH, ROOM,
    has_another, place_of, set_count,
};
use text::refusal::Refusal;

// Whether another place has an entry of the kind that a place has. Lengths that no list has are left uncompared.
fn is_shared(catalogue: &[u32; LENGTH], place: Place) -> bool
    ensures { Shares catalogue.now place result }
{
    let at = place.start();
    let left = catalogue[at + LEFT_LENGTH] as usize;
    let right = catalogue[at + RIGHT_LENGTH] as usize;
    if ROOM < left || ROOM < right {
        return true;
    }
    let kind = Kind {
        key: catalogue[at + KEY],
        left: &catalogue[at + LEFT..at + LEFT + left],
        right: &catalogue[at + RIGHT..at + RIGHT + right],
    };
    has_another(catalogue, Some(place), kind)
}

// A place freed, and the kept count after that.
fn take_out(catalogue: &mut [u32; LENGTH], place: Place) -> usize
    ensures { TakesOut catalogue.old place (100 + result) catalogue.new }
{
    let shared = is_shared(catalogue, place);
    let count = catalogue[COUNT];
    catalogue[place.start()] = FREE;
    set_count(
        catalogue,
        if shared { count } else { count.wrapping_sub(1) },
    )
}

// The entry with a number withdrawn: refusal 14.
pub fn withdraw_entry(catalogue: &mut [u32; LENGTH], n: u32) -> Result<usize, Refusal>
    requires { 0 < n }
    ensures { WithdrawsEntry catalogue.old n (number_returned result) catalogue.new }
{
    let place = place_of(catalogue, n).ok_or(Refusal::NumberUnknown)?;
    Ok(take_out(catalogue, place))
}
