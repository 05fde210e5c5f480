// The position of a place that a step line names.
ghost use Rattle.std.specs.Prelude.{◌≡◌};
ghost use Rattle.search.specs.Coded.{side_of};
ghost use Rattle.checking.specs.PlaceRead.{named_side, Locates};

use search::chain::{Side, part};

// The side that a byte names.
fn side_in(b: u8) -> Side
    ensures { side_of result ≡ named_side b }
{
    if b == b'l' { Side::Left } else { Side::Right }
}

// The position, in the run of a term, of a place as it is written; somewhere in the run if it is none. A dot is the root.
pub fn position_of(place: &[u8], run: &[u32]) -> Option<usize>
    ensures { Locates place.now run.now result }
{
    let mut at = 0;
    for b in place {
        if *b != b'.' {
            at = part(run, at, side_in(*b))?;
        }
    }
    Some(at)
}
