// The orientation of an equation.
ghost use Rattle.std.specs.Prelude.{◌≡◌};
ghost use Rattle.terms.specs.Promises.{ordering_of, in_order_of, InOrder, Smaller};

use crate::term::compare;
use std::cmp::Ordering;

// Two lent runs by what was found of their order: exchanged if the second comes before the first.
pub fn arranged<'a>(found: Ordering, a: &'a [u32], b: &'a [u32]) -> (&'a [u32], &'a [u32])
    ensures { result ≡ in_order_of (ordering_of found) a.entry b.entry }
{
    if found.is_gt() { (b, a) } else { (a, b) }
}

// Two lent runs, as the runs that came in, the smaller first: as they came if they are equal.
pub fn in_order<'a>(a: &'a [u32], b: &'a [u32]) -> (&'a [u32], &'a [u32])
    ensures { InOrder a.now b.now a.entry b.entry result }
{
    arranged(compare(a, b), a, b)
}

// The smaller of two lent runs, as the run that came in: the first if they are equal.
pub fn smaller<'a>(a: &'a [u32], b: &'a [u32]) -> &'a [u32]
    ensures { Smaller a.now b.now a.entry b.entry result }
{
    in_order(a, b).0
}
