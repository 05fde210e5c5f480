// What becomes of each right side in a search. The right sides stand in slots of their own, with their hashes. The replies are lent beside
// them: of a struct with both each contract would have to say that it lends the same replies still.
ghost use Rattle.std.specs.Prelude.{◌≤◌, length};
ghost use Rattle.search.specs.Law.{semiring};
ghost use Rattle.search.specs.Replied.{Matched, Strikes};

use crate::search;
use crate::search::Law;
use crate::slots::{Runs, has_run};

// What became of a right side: it is not noted, a law matches it and left directly, or it is noted in a slot.
#[derive(Clone, Copy, PartialEq, Eq)]
pub enum Reply {
    Unnoted,
    Direct(Law),
    Noted(u32),
}

// Tells of each right side whether a law matches it and left directly; how many others there are, for which a search has to wait.
#[tactic(auto, using(crate::proofs::Replying::matched_by, crate::proofs::Replying::matched_none, crate::proofs::Replying::matched_all))]
pub fn match_rights(left: &[u32], rights: Runs<'_>, replies: &mut [Reply]) -> usize
    requires { length replies.old ≤ rights.count }
    ensures { Matched semiring left.now rights.entry.slots.now replies.old replies.new result }
{
    let mut waiting = 0;
    for r in 0..replies.len() {
        match search::search_direct_axiom(left, rights.run(r as u32)) {
            Some(law) => replies[r] = Reply::Direct(law),
            None => {
                replies[r] = Reply::Unnoted;
                waiting += 1;
            }
        }
    }
    waiting
}

// Strikes the right sides that wait and have the run `s`, whose hash is `h`, now that it is noted in slot `k`: how many there are. Runs are
// compared only where the hash is the same.
pub fn strike(rights: Runs<'_>, s: &[u32], h: u32, k: u32, replies: &mut [Reply]) -> usize
    requires { length replies.old ≤ rights.count }
    ensures { Strikes rights.entry.slots.now s.now h k replies.old replies.new result }
{
    let mut count = 0;
    for r in 0..replies.len() {
        if has_run(rights.slots, r as u32, s, h) && replies[r] == Reply::Unnoted {
            replies[r] = Reply::Noted(k);
            count += 1;
        }
    }
    count
}
