// FIND's answer to accepted jobs: the blocks' text, where it fits.
ghost use Rattle.std.specs.Prelude.{◌≡◌, ℕ, ◌≤◌, ◌<◌, length};
ghost use mathlib.Core.List.{List, flat_map};
ghost use Rattle.terms.specs.Term.{Term};
ghost use Rattle.terms.specs.Held.{IsRun};
ghost use Rattle.search.specs.Line as line;
ghost use Rattle.search.specs.Runs.{HeldRuns};
ghost use Rattle.search.specs.Searched.{limits_of, slots_of};
ghost use Rattle.text.specs.Answer.{accepted, fitting};
ghost use Rattle.text.specs.FindJob.{read_find, jobs_of};
ghost use Rattle.text.specs.Find.{block, find};
ghost use Rattle.text.specs.Entry.{Gives};
ghost use Rattle.text.specs.Answering.{AllKnown, runs_out};

use super::answered;
use super::block::{Blocks, Searched};
use crate::job::accept::MOST_RIGHTS;
use crate::refusal::Refusal;
use search::bounded_search::{Ended, Limits, Stop, is_cut, search_bounded_rewrite};
use search::replies::Reply;
use search::slots::Runs;

// Whether a right side has no answer: it is not noted, and the search was not over.
fn runs_out(reply: Reply, ended: Ended) -> bool
    ensures { result ≡ runs_out reply ended }
{
    reply == Reply::Unnoted && ended.stop != Stop::Over
}

// The blocks' text, where it fits. A function of its own: in its caller, where the replies and the workspace were lent for writing before, one
// struct of all four is refused (tried).
fn answer_blocks<'a>(
    left: &'a [u32],
    rights: Runs<'a>,
    replies: &'a [Reply],
    searched: Searched<'a>,
    out: &mut [u8],
) -> Result<usize, Refusal>
    requires { length replies.now ≤ 16 }
    ensures { (s : Term) (ts : List Term) (m : line.Limits) (slots : ℕ) → AllKnown left.now rights.entry.slots.now replies.now searched.entry.ended searched.entry.cut searched.entry.ws.now slots s ts m → Gives (fitting (length out.old) (flat_map (block slots) (jobs_of s ts m))) out.old result out.new }
{
    let blocks = Blocks {
        left,
        rights,
        replies,
        searched,
    };
    answered(&blocks, out)
}

// Searches once, and answers for each of the right sides; where there is one alone, a term without a slot refuses the job.
pub fn answer_find(
    left: &[u32],
    rights: Runs<'_>,
    limits: Limits,
    out: &mut [u8],
    ws: &mut [u32],
) -> Result<usize, Refusal>
    requires { (0 < rights.count) × (rights.count ≤ 16) }
    ensures { (bs : List ℕ) (s : Term) (ts : List Term) (m : line.Limits) → read_find bs ≡ accepted (jobs_of s ts m) → IsRun left.now s → HeldRuns rights.entry.slots.now ts → length ts ≡ rights.entry.count → limits_of limits ≡ m → Gives (find bs (slots_of (length ws.old)) (length out.old)) out.old result out.new }
{
    let mut room = [Reply::Unnoted; MOST_RIGHTS];
    let replies = &mut room[..rights.count];
    let ended = search_bounded_rewrite(left, rights, replies, limits, ws);
    let cut = is_cut(ws, ended, limits);
    let alone = rights.count == 1;
    if alone && runs_out(replies[0], ended) {
        return Err(Refusal::OutOfSlots);
    }
    let searched = Searched { ended, cut, ws };
    answer_blocks(left, rights, replies, searched, out)
}
