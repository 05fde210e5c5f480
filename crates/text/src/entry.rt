// FIND, WORDS, RENAME and SAME: a job's text comes in, and the answer's bytes go out at the front of the output.
// A number below 100 is a refusal's; otherwise it is 100 plus the answer's length.
// Job, output and workspace stand side by side, each a buffer of its own that the host lends, as the C functions take them.
ghost use Rattle.std.specs.Prelude.{length};
ghost use Rattle.text.specs.Words.{words_entry};
ghost use Rattle.text.specs.Rename.{rename_entry};
ghost use Rattle.text.specs.Same.{same_entry};
ghost use Rattle.text.specs.Entry.{Call, FindCall, FindGives, AnswersJob};

use crate::answer::Sides;
use crate::answer::find::answer_find;
use crate::answer::lists::answer_words;
use crate::answer::rename::answer_rename;
use crate::answer::same::answer_same;
use crate::job::accept::{MOST_RIGHTS, read_find, read_job};
use crate::refusal::{Refusal, returned};
use search::slots::{Runs, SLOT, run_of};

// The numbers in the slots of all right sides.
const ROOM: usize = SLOT * MOST_RIGHTS;

// FIND's answer: how long it is.
fn answer_jobs(job: &[u8], output: &mut [u8], workspace: &mut [u32]) -> Result<usize, Refusal>
    ensures { FindGives job.now output.old workspace.old result output.new workspace.new }
{
    let mut rights = [0u32; ROOM];
    let read = read_find(job, &mut rights)?;
    let right_sides = Runs {
        slots: &rights,
        count: read.rights,
    };
    answer_find(
        read.left.numbers(),
        right_sides,
        read.limits,
        output,
        workspace,
    )
}

// The answer to a job with one right side, from the runs of its sides: how long it is.
fn answer_job<F: FnOnce(Sides<'_>, &mut [u8]) -> Result<usize, Refusal>>(
    job: &[u8],
    output: &mut [u8],
    answer: F,
) -> Result<usize, Refusal>
    requires { F.IsAlwaysCallable answer }
    ensures { AnswersJob (F.post answer) job.now output.old result output.new }
{
    let mut rights = [0u32; SLOT];
    let read = read_job(job, &mut rights)?;
    let sides = Sides {
        left: read.left.numbers(),
        right: run_of(&rights, 0),
    };
    answer(sides, output)
}

// FIND. The workspace holds the noted terms, 40 numbers to a slot.
pub fn find(job: &[u8], output: &mut [u8], workspace: &mut [u32]) -> usize
    ensures { FindCall job.now output.old workspace.old result output.new workspace.new }
{
    returned(answer_jobs(job, output, workspace))
}

// WORDS.
pub fn words(job: &[u8], output: &mut [u8]) -> usize
    ensures { Call (words_entry job.now (length output.old)) output.old result output.new }
{
    returned(answer_job(job, output, answer_words))
}

// RENAME.
pub fn rename(job: &[u8], output: &mut [u8]) -> usize
    ensures { Call (rename_entry job.now (length output.old)) output.old result output.new }
{
    returned(answer_job(job, output, answer_rename))
}

// SAME.
pub fn same(job: &[u8], output: &mut [u8]) -> usize
    ensures { Call (same_entry job.now (length output.old)) output.old result output.new }
{
    returned(answer_job(job, output, answer_same))
}
