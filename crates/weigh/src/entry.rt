// WEIGH: a job's text comes in, and the answer's bytes go out at the front of the output, as FIND's do.
ghost use Rattle.weigh.specs.Answered.{WeighCall, WeighGives};

use crate::answer::answer_weigh;
use crate::job::read_weigh;
use text::refusal::{Refusal, returned};

// The answer: how long it is.
fn answer_job(job: &[u8], output: &mut [u8], workspace: &mut [u32]) -> Result<usize, Refusal>
    ensures { WeighGives job.now output.old workspace.old result output.new workspace.new }
{
    let read = read_weigh(job)?;
    answer_weigh(&read, output, workspace)
}

// WEIGH. The workspace holds the noted terms, 40 numbers to a slot.
pub fn weigh(job: &[u8], output: &mut [u8], workspace: &mut [u32]) -> usize
    ensures { WeighCall job.now output.old workspace.old result output.new workspace.new }
{
    returned(answer_job(job, output, workspace))
}
