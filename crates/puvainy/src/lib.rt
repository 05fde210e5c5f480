// The eight entries, each over the function below with the same contract. Hosts call them as C functions, which are in the crate
// puvainy_c: no crate can call those, so both stand.
#![tactic(auto)]

ghost use Rattle.std.specs.Prelude.{length};
ghost use Rattle.text.specs.Words.{words_entry};
ghost use Rattle.text.specs.Rename.{rename_entry};
ghost use Rattle.text.specs.Same.{same_entry};
ghost use Rattle.text.specs.Entry.{Call, FindCall};
ghost use Rattle.checking.specs.Claims.{CheckCall};
ghost use Rattle.catalogue.specs.Texts.{put_text, withdraw_text};
ghost use Rattle.catalogue.specs.Stored.{SentCall};
ghost use Rattle.weigh.specs.Answered.{WeighCall};

use catalogue::entry::{put, withdraw};
use checking::entry::check;
use text::entry;
use weigh::entry::weigh;

// FIND. The workspace holds the noted terms, 40 numbers to a slot.
pub fn puvainy_find(job: &[u8], output: &mut [u8], workspace: &mut [u32]) -> usize
    ensures { FindCall job.now output.old workspace.old result output.new workspace.new }
{
    entry::find(job, output, workspace)
}

// WORDS.
pub fn puvainy_words(job: &[u8], output: &mut [u8]) -> usize
    ensures { Call (words_entry job.now (length output.old)) output.old result output.new }
{
    entry::words(job, output)
}

// RENAME.
pub fn puvainy_rename(job: &[u8], output: &mut [u8]) -> usize
    ensures { Call (rename_entry job.now (length output.old)) output.old result output.new }
{
    entry::rename(job, output)
}

// CHECK.
pub fn puvainy_check(text: &[u8], output: &mut [u8]) -> usize
    ensures { CheckCall text.now output.old result output.new }
{
    check(text, output)
}

// PUT. The catalogue is a buffer of 346,113 numbers, of which zeros are an empty one.
pub fn puvainy_put(text: &[u8], catalogue: &mut [u32]) -> usize
    ensures { SentCall (put_text text.now) catalogue.old result catalogue.new }
{
    put(text, catalogue)
}

// WITHDRAW.
pub fn puvainy_withdraw(text: &[u8], catalogue: &mut [u32]) -> usize
    ensures { SentCall (withdraw_text text.now) catalogue.old result catalogue.new }
{
    withdraw(text, catalogue)
}

// SAME.
pub fn puvainy_same(job: &[u8], output: &mut [u8]) -> usize
    ensures { Call (same_entry job.now (length output.old)) output.old result output.new }
{
    entry::same(job, output)
}

// WEIGH. The workspace holds the noted terms, as FIND's does.
pub fn puvainy_weigh(job: &[u8], output: &mut [u8], workspace: &mut [u32]) -> usize
    ensures { WeighCall job.now output.old workspace.old result output.new workspace.new }
{
    weigh(job, output, workspace)
}
