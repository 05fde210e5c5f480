// What hosts call as C functions, each over the function of puvainy that has its name, with the same contract. The archive for hosts
// is built of this crate, and no crate can call its functions.
#![tactic(auto)]

ghost use Rattle.std.specs.Prelude.{length};
ghost use Rattle.text.specs.Words.{words_entry};
ghost use Rattle.text.specs.Rename.{rename_entry};
ghost use Rattle.text.specs.Same.{same_entry};
ghost use Rattle.text.specs.Entry.{Call, FindCall};
ghost use Rattle.checking.specs.Claims.{CheckCall};
ghost use Rattle.catalogue.specs.Texts.{put_text, withdraw_text};
ghost use Rattle.catalogue.specs.Stored.{SentCall};
ghost use Rattle.weigh.specs.Answered.{WeighCall};

// FIND. The workspace holds the noted terms, 40 numbers to a slot.
#[unsafe(no_mangle)]
pub extern "C" fn puvainy_find(job: &[u8], output: &mut [u8], workspace: &mut [u32]) -> usize
    ensures { FindCall job.now output.old workspace.old result output.new workspace.new }
{
    puvainy::puvainy_find(job, output, workspace)
}

// WORDS.
#[unsafe(no_mangle)]
pub extern "C" fn puvainy_words(job: &[u8], output: &mut [u8]) -> usize
    ensures { Call (words_entry job.now (length output.old)) output.old result output.new }
{
    puvainy::puvainy_words(job, output)
}

// RENAME.
#[unsafe(no_mangle)]
pub extern "C" fn puvainy_rename(job: &[u8], output: &mut [u8]) -> usize
    ensures { Call (rename_entry job.now (length output.old)) output.old result output.new }
{
    puvainy::puvainy_rename(job, output)
}

// CHECK.
#[unsafe(no_mangle)]
pub extern "C" fn puvainy_check(text: &[u8], output: &mut [u8]) -> usize
    ensures { CheckCall text.now output.old result output.new }
{
    puvainy::puvainy_check(text, output)
}

// PUT. The catalogue is a buffer of 346,113 numbers, of which zeros are an empty one.
#[unsafe(no_mangle)]
pub extern "C" fn puvainy_put(text: &[u8], catalogue: &mut [u32]) -> usize
    ensures { SentCall (put_text text.now) catalogue.old result catalogue.new }
{
    puvainy::puvainy_put(text, catalogue)
}

// WITHDRAW.
#[unsafe(no_mangle)]
pub extern "C" fn puvainy_withdraw(text: &[u8], catalogue: &mut [u32]) -> usize
    ensures { SentCall (withdraw_text text.now) catalogue.old result catalogue.new }
{
    puvainy::puvainy_withdraw(text, catalogue)
}

// SAME.
#[unsafe(no_mangle)]
pub extern "C" fn puvainy_same(job: &[u8], output: &mut [u8]) -> usize
    ensures { Call (same_entry job.now (length output.old)) output.old result output.new }
{
    puvainy::puvainy_same(job, output)
}

// WEIGH. The workspace holds the noted terms, as FIND's does.
#[unsafe(no_mangle)]
pub extern "C" fn puvainy_weigh(job: &[u8], output: &mut [u8], workspace: &mut [u32]) -> usize
    ensures { WeighCall job.now output.old workspace.old result output.new workspace.new }
{
    puvainy::puvainy_weigh(job, output, workspace)
}
