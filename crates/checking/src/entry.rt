// CHECK: a derivation's text comes in, and the answer goes out at the front of the output.
// A number below 100 is a refusal's; otherwise it is 100 plus the answer's length.
ghost use Rattle.std.specs.Prelude.{◌≡◌, IfOk};
ghost use Rattle.text.specs.Refusal.{number_returned};
ghost use Rattle.checking.specs.Check.{good};
ghost use Rattle.checking.specs.Claims.{CheckCall};

use super::judge::judge;
use text::answer::answered;
use text::put::Text;
use text::refusal::{Refusal, returned};
use text::writer::Writer;

// The answer.
struct Good;

impl Text for Good {
    ghost shows = { λ _ t. t ≡ good };

    fn put(&self, w: &mut Writer<'_>) {
        w.line(b"answer=", b"good");
    }
}

// The length of the answer, where the text is a derivation and there is room.
fn answer(text: &[u8], output: &mut [u8]) -> Result<usize, Refusal>
    ensures call { CheckCall text.now output.old (number_returned result) output.new }
    ensures length { IfOk result (λ n. n ≡ 12) }
{
    judge(text)?;
    answered(&Good, output)
}

pub fn check(text: &[u8], output: &mut [u8]) -> usize
    ensures { CheckCall text.now output.old result output.new }
{
    returned(answer(text, output))
}
