// PUT and WITHDRAW: a text comes in, and the catalogue is changed. A number below 100 is a refusal's; otherwise it is 100 plus the count of
// kinds then held.
ghost use Rattle.text.specs.Refusal.{number_returned};
ghost use Rattle.catalogue.specs.Texts.{put_text, withdraw_text};
ghost use Rattle.catalogue.specs.Stored.{SentCall};

use crate::places::LENGTH;
use crate::put::put_equation;
use crate::read::{read_put, read_withdrawal};
use crate::withdraw::withdraw_entry;
use search::slots::{SLOT, run_of};
use text::answer::Sides;
use text::refusal::{Refusal, returned};

// The count of kinds after a put.
fn try_put(text: &[u8], catalogue: &mut [u32]) -> Result<usize, Refusal>
    ensures { SentCall (put_text text.now) catalogue.old (number_returned result) catalogue.new }
{
    let Some(catalogue) = catalogue.as_mut_array::<LENGTH>() else {
        return Err(Refusal::NoCatalogue);
    };
    let mut rights = [0u32; SLOT];
    let put = read_put(text, &mut rights)?;
    let sides = Sides {
        left: put.left.numbers(),
        right: run_of(&rights, 0),
    };
    put_equation(catalogue, put.number, put.key, sides)
}

pub fn put(text: &[u8], catalogue: &mut [u32]) -> usize
    ensures { SentCall (put_text text.now) catalogue.old result catalogue.new }
{
    returned(try_put(text, catalogue))
}

// The count of kinds after a withdrawal.
fn try_withdraw(text: &[u8], catalogue: &mut [u32]) -> Result<usize, Refusal>
    ensures { SentCall (withdraw_text text.now) catalogue.old (number_returned result) catalogue.new }
{
    let Some(catalogue) = catalogue.as_mut_array::<LENGTH>() else {
        return Err(Refusal::NoCatalogue);
    };
    withdraw_entry(catalogue, read_withdrawal(text)?)
}

pub fn withdraw(text: &[u8], catalogue: &mut [u32]) -> usize
    ensures { SentCall (withdraw_text text.now) catalogue.old result catalogue.new }
{
    returned(try_withdraw(text, catalogue))
}
