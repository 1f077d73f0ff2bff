//! Lines of tables that tell what is counted, as texts.

ghost use Rattle.std.specs.Prelude.{◌≡◌, ◌++◌, ◌/◌, ◌%◌, OnOk};
ghost use Rattle.lab_counts.specs.Tables.{last_digit, last_two, hundredths_text, counted_line, counted_lines};

use crate::crossings::Crossings;
use cm_bits::NoMemory;
use lab_digits::{push_byte, push_number, push_piece};

/// A line for each of these dimensions or chips, numbered from 0 on, under a load of this rate. An error leaves open
/// how much of that is written.
pub fn push_counted_lines(
    text: &mut Vec<u8>,
    rate: u16,
    known: &[Crossings],
) -> Result<(), NoMemory>
    ensures ok { OnOk result (text.new.items ≡ text.old.items ++ counted_lines rate 0 known.now) }
{
    for (k, crossings) in known.iter().enumerate() {
        push_counted(text, rate, k, *crossings)?;
    }
    Ok(())
}

/// The line of one of them.
#[tactic(auto, unfolding(crate::specs::Tables::counted_line))]
fn push_counted(
    text: &mut Vec<u8>,
    rate: u16,
    k: usize,
    crossings: Crossings,
) -> Result<(), NoMemory>
    ensures ok { OnOk result (text.new.items ≡ text.old.items ++ counted_line rate k crossings) }
{
    push_hundredths(text, u128::from(rate))?;
    push_number(text, k, b',')?;
    push_number(text, crossings.crossed, b',')?;
    push_number(text, crossings.referred, b',')?;
    push_number(text, crossings.refused, b'\n')
}

/// So many hundredths, and a comma. An error leaves open how much of that is written.
pub fn push_hundredths(text: &mut Vec<u8>, number: u128) -> Result<(), NoMemory>
    ensures ok { OnOk result (text.new.items ≡ text.old.items ++ hundredths_text number) }
{
    push_number(text, number / 100, b'.')?;
    push_last_two(text, number)?;
    push_byte(text, b',')
}

/// The last two digits of a number. An error leaves open how much of that is written.
pub fn push_last_two(text: &mut Vec<u8>, number: u128) -> Result<(), NoMemory>
    ensures ok { OnOk result (text.new.items ≡ text.old.items ++ last_two number) }
{
    push_last_digit(text, number / 10)?;
    push_last_digit(text, number)
}

/// The last digit of a number. An error leaves open how much of that is written.
pub fn push_last_digit(text: &mut Vec<u8>, number: u128) -> Result<(), NoMemory>
    ensures ok { OnOk result (text.new.items ≡ text.old.items ++ last_digit number) }
{
    push_piece(text, b"", number % 10)
}
