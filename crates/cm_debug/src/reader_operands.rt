//! The operands of a line: first the number that a word writes, then what that number stands for.

ghost use Rattle.std.specs.Prelude.{◌≡◌, ◌<◌, ◌≤◌, ◌^◌, IfOk};
ghost use Rattle.cm_bits.specs.Field.{field_fault};
ghost use Rattle.cm_session.specs.Operands.{number_in_word, below_limit, one_bit, place, command_field_unless};
ghost use Rattle.cm_session.specs.Operands.{pokeable};

use cm_bits::{Addr, Field, FieldFault, FlagNo, Place, Proc, read_number};
use cm_session::Refusal;

/// The number that a word writes. A word that writes none is refused.
pub fn number(word: &[u8]) -> Result<u64, Refusal>
    ensures value { result ≡ number_in_word word.now }
{
    read_number(word).ok_or(Refusal::Number)
}

/// The index of one of so many acts.
pub fn index(number: u64, count: usize) -> Result<usize, Refusal>
    ensures value { result ≡ below_limit count number }
{
    let small = below(number, count as u64)?;
    Ok(small as usize)
}

/// A chip of a cube of that many dimensions.
pub fn chip(number: u64, dimensions: usize) -> Result<u16, Refusal>
    requires dimension { dimensions ≤ 12 }
    ensures value { result ≡ below_limit (2 ^ dimensions) number }
{
    let chip = below(number, 1 << dimensions)?;
    Ok(chip as u16)
}

/// A processor of a cube of that many dimensions: its chip is judged before its own number.
pub fn place(chip_number: u64, proc: u64, dimensions: usize) -> Result<Place, Refusal>
    requires dimension { dimensions ≤ 12 }
    ensures value { result ≡ place dimensions chip_number proc }
{
    let chip = chip(chip_number, dimensions)?;
    let number = below(proc, 16)?;
    match Proc::new(number as u8) {
        Some(proc) => Ok(Place { chip, proc }),
        None => Err(Refusal::Range),
    }
}

/// The flag of a number below 16. A larger number is refused.
pub fn flag(number: u64) -> Result<FlagNo, Refusal>
    ensures value { result ≡ below_limit 16 number }
{
    let flag = below(number, 16)?;
    FlagNo::new(flag as u8).ok_or(Refusal::Range)
}

/// The memory address of a number below 4096. A larger number is refused.
pub fn address(number: u64) -> Result<Addr, Refusal>
    ensures value { result ≡ below_limit 4096 number }
{
    let address = below(number, 4096)?;
    Addr::new(address as u16).ok_or(Refusal::Range)
}

/// The bit of 0 or 1. A larger number is refused.
pub fn bit(number: u64) -> Result<bool, Refusal>
    ensures value { result ≡ one_bit number }
{
    let bit = below(number, 2)?;
    Ok(bit == 1)
}

/// The field of an address and a length, of which none is cut to fewer bits.
pub fn field(at: u64, len: u64) -> Result<Field, Refusal>
    ensures value { result ≡ command_field_unless at len (field_fault at len) }
{
    if len == 0 || len > 64 {
        return Err(Refusal::Width);
    }
    if at > 4096 {
        return Err(Refusal::Range);
    }
    match Field::new(at as u16, len as u16) {
        Ok(field) => Ok(field),
        Err(FieldFault::Width) => Err(Refusal::Width),
        Err(FieldFault::Range) => Err(Refusal::Range),
    }
}

/// The flag itself, where a bit can be put into it.
pub fn pokeable(flag: FlagNo) -> Result<FlagNo, Refusal>
    ensures value { result ≡ pokeable flag }
{
    if flag == FlagNo::ZERO {
        return Err(Refusal::ZeroFlag);
    }
    Ok(flag)
}

fn below(number: u64, limit: u64) -> Result<u64, Refusal>
    ensures value { result ≡ below_limit limit number }
    ensures inside { IfOk result (λ small. small < limit) }
{
    if number < limit {
        Ok(number)
    } else {
        Err(Refusal::Range)
    }
}
