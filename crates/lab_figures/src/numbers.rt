//! Texts of numbers: reading and writing them.

ghost use Rattle.std.specs.Prelude.{◌≡◌, ◌≢◌, ◌<◌, ◌≤◌, ◌++◌, ◌∷◌, [], ◌^◌, nat_lt, Ok, Err, IfOk, IfErr, OnOk, length};
ghost use Rattle.cm_bits.specs.Text.{words_of};
ghost use Rattle.lab_figures.specs.Numbers.{numbers_after_words, one_number_more, numbers_in, numbers_text};
ghost use Rattle.lab_figures.specs.Numbers.{separator_behind, plural};

use cm_bits::{Lines, NoMemory, Words, read_number};
use lab_digits::push_number;
use std::alloc::Global;
use thiserror::Error;

/// Why a text has not one number for each processor. Lines are counted from 1.
#[derive(Clone, Copy, Debug, PartialEq, Eq, Error)]
pub enum NumbersFault {
    #[error("line {0}: a word that is no number")]
    NotNumber(u64),
    #[error("line {0}: a number that has more bits than the field")]
    TooLarge(u64),
    #[error("line {0}: more numbers than processors")]
    TooMany(u64),
    #[error("only {0} number{ending}", ending = plural(.0))]
    TooFew(u64),
    #[error("out of memory")]
    Memory,
}

impl From<NoMemory> for NumbersFault {
    ghost use Rattle.std.specs.Prelude.{◌≡◌};
    ghost use Rattle.lab_figures.specs.declared.numbers.NumbersFault.TheVariants.{Memory};

    ghost from_gives = { λ _ fault. fault ≡ Memory };

    fn from(_: NoMemory) -> NumbersFault {
        NumbersFault::Memory
    }
}

/// What a noun ends in that so many are counted of.
fn plural(count: &u64) -> &'static str
    ensures value { result.now ≡ plural count.now }
{
    if *count == 1 { "" } else { "s" }
}

/// The numbers of a text, which is to have so many, each of so many bits.
pub fn read_numbers(
    alloc: Global,
    text: &[u8],
    len: u16,
    count: usize,
) -> Result<Vec<u64>, NumbersFault>
    ensures value { IfOk result (λ numbers. numbers_in len count text.now ≡ Ok numbers.items) }
    ensures count { IfOk result (λ numbers. length numbers.items ≡ count) }
    ensures refused { IfErr result (λ fault. fault ≢ NumbersFault.Memory → numbers_in len count text.now ≡ Err fault) }
{
    let Ok(mut numbers) = Vec::with_capacity(alloc, count) else {
        return Err(NumbersFault::Memory);
    };
    let mut line = 0;
    for bytes in Lines::new(text) {
        line += 1;
        match push_words(&mut numbers, bytes, len, count, line) {
            Ok(()) => {}
            Err(fault) => return Err(fault),
        }
    }
    if numbers.len() == count {
        Ok(numbers)
    } else {
        Err(NumbersFault::TooFew(numbers.len() as u64))
    }
}

/// The numbers of a line more.
fn push_words(
    numbers: &mut Vec<u64>,
    bytes: &[u8],
    len: u16,
    count: usize,
    line: u64,
) -> Result<(), NumbersFault>
    ensures ok { OnOk result (numbers_after_words len count line numbers.old.items (words_of bytes.now)
        ≡ Ok numbers.new.items) }
    ensures err { IfErr result (λ fault. fault ≢ NumbersFault.Memory
        → numbers_after_words len count line numbers.old.items (words_of bytes.now) ≡ Err fault) }
{
    for word in Words::new(bytes) {
        match push_one(numbers, read_number(word), len, count, line) {
            Ok(()) => {}
            Err(fault) => return Err(fault),
        }
    }
    Ok(())
}

/// One number more, if it is one.
fn push_one(
    numbers: &mut Vec<u64>,
    number: Option<u64>,
    len: u16,
    count: usize,
    line: u64,
) -> Result<(), NumbersFault>
    ensures ok { OnOk result (one_number_more len count line numbers.old.items number ≡ Ok numbers.new.items) }
    ensures err { IfErr result (λ fault. fault ≢ NumbersFault.Memory
        → one_number_more len count line numbers.old.items number ≡ Err fault) }
{
    let Some(number) = number else {
        return Err(NumbersFault::NotNumber(line));
    };
    if !is_within(number, len) {
        return Err(NumbersFault::TooLarge(line));
    }
    if numbers.len() >= count {
        return Err(NumbersFault::TooMany(line));
    }
    match numbers.push(number) {
        Ok(()) => Ok(()),
        Err(_) => Err(NumbersFault::Memory),
    }
}

/// Whether a number has at most so many bits.
fn is_within(number: u64, len: u16) -> bool
    ensures value { result ≡ nat_lt number (2 ^ len) }
{
    if len >= 64 {
        return true;
    }
    number >> len == 0
}

/// Numbers in lines of so many.
pub fn write_numbers(alloc: Global, numbers: &[u64], width: usize) -> Result<Vec<u8>, NoMemory>
    requires some { 0 < width }
    ensures value { IfOk result (λ text. text.items ≡ numbers_text width 0 numbers.now) }
{
    let mut text = Vec::new(alloc);
    for index in 0..numbers.len() {
        push_number(&mut text, numbers[index], behind(width, index))?;
    }
    Ok(text)
}

/// What stands behind a number, where so many stand before it.
fn behind(width: usize, before: usize) -> u8
    requires some { 0 < width }
    requires within { before < 18446744073709551615 }
    ensures value { result ≡ separator_behind width before }
{
    if (before + 1) % width == 0 {
        b'\n'
    } else {
        b' '
    }
}
