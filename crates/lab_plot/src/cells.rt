//! The cells of a table's line.

ghost use Rattle.std.specs.Prelude.{◌≡◌, ◌<◌, ◌≤◌, ◌^◌, ◌++◌, ◌==◌, IfSome, OnOk, length};
ghost use Rattle.std.specs.List.{position_or_len, after_first, before_first, list_all, slice_get};
ghost use Rattle.cm_bits.specs.Text.{is_point};
ghost use Rattle.lab_plot.specs.Cells.{trimmed, has_words, is_decimal, cell, digits_of, digit_or_zero};
ghost use Rattle.lab_plot.specs.Cells.{thousandths_behind, whole_and_part, cell_number, is_written, is_cell, width_of};
ghost use Rattle.lab_plot.specs.Cells.{escaped, escaped_byte, shortened};

use cm_bits::{NoMemory, read_number};
use lab_digits::push_words;
use memchr::memchr;

/// How many cells a line has.
pub(crate) fn width(line: &[u8]) -> usize
    ensures value { result ≡ width_of line.now }
{
    line.split(|byte| *byte == b',').count()
}

/// What stands in a column of a line, counted from 0, without the blanks around it; nothing where it has no such.
pub fn cell(line: &[u8], column: usize) -> &[u8]
    ensures value { result.now ≡ cell line.now column }
{
    match line.split(|byte| *byte == b',').nth(column) {
        Some(cell) => trim(cell),
        None => &[],
    }
}

/// The bytes without the blanks before and behind them.
#[tactic(auto, unfolding(crate::specs::Cells::trimmed))]
pub fn trim(bytes: &[u8]) -> &[u8]
    ensures value { result.now ≡ trimmed bytes.now }
{
    bytes.trim_ascii()
}

/// Whether a line has something but blanks.
pub fn has_words(line: &[u8]) -> bool
    ensures value { result ≡ has_words line.now }
{
    !trim(line).is_empty()
}

/// The number of a column, in thousandths.
pub(crate) fn number_at(line: &[u8], column: usize) -> Option<u64>
    ensures value { result ≡ cell_number (cell line.now column) }
    ensures within { IfSome result (λ number. number < 2 ^ 63) }
{
    number(cell(line, column))
}

/// Whether there is a number, or nothing.
pub(crate) fn is_cell(bytes: &[u8]) -> bool
    ensures value { result ≡ is_cell bytes.now }
{
    bytes.is_empty() || number(bytes).is_some()
}

/// Whether it is written as a number, which may be too large.
pub(crate) fn is_written(bytes: &[u8]) -> bool
    ensures value { result ≡ is_written bytes.now }
{
    let whole = whole(bytes);
    !whole.is_empty() && are_decimal(whole) && are_decimal(behind(b'.', bytes))
}

/// The number of a cell, in thousandths, rounded down.
#[tactic(auto, unfolding(crate::specs::Cells::cell_number))]
fn number(bytes: &[u8]) -> Option<u64>
    ensures value { result ≡ cell_number bytes.now }
    ensures within { IfSome result (λ number. number < 2 ^ 63) }
{
    let whole = number_of(whole(bytes));
    let part = part(behind(b'.', bytes));
    joined(whole, part)
}

/// What stands before the point.
fn whole(bytes: &[u8]) -> &[u8]
    ensures value { result.now ≡ before_first is_point bytes.now }
{
    &bytes[..place(b'.', bytes)]
}

/// The place of the first such byte, or the length.
pub fn place(byte: u8, bytes: &[u8]) -> usize
    ensures place { result ≡ position_or_len (λ other. other == byte) bytes.now }
    ensures within { result ≤ length bytes.now }
{
    match memchr(byte, bytes) {
        Some(place) => place,
        None => bytes.len(),
    }
}

/// What stands behind the first such byte.
pub fn behind(byte: u8, bytes: &[u8]) -> &[u8]
    ensures value { result.now ≡ after_first (λ other. other == byte) bytes.now }
{
    let at = place(byte, bytes);
    if at < bytes.len() {
        &bytes[at + 1..]
    } else {
        &[]
    }
}

/// Whole ones and thousandths, below 2^63 in all.
fn joined(whole: Option<u64>, part: Option<u64>) -> Option<u64>
    ensures value { result ≡ whole_and_part whole part }
    ensures within { IfSome result (λ number. number < 2 ^ 63) }
{
    let number = 1000 * u128::from(whole?) + u128::from(part?);
    if number < 1 << 63 {
        Some(number as u64)
    } else {
        None
    }
}

/// The thousandths behind a point, rounded down.
fn part(digits: &[u8]) -> Option<u64>
    ensures value { result ≡ thousandths_behind digits.now }
{
    if !are_decimal(digits) {
        return None;
    }
    Some(100 * digit(digits, 0) + 10 * digit(digits, 1) + digit(digits, 2))
}

/// The digit at a place, or 0 where there is none.
fn digit(digits: &[u8], place: usize) -> u64
    ensures value { result ≡ digit_or_zero (slice_get digits.now place) }
    ensures within { result < 256 }
{
    match digits.get(place) {
        Some(digit) => u64::from(digit.saturating_sub(b'0')),
        None => 0,
    }
}

/// The number that decimal digits write.
fn number_of(bytes: &[u8]) -> Option<u64>
    ensures value { result ≡ digits_of bytes.now }
{
    if are_decimal(bytes) {
        read_number(bytes)
    } else {
        None
    }
}

fn are_decimal(bytes: &[u8]) -> bool
    ensures value { result ≡ list_all is_decimal bytes.now }
{
    bytes.iter().all(|byte| is_decimal(*byte))
}

fn is_decimal(byte: u8) -> bool
    ensures value { result ≡ is_decimal byte }
{
    byte > 47 && byte < 58
}

/// A name, as XML has it.
#[tactic(auto, unfolding(crate::specs::Cells::escaped))]
fn push_escaped(text: &mut Vec<u8>, bytes: &[u8]) -> Result<(), NoMemory>
    ensures ok { OnOk result (text.new.items ≡ text.old.items ++ escaped bytes.now) }
{
    for byte in bytes {
        push_escaped_byte(text, *byte)?;
    }
    Ok(())
}

/// A name of which so many letters are shown at the most: of a longer one all but the last of these, and an ellipsis.
pub(crate) fn push_shortened(text: &mut Vec<u8>, most: usize, bytes: &[u8]) -> Result<(), NoMemory>
    requires some { 0 < most }
    ensures ok { OnOk result (text.new.items ≡ text.old.items ++ shortened most bytes.now) }
{
    if bytes.len() <= most {
        return push_escaped(text, bytes);
    }
    push_escaped(text, &bytes[..most - 1])?;
    push_words(text, b"&#8230;")
}

fn push_escaped_byte(text: &mut Vec<u8>, byte: u8) -> Result<(), NoMemory>
    ensures ok { OnOk result (text.new.items ≡ text.old.items ++ escaped_byte byte) }
{
    match byte {
        b'&' => push_words(text, b"&amp;"),
        b'<' => push_words(text, b"&lt;"),
        b'>' => push_words(text, b"&gt;"),
        _ if byte > 31 && byte < 127 => push_words(text, &[byte]),
        _ => push_words(text, b"?"),
    }
}
