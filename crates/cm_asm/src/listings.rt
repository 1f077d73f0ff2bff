//! The lines of a listing.

ghost use Rattle.std.specs.Prelude.{◌≡◌, ◌+◌, ◌<◌, ◌++◌, ◌∷◌, [], OnOk, flat_map, decimal};
ghost use Rattle.cm_language.specs.Names.{named};
ghost use Rattle.cm_bits.specs.Bit.{bit_number};
ghost use Rattle.cm_language.specs.Listing.{hex_digit, table_word, direction_word, nano_words, act_words, spaced};
ghost use Rattle.cm_language.specs.Listing.{field_line, act_line, act_lines};

use crate::fields::Fields;
use cm_bits::{Addr, Dir, Field, FlagNo};
use cm_model::{Act, Nano};
use itoa::Buffer;
use std::alloc::AllocError;

/// The definitions, in their order.
pub fn push_fields(text: &mut Vec<u8>, fields: &Fields) -> Result<(), AllocError>
    ensures ok { OnOk result (text.new.items ≡ text.old.items ++ flat_map field_line fields.now) }
{
    for i in 0..fields.len() {
        match fields.get(i) {
            Some(entry) => push_entry(text, &entry)?,
            None => return Ok(()),
        }
    }
    Ok(())
}

/// The acts, numbered from 0.
pub fn push_acts(text: &mut Vec<u8>, acts: &[Act]) -> Result<(), AllocError>
    ensures ok { OnOk result (text.new.items ≡ text.old.items ++ act_lines 0 acts.now) }
{
    for (i, act) in acts.iter().enumerate() {
        push_act_line(text, i, act)?;
    }
    Ok(())
}

fn push_entry(text: &mut Vec<u8>, entry: &(&[u8], Field)) -> Result<(), AllocError>
    ensures ok { OnOk result (text.new.items ≡ text.old.items ++ field_line (named entry.now.0.now entry.now.1)) }
{
    push_field(text, entry.0, &entry.1)
}

fn push_field(text: &mut Vec<u8>, name: &[u8], field: &Field) -> Result<(), AllocError>
    ensures ok { OnOk result (text.new.items ≡ text.old.items ++ field_line (named name.now field.now)) }
{
    text.extend_from_slice(b"field ")?;
    text.extend_from_slice(name)?;
    text.push(b' ')?;
    push_number(text, field.at())?;
    text.extend_from_slice(Buffer::new().format(field.len()).as_bytes())?;
    text.push(b'\n')?;
    Ok(())
}

/// The line of an act, with a number as a comment.
pub fn push_act_line(text: &mut Vec<u8>, index: usize, act: &Act) -> Result<(), AllocError>
    ensures ok { OnOk result (text.new.items ≡ text.old.items ++ act_line index act.now) }
{
    push_act(text, act)?;
    text.extend_from_slice(b" ; ")?;
    text.extend_from_slice(Buffer::new().format(index).as_bytes())?;
    text.push(b'\n')?;
    Ok(())
}

fn push_act(text: &mut Vec<u8>, act: &Act) -> Result<(), AllocError>
    ensures ok { OnOk result (text.new.items ≡ text.old.items ++ spaced (act_words act.now)) }
{
    match act {
        Act::Nano(nano) => push_nano(text, nano),
        Act::Cycle => text.extend_from_slice(b"cycle"),
        Act::Sense => text.extend_from_slice(b"sense"),
    }
}

fn push_nano(text: &mut Vec<u8>, nano: &Nano) -> Result<(), AllocError>
    ensures ok { OnOk result (text.new.items ≡ text.old.items ++ spaced (nano_words nano.now)) }
{
    text.extend_from_slice(b"nano ")?;
    push_address(text, nano.a)?;
    push_address(text, nano.b)?;
    push_flag(text, nano.read)?;
    push_flag(text, nano.write)?;
    push_flag(text, nano.cond)?;
    push_sense(text, nano.sense)?;
    push_table(text, nano.mem_table)?;
    push_table(text, nano.flag_table)?;
    text.push(direction_letter(nano.dir))?;
    Ok(())
}

/// An address and a space.
fn push_address(text: &mut Vec<u8>, address: Addr) -> Result<(), AllocError>
    ensures ok { OnOk result (text.new.items ≡ text.old.items ++ (decimal address ++ 32 ∷ [])) }
{
    push_number(text, address.get())
}

/// A flag and a space.
fn push_flag(text: &mut Vec<u8>, flag: FlagNo) -> Result<(), AllocError>
    ensures ok { OnOk result (text.new.items ≡ text.old.items ++ (decimal flag ++ 32 ∷ [])) }
{
    push_number(text, u16::from(flag.get()))
}

/// 0 or 1, and a space.
fn push_sense(text: &mut Vec<u8>, sense: bool) -> Result<(), AllocError>
    ensures ok { OnOk result (text.new.items ≡ text.old.items ++ (decimal (bit_number sense) ++ 32 ∷ [])) }
{
    text.extend_from_slice(sense_word(sense))
}

/// A truth table and a space.
fn push_table(text: &mut Vec<u8>, table: u8) -> Result<(), AllocError>
    ensures ok { OnOk result (text.new.items ≡ text.old.items ++ (table_word table ++ 32 ∷ [])) }
{
    text.extend_from_slice(&table_word(table))
}

/// A number and a space.
#[tactic(auto, using(crate::proofs::Telling::number_word))]
fn push_number(text: &mut Vec<u8>, number: u16) -> Result<(), AllocError>
    ensures ok { OnOk result (text.new.items ≡ text.old.items ++ (decimal number ++ 32 ∷ [])) }
{
    if number < 10 {
        text.extend_from_slice(&[b'0' + number as u8, b' '])
    } else {
        text.extend_from_slice(Buffer::new().format(number).as_bytes())?;
        text.push(b' ')?;
        Ok(())
    }
}

/// 0 or 1, and a space.
fn sense_word(sense: bool) -> &'static [u8]
    ensures value { result.now ≡ decimal (bit_number sense) ++ 32 ∷ [] }
{
    if sense { b"1 " } else { b"0 " }
}

/// `0x`, two hexadecimal digits and a space.
fn table_word(table: u8) -> [u8; 5]
    ensures value { result ≡ table_word table ++ 32 ∷ [] }
{
    [
        b'0',
        b'x',
        hex_digit(table / 16),
        hex_digit(table % 16),
        b' ',
    ]
}

/// A hexadecimal digit, lower case.
fn hex_digit(digit: u8) -> u8
    requires { digit < 16 }
    ensures value { result ≡ hex_digit digit }
{
    if digit < 10 {
        b'0' + digit
    } else {
        b'a' + (digit - 10)
    }
}

fn direction_letter(dir: Dir) -> u8
    ensures { result ∷ [] ≡ direction_word dir }
{
    match dir {
        Dir::North => b'n',
        Dir::East => b'e',
        Dir::West => b'w',
        Dir::South => b's',
    }
}
