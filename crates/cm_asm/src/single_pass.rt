//! Instructions as they are mostly written, short numbers with one space between, read in a single pass.

ghost use Rattle.std.specs.Prelude.{◌≡◌, ◌<◌, ◌==◌, ◌∷◌, [], Ok, IfSome, IsTrue, codes, length, get_or};
ghost use Rattle.cm_bits.specs.Text.{words_of};
ghost use Rattle.cm_language.specs.Lines.{direction_of};
ghost use Rattle.cm_asm.specs.SinglePass.{BeginsWithNumber, BeginsWithThree, IsDigit, SaysInstruction, IsNano};
ghost use Rattle.cm_asm.specs.SinglePass.{IsNumeral};

use cm_bits::{Addr, Dir, FlagNo};
use cm_model::Nano;

/// The number of the first word, and what follows its space.
#[derive(Clone, Copy)]
struct Front<'a> {
    value: u16,
    rest: &'a [u8],
}

/// The numbers of the first three words, and what follows them.
#[derive(Clone, Copy)]
struct Three<'a> {
    first: u16,
    second: u16,
    third: u16,
    rest: &'a [u8],
}

/// The instruction of a line that is written so. Where it is not, nothing is said of it.
pub fn instruction_of(line: &[u8]) -> Option<Nano>
    ensures { IfSome result (SaysInstruction line.now) }
{
    let rest = after_nano(line)?;
    let sources = three_numbers(rest)?;
    let conditions = three_numbers(sources.rest)?;
    let mem_table = front_number(conditions.rest)?;
    let flag_table = front_number(mem_table.rest)?;
    let dir = last_direction(flag_table.rest)?;
    nano_of(
        &sources,
        &conditions,
        mem_table.value,
        flag_table.value,
        dir,
    )
}

// The instruction of these numbers, where each is in its range.
#[inline(always)]
fn nano_of(
    sources: &Three,
    conditions: &Three,
    mem_table: u16,
    flag_table: u16,
    dir: Dir,
) -> Option<Nano>
    ensures { IfSome result (IsNano sources.now.first sources.now.second sources.now.third
        conditions.now.first conditions.now.second conditions.now.third mem_table flag_table dir) }
{
    Some(Nano {
        a: address_of(sources.first)?,
        b: address_of(sources.second)?,
        read: flag_of(sources.third)?,
        write: flag_of(conditions.first)?,
        cond: flag_of(conditions.second)?,
        sense: sense_of(conditions.third)?,
        mem_table: table_of(mem_table)?,
        flag_table: table_of(flag_table)?,
        dir,
    })
}

#[inline(always)]
fn three_numbers<'a>(bytes: &'a [u8]) -> Option<Three<'a>>
    ensures { IfSome result (λ three. BeginsWithThree
        bytes.now three.rest.now three.first three.second three.third) }
{
    let first = front_number(bytes)?;
    let second = front_number(first.rest)?;
    let third = front_number(second.rest)?;
    Some(Three {
        first: first.value,
        second: second.value,
        third: third.value,
        rest: third.rest,
    })
}

// What follows the word `nano` and a space.
fn after_nano(line: &[u8]) -> Option<&[u8]>
    ensures { IfSome result (λ rest. words_of line.now ≡ codes "nano" ∷ words_of rest.now) }
{
    if is_space(line, 4)
        && line[0] == b'n'
        && line[1] == b'a'
        && line[2] == b'n'
        && line[3] == b'o'
    {
        Some(&line[5..])
    } else {
        None
    }
}

// The number at the front: one to four digits, or two hexadecimal ones after `0x`, and a space.
#[inline(always)]
fn front_number<'a>(bytes: &'a [u8]) -> Option<Front<'a>>
    ensures { IfSome result (λ front. BeginsWithNumber bytes.now front.rest.now front.value) }
{
    if is_space(bytes, 1) {
        let value = one_digit(bytes[0])?;
        return Some(Front {
            value,
            rest: &bytes[2..],
        });
    }
    if is_space(bytes, 2) {
        let value = two_digits(bytes[0], bytes[1])?;
        return Some(Front {
            value,
            rest: &bytes[3..],
        });
    }
    if is_space(bytes, 3) {
        let value = three_digits(bytes[0], bytes[1], bytes[2])?;
        return Some(Front {
            value,
            rest: &bytes[4..],
        });
    }
    if is_space(bytes, 4) {
        let value = four_bytes(bytes[0], bytes[1], bytes[2], bytes[3])?;
        return Some(Front {
            value,
            rest: &bytes[5..],
        });
    }
    None
}

fn is_space(bytes: &[u8], place: usize) -> bool
    ensures inside { IsTrue result → place < length bytes.now }
    ensures space { IsTrue result → get_or bytes.now place 0 ≡ 32 }
{
    place < bytes.len() && bytes[place] == b' '
}

fn one_digit(a: u8) -> Option<u16>
    ensures { IfSome result (IsNumeral (a ∷ [])) }
{
    let p = digit(a)?;
    Some(p)
}

fn two_digits(a: u8, b: u8) -> Option<u16>
    ensures { IfSome result (IsNumeral (a ∷ b ∷ [])) }
{
    let p = digit(a)?;
    let q = digit(b)?;
    Some(p * 10 + q)
}

fn three_digits(a: u8, b: u8, c: u8) -> Option<u16>
    ensures { IfSome result (IsNumeral (a ∷ b ∷ c ∷ [])) }
{
    let p = digit(a)?;
    let q = digit(b)?;
    let r = digit(c)?;
    Some(p * 100 + q * 10 + r)
}

// Four digits, or two hexadecimal ones after `0x`.
fn four_bytes(a: u8, b: u8, c: u8, d: u8) -> Option<u16>
    ensures { IfSome result (IsNumeral (a ∷ b ∷ c ∷ d ∷ [])) }
{
    if a == b'0' && b == b'x' {
        let r = hex_digit(c)?;
        let s = hex_digit(d)?;
        return Some(r * 16 + s);
    }
    let p = digit(a)?;
    let q = digit(b)?;
    let r = digit(c)?;
    let s = digit(d)?;
    Some(p * 1000 + q * 100 + r * 10 + s)
}

// The value of a decimal digit.
fn digit(byte: u8) -> Option<u16>
    ensures digit { IfSome result (IsDigit 10 byte) }
    ensures within { IfSome result (λ value. value < 10) }
{
    match byte {
        b'0'..=b'9' => Some(u16::from(byte - b'0')),
        _ => None,
    }
}

// The value of a hexadecimal digit of either case.
fn hex_digit(byte: u8) -> Option<u16>
    ensures digit { IfSome result (IsDigit 16 byte) }
    ensures within { IfSome result (λ value. value < 16) }
{
    match byte {
        b'0'..=b'9' => Some(u16::from(byte - b'0')),
        b'a'..=b'f' => Some(u16::from(byte - b'a') + 10),
        b'A'..=b'F' => Some(u16::from(byte - b'A') + 10),
        _ => None,
    }
}

fn address_of(number: u16) -> Option<Addr>
    ensures value { IfSome result (λ address. address ≡ number) }
    ensures within { IfSome result (λ _. number < 4096) }
{
    if number < 4096 {
        Addr::new(number)
    } else {
        None
    }
}

fn flag_of(number: u16) -> Option<FlagNo>
    ensures value { IfSome result (λ flag. flag ≡ number) }
    ensures within { IfSome result (λ _. number < 16) }
{
    if number < 16 {
        FlagNo::new(number as u8)
    } else {
        None
    }
}

fn table_of(number: u16) -> Option<u8>
    ensures value { IfSome result (λ table. table ≡ number) }
    ensures within { IfSome result (λ _. number < 256) }
{
    if number < 256 {
        Some(number as u8)
    } else {
        None
    }
}

fn sense_of(number: u16) -> Option<bool>
    ensures value { IfSome result (λ sense. sense ≡ (number == 1)) }
    ensures within { IfSome result (λ _. number < 2) }
{
    match number {
        0 => Some(false),
        1 => Some(true),
        _ => None,
    }
}

// The direction that is the last byte of a line.
fn last_direction(bytes: &[u8]) -> Option<Dir>
    ensures word { IfSome result (λ _. words_of bytes.now ≡ bytes.now ∷ []) }
    ensures value { IfSome result (λ dir. direction_of bytes.now ≡ Ok dir) }
{
    match bytes {
        b"n" => Some(Dir::North),
        b"e" => Some(Dir::East),
        b"w" => Some(Dir::West),
        b"s" => Some(Dir::South),
        _ => None,
    }
}
