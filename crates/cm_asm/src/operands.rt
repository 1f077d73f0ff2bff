//! The operands of a line.

ghost use Rattle.std.specs.Prelude.{◌≡◌, ◌≢◌, ◌<◌, ◌∷◌, [], None, IfOk, IfErr, IfSome, length};
ghost use Rattle.cm_bits.specs.Text.{words_left};
ghost use Rattle.cm_language.specs.Lines.{operand_of, number_operand, sense_operand, direction_of, field_operand};
ghost use Rattle.cm_language.specs.Lines.{no_operand, flag_operand, one_field, two_fields, nano_of};
ghost use Rattle.cm_language.specs.Program.{IsOwnFault};
ghost use Rattle.cm_asm.specs.Thirds.{all_three};

use crate::fields::Fields;
use cm_bits::{Addr, Dir, Field, FlagNo, Words, read_number};
use cm_language::AsmKind;
use cm_model::Nano;

/// No operand at all.
pub fn no_operand(mut words: Words) -> Result<(), AsmKind>
    ensures value { result ≡ no_operand (words_left words.entry) }
    ensures own { IfErr result IsOwnFault }
{
    match words.next() {
        None => Ok(()),
        Some(_) => Err(AsmKind::Operands),
    }
}

/// A flag.
pub fn flag_operand(mut words: Words) -> Result<FlagNo, AsmKind>
    ensures value { result ≡ flag_operand (words_left words.entry) }
    ensures own { IfErr result IsOwnFault }
{
    let (Some(flag), None) = (words.next(), words.next()) else {
        return Err(AsmKind::Operands);
    };
    read_flag(flag)
}

/// A field.
pub fn one_field(fields: &Fields, mut words: Words) -> Result<Field, AsmKind>
    ensures value { result ≡ one_field fields.now (words_left words.entry) }
    ensures own { IfErr result IsOwnFault }
{
    let (Some(d), None) = (words.next(), words.next()) else {
        return Err(AsmKind::Operands);
    };
    read_field(fields, d)
}

/// Two fields.
pub fn two_fields(fields: &Fields, mut words: Words) -> Result<(Field, Field), AsmKind>
    ensures value { result ≡ two_fields fields.now (words_left words.entry) }
    ensures own { IfErr result IsOwnFault }
{
    let (Some(d), Some(s), None) = (words.next(), words.next(), words.next()) else {
        return Err(AsmKind::Operands);
    };
    let d = read_field(fields, d)?;
    let s = read_field(fields, s)?;
    Ok((d, s))
}

/// Three words, where there are no others.
pub fn three_words<'a>(mut words: Words<'a>) -> Option<(&'a [u8], &'a [u8], &'a [u8])>
    ensures some { IfSome result (λ three.
        words_left words.entry ≡ three.0.now ∷ three.1.now ∷ three.2.now ∷ []) }
    ensures none { result ≡ None → length (words_left words.entry) ≢ 3 }
{
    let three = next_three(&mut words)?;
    match words.next() {
        None => Some(three),
        Some(_) => None,
    }
}

/// The next three words.
fn next_three<'a>(words: &mut Words<'a>) -> Option<(&'a [u8], &'a [u8], &'a [u8])>
    ensures some { IfSome result (λ three.
        words_left words.old ≡ three.0.now ∷ three.1.now ∷ three.2.now ∷ words_left words.new) }
    ensures none { result ≡ None → length (words_left words.old) < 3 }
{
    let first = words.next()?;
    let second = words.next()?;
    let third = words.next()?;
    Some((first, second, third))
}

/// The instruction of the words after `nano`: nine operands, the first faulty one from left to right is told.
pub fn read_nano(mut words: Words) -> Result<Nano, AsmKind>
    ensures value { result ≡ nano_of (words_left words.entry) }
    ensures own { IfErr result IsOwnFault }
{
    let Some((a, b, read)) = next_three(&mut words) else {
        return Err(AsmKind::Operands);
    };
    let Some((write, cond, sense)) = next_three(&mut words) else {
        return Err(AsmKind::Operands);
    };
    let Some((mem_table, flag_table, dir)) = three_words(words) else {
        return Err(AsmKind::Operands);
    };
    let (a, b, read) = read_sources(a, b, read)?;
    let (write, cond, sense) = read_conditions(write, cond, sense)?;
    let (mem_table, flag_table, dir) = read_tables(mem_table, flag_table, dir)?;
    Ok(Nano {
        a,
        b,
        read,
        write,
        cond,
        sense,
        mem_table,
        flag_table,
        dir,
    })
}

fn read_sources(a: &[u8], b: &[u8], read: &[u8]) -> Result<(Addr, Addr, FlagNo), AsmKind>
    ensures value { result ≡ all_three (operand_of 4096 a.now) (operand_of 4096 b.now) (operand_of 16 read.now) }
    ensures own { IfErr result IsOwnFault }
{
    let a = read_address(a)?;
    let b = read_address(b)?;
    let read = read_flag(read)?;
    Ok((a, b, read))
}

fn read_conditions(
    write: &[u8],
    cond: &[u8],
    sense: &[u8],
) -> Result<(FlagNo, FlagNo, bool), AsmKind>
    ensures value { result ≡ all_three (operand_of 16 write.now) (operand_of 16 cond.now) (sense_operand sense.now) }
    ensures own { IfErr result IsOwnFault }
{
    let write = read_flag(write)?;
    let cond = read_flag(cond)?;
    let sense = read_sense(sense)?;
    Ok((write, cond, sense))
}

fn read_tables(mem_table: &[u8], flag_table: &[u8], dir: &[u8]) -> Result<(u8, u8, Dir), AsmKind>
    ensures value { result
        ≡ all_three (operand_of 256 mem_table.now) (operand_of 256 flag_table.now) (direction_of dir.now) }
    ensures own { IfErr result IsOwnFault }
{
    let mem_table = read_table(mem_table)?;
    let flag_table = read_table(flag_table)?;
    let dir = read_direction(dir)?;
    Ok((mem_table, flag_table, dir))
}

/// The field of a defined name.
pub fn read_field(fields: &Fields, word: &[u8]) -> Result<Field, AsmKind>
    ensures value { result ≡ field_operand fields.now word.now }
    ensures own { IfErr result IsOwnFault }
{
    fields.find(word).ok_or(AsmKind::Name)
}

/// Any number.
pub fn read_any(word: &[u8]) -> Result<u64, AsmKind>
    ensures value { result ≡ number_operand word.now }
    ensures own { IfErr result IsOwnFault }
{
    read_number(word).ok_or(AsmKind::Number)
}

/// The flag whose number a word writes, 0 to 15. A word that is no number, or one too large, is a fault.
pub fn read_flag(word: &[u8]) -> Result<FlagNo, AsmKind>
    ensures value { result ≡ operand_of 16 word.now }
    ensures own { IfErr result IsOwnFault }
{
    let number = read_below(word, 16)?;
    match FlagNo::new(number as u8) {
        Some(operand) => Ok(operand),
        None => Err(AsmKind::Number),
    }
}

/// The number of a word, below 65,536.
pub fn read_short(word: &[u8]) -> Result<u16, AsmKind>
    ensures value { result ≡ operand_of 65536 word.now }
    ensures own { IfErr result IsOwnFault }
{
    let number = read_below(word, 65536)?;
    Ok(number as u16)
}

fn read_address(word: &[u8]) -> Result<Addr, AsmKind>
    ensures value { result ≡ operand_of 4096 word.now }
    ensures own { IfErr result IsOwnFault }
{
    let number = read_below(word, 4096)?;
    match Addr::new(number as u16) {
        Some(operand) => Ok(operand),
        None => Err(AsmKind::Number),
    }
}

fn read_table(word: &[u8]) -> Result<u8, AsmKind>
    ensures value { result ≡ operand_of 256 word.now }
    ensures own { IfErr result IsOwnFault }
{
    let number = read_below(word, 256)?;
    Ok(number as u8)
}

fn read_sense(word: &[u8]) -> Result<bool, AsmKind>
    ensures value { result ≡ sense_operand word.now }
    ensures own { IfErr result IsOwnFault }
{
    let number = read_below(word, 2)?;
    Ok(number == 1)
}

/// The number of a word, below a limit.
fn read_below(word: &[u8], limit: u64) -> Result<u64, AsmKind>
    ensures value { result ≡ operand_of limit word.now }
    ensures own { IfErr result IsOwnFault }
    ensures below { IfOk result (λ number. number < limit) }
{
    match read_number(word) {
        Some(number) if number < limit => Ok(number),
        _ => Err(AsmKind::Number),
    }
}

/// n, e, w or s.
pub fn read_direction(word: &[u8]) -> Result<Dir, AsmKind>
    ensures value { result ≡ direction_of word.now }
    ensures own { IfErr result IsOwnFault }
{
    match word {
        b"n" => Ok(Dir::North),
        b"e" => Ok(Dir::East),
        b"w" => Ok(Dir::West),
        b"s" => Ok(Dir::South),
        _ => Err(AsmKind::Operands),
    }
}
