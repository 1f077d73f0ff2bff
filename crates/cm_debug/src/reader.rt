//! What a line of a session asks for.

ghost use Rattle.std.specs.Prelude.{◌≡◌, ◌≤◌, bytes_eq, IfOk, IfSome};
ghost use Rattle.cm_bits.specs.Text.{words_left, words_of};
ghost use Rattle.cm_session.specs.Bounds.{IsFor};
ghost use Rattle.cm_session.specs.Operands.{three_numbers, four_numbers};
ghost use Rattle.cm_session.specs.Commands.{command_alone, index_of, wire_operand, field_operands};
ghost use Rattle.cm_session.specs.Commands.{flag_operands, poke_operands, poke_flag_operands, chip_operand};
ghost use Rattle.cm_session.specs.Commands.{find_operands, command_at_chip, command_named, command_of};

use crate::reader_operands::{address, bit, chip, field, flag, index, number, place, pokeable};
use cm_bits::Words;
use cm_model::Tag;
use cm_session::{Command, Refusal};

/// What a line asks for, in our own language of commands; none where it has no words. Chips are those of a cube of that
/// many dimensions, acts those of a program of so many. Of several faults the first is told: the word, the number of
/// operands, a word that is no number, then ranges from left to right, but the length of a field before its address. It
/// takes no memory.
pub fn read_command(
    line: &[u8],
    dimensions: usize,
    count: usize,
) -> Result<Option<Command>, Refusal>
    requires dimension { dimensions ≤ 12 }
    ensures value { result ≡ command_of dimensions count (words_of line.now) }
    ensures inside { IfOk result (λ asked. IfSome asked (IsFor dimensions count)) }
{
    let mut words = Words::new(line);
    let Some(name) = words.next() else {
        return Ok(None);
    };
    let command = read_named(name, words, dimensions, count)?;
    Ok(Some(command))
}

/// What a first word and its operands ask for.
fn read_named(
    name: &[u8],
    words: Words,
    dimensions: usize,
    count: usize,
) -> Result<Command, Refusal>
    requires dimension { dimensions ≤ 12 }
    ensures value { result ≡ command_named dimensions count name.now (words_left words.entry) }
{
    if is(name, b"step") {
        alone(Command::Step, words)
    } else if is(name, b"run") {
        alone(Command::Run, words)
    } else if is(name, b"break") {
        let index = read_index(words, count)?;
        Ok(Command::Break(index))
    } else if is(name, b"clear") {
        let index = read_index(words, count)?;
        Ok(Command::Clear(index))
    } else if is(name, b"wire") {
        read_wire(words)
    } else if is(name, b"rule") {
        alone(Command::Rule, words)
    } else {
        read_at_chip(name, words, dimensions)
    }
}

/// The same, where the first operand is a chip.
fn read_at_chip(name: &[u8], words: Words, dimensions: usize) -> Result<Command, Refusal>
    requires dimension { dimensions ≤ 12 }
    ensures value { result ≡ command_at_chip dimensions name.now (words_left words.entry) }
{
    if is(name, b"field") {
        read_field(words, dimensions)
    } else if is(name, b"flag") {
        read_flag(words, dimensions)
    } else if is(name, b"poke") {
        read_poke(words, dimensions)
    } else if is(name, b"pokeflag") {
        read_poke_flag(words, dimensions)
    } else if is(name, b"buf") {
        let chip = read_chip(words, dimensions)?;
        Ok(Command::Buffer(chip))
    } else if is(name, b"find") {
        read_find(words, dimensions)
    } else if is(name, b"events") {
        let chip = read_chip(words, dimensions)?;
        Ok(Command::Events(chip))
    } else {
        Err(Refusal::Word)
    }
}

/// A command that has no operand.
fn alone(command: Command, mut words: Words) -> Result<Command, Refusal>
    ensures value { result ≡ command_alone command (words_left words.entry) }
{
    match words.next() {
        None => Ok(command),
        Some(_) => Err(Refusal::Operands),
    }
}

/// The index of an act.
fn read_index(mut words: Words, count: usize) -> Result<usize, Refusal>
    ensures value { result ≡ index_of count (words_left words.entry) }
{
    let (Some(i), None) = (words.next(), words.next()) else {
        return Err(Refusal::Operands);
    };
    let i = number(i)?;
    index(i, count)
}

/// The command of the word after `wire`.
fn read_wire(mut words: Words) -> Result<Command, Refusal>
    ensures value { result ≡ wire_operand (words_left words.entry) }
{
    let (Some(word), None) = (words.next(), words.next()) else {
        return Err(Refusal::Operands);
    };
    if is(word, b"on") {
        Ok(Command::WireOn)
    } else if is(word, b"off") {
        Ok(Command::WireOff)
    } else if is(word, b"show") {
        Ok(Command::WireShow)
    } else {
        Err(Refusal::Operands)
    }
}

fn read_field(words: Words, dimensions: usize) -> Result<Command, Refusal>
    requires dimension { dimensions ≤ 12 }
    ensures value { result ≡ field_operands dimensions (words_left words.entry) }
{
    let (c, p, at, len) = four_numbers(words)?;
    let place = place(c, p, dimensions)?;
    let field = field(at, len)?;
    Ok(Command::Field(place, field))
}

fn read_flag(words: Words, dimensions: usize) -> Result<Command, Refusal>
    requires dimension { dimensions ≤ 12 }
    ensures value { result ≡ flag_operands dimensions (words_left words.entry) }
{
    let (c, p, f) = three_numbers(words)?;
    let place = place(c, p, dimensions)?;
    let flag = flag(f)?;
    Ok(Command::Flag(place, flag))
}

fn read_poke(words: Words, dimensions: usize) -> Result<Command, Refusal>
    requires dimension { dimensions ≤ 12 }
    ensures value { result ≡ poke_operands dimensions (words_left words.entry) }
{
    let (c, p, at, b) = four_numbers(words)?;
    let place = place(c, p, dimensions)?;
    let address = address(at)?;
    let bit = bit(b)?;
    Ok(Command::Poke(place, address, bit))
}

/// That the flag is not flag 8 is asked last.
fn read_poke_flag(words: Words, dimensions: usize) -> Result<Command, Refusal>
    requires dimension { dimensions ≤ 12 }
    ensures value { result ≡ poke_flag_operands dimensions (words_left words.entry) }
{
    let (c, p, f, b) = four_numbers(words)?;
    let place = place(c, p, dimensions)?;
    let flag = flag(f)?;
    let bit = bit(b)?;
    let flag = pokeable(flag)?;
    Ok(Command::PokeFlag(place, flag, bit))
}

fn read_chip(mut words: Words, dimensions: usize) -> Result<u16, Refusal>
    requires dimension { dimensions ≤ 12 }
    ensures value { result ≡ chip_operand dimensions (words_left words.entry) }
{
    let (Some(c), None) = (words.next(), words.next()) else {
        return Err(Refusal::Operands);
    };
    let c = number(c)?;
    chip(c, dimensions)
}

/// The processor that sent a message, and the message's birth, which is any number.
fn read_find(words: Words, dimensions: usize) -> Result<Command, Refusal>
    requires dimension { dimensions ≤ 12 }
    ensures value { result ≡ find_operands dimensions (words_left words.entry) }
{
    let (c, p, birth) = three_numbers(words)?;
    let origin = place(c, p, dimensions)?;
    Ok(Command::Find(Tag {
        chip: origin.chip,
        proc: origin.proc,
        birth,
    }))
}

/// The numbers of three words, of which there are no more.
fn three_numbers(mut words: Words) -> Result<(u64, u64, u64), Refusal>
    ensures value { result ≡ three_numbers (words_left words.entry) }
{
    let (Some(a), Some(b), Some(c)) = (words.next(), words.next(), words.next()) else {
        return Err(Refusal::Operands);
    };
    if words.next().is_some() {
        return Err(Refusal::Operands);
    }
    let a = number(a)?;
    let b = number(b)?;
    let c = number(c)?;
    Ok((a, b, c))
}

/// The numbers of four words, of which there are no more.
fn four_numbers(mut words: Words) -> Result<(u64, u64, u64, u64), Refusal>
    ensures value { result ≡ four_numbers (words_left words.entry) }
{
    let (Some(a), Some(b), Some(c)) = (words.next(), words.next(), words.next()) else {
        return Err(Refusal::Operands);
    };
    let (Some(d), None) = (words.next(), words.next()) else {
        return Err(Refusal::Operands);
    };
    let a = number(a)?;
    let b = number(b)?;
    let c = number(c)?;
    let d = number(d)?;
    Ok((a, b, c, d))
}

/// Whether a word is this one.
fn is(word: &[u8], other: &[u8]) -> bool
    ensures value { result ≡ bytes_eq word.now other.now }
{
    word == other
}
