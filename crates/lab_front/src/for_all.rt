//! What a line asks of all processors at once, or of the whole machine.

ghost use Rattle.std.specs.Prelude.{◌≡◌, ◌≢◌, ◌≤◌, ◌<◌, ◌^◌, [], drop, length, nat_lt, Ok, Err, IfOk, IfErr, OnOk};
ghost use Rattle.cm_bits.specs.Text.{words_left, words_of};
ghost use Rattle.cm_language.specs.Lines.{number_operand};
ghost use Rattle.lab_data.specs.Data.{processors};
ghost use Rattle.lab_front.specs.ForAll.{is_for_all, in_range, asked_field, with_numbers, within, asked_alone};
ghost use Rattle.lab_front.specs.ForAll.{get_of_two};
ghost use Rattle.lab_front.specs.ForAll.{get_of_flag, get_of, put_into, put_words, put_of, asked_by, asked_of};

use cm_asm::AsmKind;
use cm_bits::{ADDRESSES, FLAGS, Field, FieldFault, FlagNo, Words, read_number};

/// What a line asks of all processors, or of the whole machine.
#[derive(Clone, Copy, Debug, PartialEq, Eq)]
pub enum Asked {
    /// The number that each processor has in a memory field is told.
    Get(Field),
    /// A flag of each processor is told.
    GetFlag(FlagNo),
    /// How many messages stand at each chip is told.
    GetBuffers,
    /// A number is put into a memory field of each processor.
    Put(Field),
    /// How many messages stand in all routers is told, and how many processors ask to send.
    Standing,
    /// The count of petit cycles is told.
    Clock,
    /// The image of the machine is told.
    Image,
    /// The logs are emptied.
    Forget,
}

/// Whether the line is one for all processors.
pub fn is_for_all(line: &[u8]) -> bool
    ensures value { result ≡ is_for_all (words_of line.now) }
{
    let mut words = Words::new(line);
    let Some(word) = words.next() else {
        return false;
    };
    word == b"get".as_slice()
        || word == b"put".as_slice()
        || word == b"standing".as_slice()
        || word == b"clock".as_slice()
        || word == b"image".as_slice()
        || word == b"forget".as_slice()
}

/// What a line asks, and into a list that was empty the numbers that are given in it, of a machine of so many
/// dimensions. Of several faults the first is told: how many operands there are, a word that is no number, an address
/// or a flag out of its range, a length, where a field ends, a number of too many bits.
pub fn read_asked(line: &[u8], dimensions: usize, numbers: &mut Vec<u64>) -> Result<Asked, AsmKind>
    requires dimension { dimensions ≤ 12 }
    requires none { numbers.old.items ≡ [] }
    ensures value { IfOk result (λ asked. asked_of dimensions (words_of line.now) ≡ Ok (asked, numbers.new.items)) }
    ensures refused { IfErr result (λ kind. kind ≢ AsmKind.Memory
        → asked_of dimensions (words_of line.now) ≡ Err kind) }
{
    let mut words = Words::new(line);
    let Some(word) = words.next() else {
        return Err(AsmKind::Word);
    };
    if word == b"put".as_slice() {
        read_put(line, dimensions, numbers)
    } else {
        read_named(word, words)
    }
}

/// What a first word asks for that is not `put`.
fn read_named(word: &[u8], words: Words) -> Result<Asked, AsmKind>
    ensures value { result ≡ asked_by word.now (words_left words.entry) }
{
    if word == b"get".as_slice() {
        read_get(words)
    } else if word == b"standing".as_slice() {
        alone(Asked::Standing, words)
    } else if word == b"clock".as_slice() {
        alone(Asked::Clock, words)
    } else if word == b"image".as_slice() {
        alone(Asked::Image, words)
    } else if word == b"forget".as_slice() {
        alone(Asked::Forget, words)
    } else {
        Err(AsmKind::Word)
    }
}

/// The words after the first.
fn operands(line: &[u8]) -> Words<'_>
    ensures { words_left result ≡ drop 1 (words_of line.entry.now) }
{
    let mut words = Words::new(line);
    // The first word is known: the words go on behind it.
    let _first = words.next();
    words
}

/// What has no operand.
fn alone(asked: Asked, mut words: Words) -> Result<Asked, AsmKind>
    ensures value { result ≡ asked_alone asked (words_left words.entry) }
{
    match words.next() {
        None => Ok(asked),
        Some(_) => Err(AsmKind::Operands),
    }
}

/// What is to be told, by the words after `get`.
fn read_get(mut words: Words) -> Result<Asked, AsmKind>
    ensures value { result ≡ get_of (words_left words.entry) }
{
    let Some(first) = words.next() else {
        return Err(AsmKind::Operands);
    };
    let Some(second) = words.next() else {
        return if first == b"buffers".as_slice() {
            Ok(Asked::GetBuffers)
        } else {
            Err(AsmKind::Operands)
        };
    };
    if words.next().is_some() {
        return Err(AsmKind::Operands);
    }
    if first == b"flag".as_slice() {
        get_of_flag(second)
    } else {
        get_of_two(first, second)
    }
}

fn get_of_flag(flag: &[u8]) -> Result<Asked, AsmKind>
    ensures value { result ≡ get_of_flag flag.now }
{
    let number = number(flag)?;
    let flag = in_range(number, u64::from(FLAGS))?;
    match FlagNo::new(flag as u8) {
        Some(flag) => Ok(Asked::GetFlag(flag)),
        None => Err(AsmKind::Range),
    }
}

fn get_of_two(at: &[u8], len: &[u8]) -> Result<Asked, AsmKind>
    ensures value { result ≡ get_of_two at.now len.now }
{
    let at = number(at)?;
    let len = number(len)?;
    let field = field(at, len)?;
    Ok(Asked::Get(field))
}

/// The field of the words after `put`, and the numbers behind them, of which there is one for each processor.
fn read_put(line: &[u8], dimensions: usize, numbers: &mut Vec<u64>) -> Result<Asked, AsmKind>
    requires dimension { dimensions ≤ 12 }
    requires none { numbers.old.items ≡ [] }
    ensures value { IfOk result (λ asked. put_of dimensions (drop 1 (words_of line.now))
        ≡ Ok (asked, numbers.new.items)) }
    ensures refused { IfErr result (λ kind. kind ≢ AsmKind.Memory
        → put_of dimensions (drop 1 (words_of line.now)) ≡ Err kind) }
{
    if count_words(operands(line)) == processors(dimensions) + 2 {
        put_words(operands(line), numbers)
    } else {
        Err(AsmKind::Operands)
    }
}

/// The field of these words, and the numbers behind them.
fn put_words(mut words: Words, numbers: &mut Vec<u64>) -> Result<Asked, AsmKind>
    requires none { numbers.old.items ≡ [] }
    ensures value { IfOk result (λ asked. put_words (words_left words.entry) ≡ Ok (asked, numbers.new.items)) }
    ensures refused { IfErr result (λ kind. kind ≢ AsmKind.Memory → put_words (words_left words.entry) ≡ Err kind) }
{
    let (Some(at), Some(len)) = (words.next(), words.next()) else {
        return Err(AsmKind::Operands);
    };
    let at = number(at)?;
    let len = number(len)?;
    push_values(numbers, words)?;
    put_into(at, len, numbers)
}

/// How many words are left.
fn count_words(words: Words) -> usize
    ensures value { result ≡ length (words_left words.entry) }
{
    words.count()
}

/// How many processors a cube has.
fn processors(dimensions: usize) -> usize
    requires dimension { dimensions ≤ 12 }
    ensures value { result ≡ processors dimensions }
    ensures within { result ≤ 65536 }
{
    16 << dimensions
}

/// The numbers of words more.
fn push_values(numbers: &mut Vec<u64>, words: Words) -> Result<(), AsmKind>
    ensures ok { OnOk result (with_numbers numbers.old.items (words_left words.entry) ≡ Ok numbers.new.items) }
    ensures err { IfErr result (λ kind. kind ≢ AsmKind.Memory
        → with_numbers numbers.old.items (words_left words.entry) ≡ Err kind) }
{
    for word in words {
        let number = match number(word) {
            Ok(number) => number,
            Err(kind) => return Err(kind),
        };
        let Ok(()) = numbers.push(number) else {
            return Err(AsmKind::Memory);
        };
    }
    Ok(())
}

/// Into which field numbers are put.
fn put_into(at: u64, len: u64, numbers: &[u64]) -> Result<Asked, AsmKind>
    ensures value { IfOk result (λ asked. put_into at len numbers.now ≡ Ok (asked, numbers.now)) }
    ensures refused { IfErr result (λ kind. put_into at len numbers.now ≡ Err kind) }
{
    let field = field(at, len)?;
    if are_within(numbers, field.len()) {
        Ok(Asked::Put(field))
    } else {
        Err(AsmKind::Lengths)
    }
}

/// Whether no number has more bits.
fn are_within(numbers: &[u64], len: u16) -> bool
    requires narrow { len ≤ 64 }
    ensures value { result ≡ within len numbers.now }
{
    numbers.iter().all(|number| is_within(*number, len))
}

fn is_within(number: u64, len: u16) -> bool
    requires narrow { len ≤ 64 }
    ensures value { result ≡ nat_lt number (2 ^ len) }
{
    if len == 64 {
        return true;
    }
    number >> len == 0
}

/// The number that a word writes.
fn number(word: &[u8]) -> Result<u64, AsmKind>
    ensures value { result ≡ number_operand word.now }
    ensures own { IfErr result (λ kind. kind ≡ AsmKind.Number) }
{
    read_number(word).ok_or(AsmKind::Number)
}

/// The field of an address and a length.
fn field(at: u64, len: u64) -> Result<Field, AsmKind>
    ensures value { result ≡ asked_field at len }
{
    let at = in_range(at, u64::from(ADDRESSES))?;
    if len == 0 || len > 64 {
        return Err(AsmKind::Width);
    }
    match Field::new(at as u16, len as u16) {
        Ok(field) => Ok(field),
        Err(FieldFault::Width) => Err(AsmKind::Width),
        Err(FieldFault::Range) => Err(AsmKind::Range),
    }
}

fn in_range(number: u64, limit: u64) -> Result<u64, AsmKind>
    ensures value { result ≡ in_range limit number }
    ensures inside { IfOk result (λ small. small < limit) }
{
    if number < limit {
        Ok(number)
    } else {
        Err(AsmKind::Range)
    }
}
