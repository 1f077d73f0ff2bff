//! Lines that say phrases.

ghost use Rattle.std.specs.Prelude.{◌≡◌};
ghost use Rattle.cm_bits.specs.Text.{words_left, words_of};
ghost use Rattle.cm_language.specs.Lines.{operand_of, field_operand, one_field, two_fields};
ghost use Rattle.lab_source.specs.Says.{adds_number, phrase_verb_of, news_of, sum_of, tested_of, keep_phrase};
ghost use Rattle.lab_source.specs.Says.{phrase_with};
ghost use Rattle.lab_source.specs.Says.{phrase_of};

use crate::verb::PhraseVerb;
use cm_asm::{Reader, read_direction};
use cm_bits::{Field, FlagNo, Words, read_number};
use cm_language::AsmKind;
use lab_phrases::Phrase;

/// What a line asks for, where it says a phrase.
pub fn verb_of(line: &[u8]) -> Option<PhraseVerb>
    ensures value { result ≡ phrase_verb_of (words_of line.now) }
{
    let mut words = Words::new(line);
    let word = words.next()?;
    if word == b"news".as_slice() {
        Some(PhraseVerb::News)
    } else if word == b"chain".as_slice() {
        Some(PhraseVerb::Chain)
    } else if word == b"and".as_slice() {
        Some(PhraseVerb::And)
    } else if word == b"or".as_slice() {
        Some(PhraseVerb::Or)
    } else if word == b"xor".as_slice() {
        Some(PhraseVerb::Xor)
    } else if word == b"not".as_slice() {
        Some(PhraseVerb::Not)
    } else if word == b"add".as_slice() && adds_number(words) {
        Some(PhraseVerb::AddNumber)
    } else if word == b"test".as_slice() {
        Some(PhraseVerb::Test)
    } else if word == b"keep".as_slice() {
        Some(PhraseVerb::Keep)
    } else {
        None
    }
}

/// Whether operands are two, and the second is a number.
fn adds_number(mut words: Words) -> bool
    ensures value { result ≡ adds_number (words_left words.entry) }
{
    let (Some(_), Some(number), None) = (words.next(), words.next(), words.next()) else {
        return false;
    };
    read_number(number).is_some()
}

/// The phrase of a line, which has this verb.
pub fn phrase_of(reader: &Reader, asked: PhraseVerb, line: &[u8]) -> Result<Phrase, AsmKind>
    ensures value { result ≡ phrase_of reader.now.fields asked (words_of line.now) }
{
    let mut words = Words::new(line);
    match words.next() {
        Some(_) => phrase_with(reader, asked, words),
        None => Err(AsmKind::Operands),
    }
}

fn phrase_with(reader: &Reader, asked: PhraseVerb, words: Words) -> Result<Phrase, AsmKind>
    ensures value { result ≡ phrase_with reader.now.fields asked (words_left words.entry) }
{
    match asked {
        PhraseVerb::News => read_news(reader, words),
        PhraseVerb::Chain => {
            let (d, s) = two_fields(reader, words)?;
            Ok(Phrase::Chain(d, s))
        }
        PhraseVerb::And => {
            let (d, s) = two_fields(reader, words)?;
            Ok(Phrase::And(d, s))
        }
        PhraseVerb::Or => {
            let (d, s) = two_fields(reader, words)?;
            Ok(Phrase::Or(d, s))
        }
        PhraseVerb::Xor => {
            let (d, s) = two_fields(reader, words)?;
            Ok(Phrase::Xor(d, s))
        }
        PhraseVerb::Not => {
            let d = one_field(reader, words)?;
            Ok(Phrase::Not(d))
        }
        PhraseVerb::AddNumber => read_sum(reader, words),
        PhraseVerb::Test => read_tested(reader, words),
        PhraseVerb::Keep => read_kept(reader, words),
    }
}

/// The operands of `news`.
fn read_news(reader: &Reader, mut words: Words) -> Result<Phrase, AsmKind>
    ensures value { result ≡ news_of reader.now.fields (words_left words.entry) }
{
    let (Some(d), Some(s), Some(dir)) = (words.next(), words.next(), words.next()) else {
        return Err(AsmKind::Operands);
    };
    if words.next().is_some() {
        return Err(AsmKind::Operands);
    }
    let d = read_field(reader, d)?;
    let s = read_field(reader, s)?;
    let dir = read_direction(dir)?;
    Ok(Phrase::News(d, s, dir))
}

/// The operands of `add`, where the second is a number.
fn read_sum(reader: &Reader, mut words: Words) -> Result<Phrase, AsmKind>
    ensures value { result ≡ sum_of reader.now.fields (words_left words.entry) }
{
    let (Some(d), Some(number), None) = (words.next(), words.next(), words.next()) else {
        return Err(AsmKind::Operands);
    };
    let d = read_field(reader, d)?;
    let number = read_number(number).ok_or(AsmKind::Number)?;
    Ok(Phrase::AddNumber(d, number))
}

/// The operands of `test`.
fn read_tested(reader: &Reader, mut words: Words) -> Result<Phrase, AsmKind>
    ensures value { result ≡ tested_of reader.now.fields (words_left words.entry) }
{
    let (Some(flag), Some(s), None) = (words.next(), words.next(), words.next()) else {
        return Err(AsmKind::Operands);
    };
    let flag = read_flag(flag)?;
    let s = read_field(reader, s)?;
    Ok(Phrase::Test(flag, s))
}

/// The operands of `keep`.
fn read_kept(reader: &Reader, mut words: Words) -> Result<Phrase, AsmKind>
    ensures value { result ≡ keep_phrase reader.now.fields (words_left words.entry) }
{
    let (Some(d), Some(flag), None) = (words.next(), words.next(), words.next()) else {
        return Err(AsmKind::Operands);
    };
    let d = read_field(reader, d)?;
    let flag = read_flag(flag)?;
    Ok(Phrase::Keep(d, flag))
}

fn two_fields(reader: &Reader, mut words: Words) -> Result<(Field, Field), AsmKind>
    ensures value { result ≡ two_fields reader.now.fields (words_left words.entry) }
{
    let (Some(d), Some(s), None) = (words.next(), words.next(), words.next()) else {
        return Err(AsmKind::Operands);
    };
    let d = read_field(reader, d)?;
    let s = read_field(reader, s)?;
    Ok((d, s))
}

fn one_field(reader: &Reader, mut words: Words) -> Result<Field, AsmKind>
    ensures value { result ≡ one_field reader.now.fields (words_left words.entry) }
{
    let (Some(d), None) = (words.next(), words.next()) else {
        return Err(AsmKind::Operands);
    };
    read_field(reader, d)
}

/// The field of a defined name.
fn read_field(reader: &Reader, word: &[u8]) -> Result<Field, AsmKind>
    ensures value { result ≡ field_operand reader.now.fields word.now }
{
    reader.find(word).ok_or(AsmKind::Name)
}

/// A flag by its number.
fn read_flag(word: &[u8]) -> Result<FlagNo, AsmKind>
    ensures value { result ≡ operand_of 16 word.now }
{
    match read_number(word) {
        Some(number) if number < 16 => match FlagNo::new(number as u8) {
            Some(flag) => Ok(flag),
            None => Err(AsmKind::Number),
        },
        _ => Err(AsmKind::Number),
    }
}
