//! Lines other than definitions.

ghost use Rattle.std.specs.Prelude.{◌≡◌, IfErr};
ghost use Rattle.cm_bits.specs.Text.{words_left};
ghost use Rattle.cm_language.specs.Lines.{verb_of, statement_of, choice_of, constant_of, product_of};
ghost use Rattle.cm_language.specs.Program.{IsOwnFault};
ghost use Rattle.cm_asm.specs.Verbs.{field_verb_of, flag_verb_of, lone_verb_of};

use crate::fields::Fields;
use crate::operands::{
    flag_operand, no_operand, one_field, read_any, read_field, read_flag, read_nano, three_words,
    two_fields,
};
use cm_bits::Words;
use cm_language::{AsmKind, Context, Macro, Statement, Verb};
use cm_model::Act;

/// What a first word asks for.
pub fn verb_of(word: &[u8]) -> Option<Verb>
    ensures value { result ≡ verb_of word.now }
{
    if word == b"nano".as_slice() {
        Some(Verb::Nano)
    } else if word == b"add".as_slice() {
        Some(Verb::Add)
    } else if word == b"sub".as_slice() {
        Some(Verb::Sub)
    } else if word == b"less".as_slice() {
        Some(Verb::Less)
    } else if word == b"equal".as_slice() {
        Some(Verb::Equal)
    } else if word == b"move".as_slice() {
        Some(Verb::Move)
    } else {
        field_verb_of(word)
    }
}

fn field_verb_of(word: &[u8]) -> Option<Verb>
    ensures value { result ≡ field_verb_of word.now }
{
    if word == b"select".as_slice() {
        Some(Verb::Select)
    } else if word == b"const".as_slice() {
        Some(Verb::Const)
    } else if word == b"shift".as_slice() {
        Some(Verb::Shift)
    } else if word == b"mul".as_slice() {
        Some(Verb::Mul)
    } else {
        flag_verb_of(word)
    }
}

fn flag_verb_of(word: &[u8]) -> Option<Verb>
    ensures value { result ≡ flag_verb_of word.now }
{
    if word == b"set".as_slice() {
        Some(Verb::Set)
    } else if word == b"clear".as_slice() {
        Some(Verb::Clear)
    } else if word == b"if".as_slice() {
        Some(Verb::If)
    } else if word == b"unless".as_slice() {
        Some(Verb::Unless)
    } else {
        lone_verb_of(word)
    }
}

fn lone_verb_of(word: &[u8]) -> Option<Verb>
    ensures value { result ≡ lone_verb_of word.now }
{
    if word == b"always".as_slice() {
        Some(Verb::Always)
    } else if word == b"cycle".as_slice() {
        Some(Verb::Cycle)
    } else if word == b"sense".as_slice() {
        Some(Verb::Sense)
    } else {
        None
    }
}

/// What a first word and its operands say.
pub fn read_statement(fields: &Fields, verb: Verb, words: Words) -> Result<Statement, AsmKind>
    ensures value { result ≡ statement_of fields.now verb (words_left words.entry) }
    ensures own { IfErr result IsOwnFault }
{
    match verb {
        Verb::Nano => {
            let nano = read_nano(words)?;
            Ok(Statement::Act(Act::Nano(nano)))
        }
        Verb::Add => {
            let (d, s) = two_fields(fields, words)?;
            Ok(Statement::Macro(Macro::Add(d, s)))
        }
        Verb::Sub => {
            let (d, s) = two_fields(fields, words)?;
            Ok(Statement::Macro(Macro::Sub(d, s)))
        }
        Verb::Less => {
            let (x, y) = two_fields(fields, words)?;
            Ok(Statement::Macro(Macro::Less(x, y)))
        }
        Verb::Equal => {
            let (x, y) = two_fields(fields, words)?;
            Ok(Statement::Macro(Macro::Equal(x, y)))
        }
        Verb::Move => {
            let (d, s) = two_fields(fields, words)?;
            Ok(Statement::Macro(Macro::Move(d, s)))
        }
        Verb::Select => read_choice(fields, words),
        Verb::Const => read_constant(fields, words),
        Verb::Shift => {
            let d = one_field(fields, words)?;
            Ok(Statement::Macro(Macro::Shift(d)))
        }
        Verb::Mul => read_product(fields, words),
        Verb::Set => {
            let flag = flag_operand(words)?;
            Ok(Statement::Macro(Macro::Set(flag)))
        }
        Verb::Clear => {
            let flag = flag_operand(words)?;
            Ok(Statement::Macro(Macro::Clear(flag)))
        }
        Verb::If => {
            let flag = flag_operand(words)?;
            Ok(Statement::Context(Context::On(flag)))
        }
        Verb::Unless => {
            let flag = flag_operand(words)?;
            Ok(Statement::Context(Context::Off(flag)))
        }
        Verb::Always => {
            no_operand(words)?;
            Ok(Statement::Context(Context::Always))
        }
        Verb::Cycle => {
            no_operand(words)?;
            Ok(Statement::Act(Act::Cycle))
        }
        Verb::Sense => {
            no_operand(words)?;
            Ok(Statement::Act(Act::Sense))
        }
    }
}

/// The operands of `select`.
fn read_choice(fields: &Fields, words: Words) -> Result<Statement, AsmKind>
    ensures value { result ≡ choice_of fields.now (words_left words.entry) }
    ensures own { IfErr result IsOwnFault }
{
    let Some((d, s, flag)) = three_words(words) else {
        return Err(AsmKind::Operands);
    };
    let d = read_field(fields, d)?;
    let s = read_field(fields, s)?;
    let flag = read_flag(flag)?;
    Ok(Statement::Macro(Macro::Select(d, s, flag)))
}

/// The operands of `const`.
fn read_constant(fields: &Fields, mut words: Words) -> Result<Statement, AsmKind>
    ensures value { result ≡ constant_of fields.now (words_left words.entry) }
    ensures own { IfErr result IsOwnFault }
{
    let (Some(d), Some(number), None) = (words.next(), words.next(), words.next()) else {
        return Err(AsmKind::Operands);
    };
    let d = read_field(fields, d)?;
    let number = read_any(number)?;
    Ok(Statement::Macro(Macro::Const(d, number)))
}

/// The operands of `mul`.
fn read_product(fields: &Fields, words: Words) -> Result<Statement, AsmKind>
    ensures value { result ≡ product_of fields.now (words_left words.entry) }
    ensures own { IfErr result IsOwnFault }
{
    let Some((d, x, y)) = three_words(words) else {
        return Err(AsmKind::Operands);
    };
    let d = read_field(fields, d)?;
    let x = read_field(fields, x)?;
    let y = read_field(fields, y)?;
    Ok(Statement::Macro(Macro::Mul(d, x, y)))
}
