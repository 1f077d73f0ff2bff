//! What a line is: one of a program, or a question.

ghost use Rattle.std.specs.Prelude.{◌≡◌, ◌≤◌, ◌==◌, length, IfOk, IfSome};
ghost use Rattle.cm_bits.specs.Text.{words_left, words_of};
ghost use Rattle.cm_language.specs.Program.{IsOwnFault};
ghost use Rattle.cm_session.specs.Bounds.{IsFor};
ghost use Rattle.lab_front.specs.Asked.{is_of_acts, is_of_language, is_of_program, kind_number, question_of};

use cm_asm::{AsmKind, verb_of};
use cm_bits::Words;
use cm_debug::read_command;
use cm_refusals::kind_number;
use cm_session::{Command, Refusal};

/// Whether the line is one of a program, or says a phrase.
pub fn is_of_program(line: &[u8]) -> bool
    ensures value { result ≡ is_of_program (words_of line.now) }
{
    lab_source::verb_of(line).is_some() || is_of_language(line)
}

/// Whether the line is one of the program language.
fn is_of_language(line: &[u8]) -> bool
    ensures value { result ≡ is_of_language (words_of line.now) }
{
    let mut words = Words::new(line);
    let Some(word) = words.next() else {
        return false;
    };
    verb_of(word).is_some() || word == b"field".as_slice() && are_three(words)
}

/// Whether just three words are left: a line `field` with three operands is one of a program, with four a question.
fn are_three(mut words: Words) -> bool
    ensures value { result ≡ (length (words_left words.entry) == 3) }
{
    let (Some(_), Some(_), Some(_)) = (words.next(), words.next(), words.next()) else {
        return false;
    };
    words.next().is_none()
}

/// What a line asks that is none of a program. Chips are those of a cube of that many dimensions.
pub fn read_question(line: &[u8], dimensions: usize) -> Result<Option<Command>, Refusal>
    requires dimension { dimensions ≤ 12 }
    ensures value { result ≡ question_of dimensions (words_of line.now) }
    ensures inside { IfOk result (λ asked. IfSome asked (IsFor dimensions 0)) }
{
    let mut words = Words::new(line);
    let Some(word) = words.next() else {
        return Ok(None);
    };
    if is_of_acts(word) {
        return Err(Refusal::Word);
    }
    match read_command(line, dimensions, 0) {
        Ok(Some(Command::WireOn | Command::WireOff)) => Err(Refusal::Operands),
        asked => asked,
    }
}

/// Whether a session goes on in its program by this word, or stops in it.
fn is_of_acts(word: &[u8]) -> bool
    ensures value { result ≡ is_of_acts word.now }
{
    word == b"step".as_slice() || word == b"run".as_slice() || word == b"break".as_slice()
}

/// The number of a refusal of a line of a program; none where memory is wanting.
pub fn own_number(kind: AsmKind) -> Option<u64>
    ensures value { IfSome result (λ number. number ≡ kind_number kind) }
    ensures own { IfSome result (λ _. IsOwnFault kind) }
    ensures none { result ≡ None → kind ≡ AsmKind.Memory }
{
    match kind {
        AsmKind::Memory => None,
        _ => Some(u64::from(kind_number(kind))),
    }
}
