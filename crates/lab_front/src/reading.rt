//! A line of a program or a phrase, read behind the lines before.

ghost use Rattle.std.specs.Prelude.{◌≡◌, ◌≢◌, Ok, Err, OnOk, OnErr, IfErr, Some};
ghost use Rattle.cm_bits.specs.Text.{words_of};
ghost use Rattle.lab_front.specs.Front.{read_by, read_more};

use cm_asm::{AsmKind, Reader};
use lab_source::{PhraseVerb, acts_of, fault_of, phrase_of, verb_of};
use std::alloc::Global;

/// Reads one line more, of the program language or a phrase. After an `Err` nothing is said of the acts.
pub fn read_line(reader: &mut Reader, alloc: Global, line: &[u8]) -> Result<(), AsmKind>
    ensures ok { OnOk result (read_more reader.old (words_of line.now) ≡ Ok reader.new) }
    ensures fault { IfErr result (λ kind. kind ≢ AsmKind.Memory → read_more reader.old (words_of line.now) ≡ Err kind) }
    ensures fields { OnErr result (reader.new.fields ≡ reader.old.fields) }
    ensures context { OnErr result (reader.new.context ≡ reader.old.context) }
{
    match verb_of(line) {
        Some(asked) => read_phrase(reader, alloc, asked, line),
        None => reader.read_line(alloc, line),
    }
}

/// Reads a line that says a phrase: its acts come next.
fn read_phrase(
    reader: &mut Reader,
    alloc: Global,
    asked: PhraseVerb,
    line: &[u8],
) -> Result<(), AsmKind>
    ensures ok { OnOk result (read_by reader.old (Some asked) (words_of line.now) ≡ Ok reader.new) }
    ensures fault { IfErr result (λ kind. kind ≢ AsmKind.Memory
        → read_by reader.old (Some asked) (words_of line.now) ≡ Err kind) }
    ensures fields { OnErr result (reader.new.fields ≡ reader.old.fields) }
    ensures context { OnErr result (reader.new.context ≡ reader.old.context) }
{
    let said = match phrase_of(reader, asked, line) {
        Ok(said) => said,
        Err(kind) => return Err(kind),
    };
    let context = reader.context();
    if let Some(fault) = fault_of(&said, &context) {
        return Err(fault.kind());
    }
    let Ok(acts) = acts_of(alloc, &said, &context) else {
        return Err(AsmKind::Memory);
    };
    reader.add_acts(acts.as_slice())
}
