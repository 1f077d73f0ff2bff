//! Program texts for one chip.

ghost use Rattle.std.specs.Prelude.{◌≡◌, ◌<◌, ◌^◌, length, Ok, IfErr, MatchResult};
ghost use Rattle.cm_bits.specs.Text.{words_of};
ghost use Rattle.cm_language.specs.Program.{IsOwnFault};
ghost use Rattle.cm_tools.specs.Program.{instruction_of, nanos_of, IsChipFaultOf};

use cm_asm::read_nano;
use cm_bits::{Lines, Words};
use cm_language::{AsmFault, AsmKind};
use cm_model::Nano;
use std::alloc::Global;

/// The instructions of a text, or its first faulty line.
pub fn read_program(alloc: Global, text: &[u8]) -> Result<Vec<Nano>, AsmFault>
    requires short { length text.now < 2 ^ 63 }
    ensures value { MatchResult result (λ nanos. nanos_of text.now ≡ Ok nanos.items) (IsChipFaultOf text.now) }
{
    let mut nanos = Vec::new(alloc);
    let mut line = 0;
    for bytes in Lines::new(text) {
        line += 1;
        match read_line(bytes) {
            Ok(None) => {}
            Ok(Some(nano)) => {
                if nanos.push(nano).is_err() {
                    return Err(AsmFault {
                        line,
                        kind: AsmKind::Memory,
                    });
                }
            }
            Err(kind) => return Err(AsmFault { line, kind }),
        }
    }
    Ok(nanos)
}

/// The instruction of a line, none where the line is blank.
fn read_line(line: &[u8]) -> Result<Option<Nano>, AsmKind>
    ensures value { result ≡ instruction_of (words_of line.now) }
    ensures own { IfErr result IsOwnFault }
{
    let mut words = Words::new(line);
    let Some(name) = words.next() else {
        return Ok(None);
    };
    if name != b"nano".as_slice() {
        return Err(AsmKind::Word);
    }
    let nano = read_nano(words)?;
    Ok(Some(nano))
}
