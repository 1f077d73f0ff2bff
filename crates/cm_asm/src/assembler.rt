//! The assembler.

ghost use Rattle.std.specs.Prelude.{◌≡◌, Ok, MatchResult};
ghost use Rattle.cm_language.specs.Program.{program_of, IsFaultOf};

use crate::program::Program;
use crate::reader::Reader;
use cm_bits::Lines;
use cm_language::AsmFault;
use std::alloc::Global;

/// The program of a text, or its first faulty line, counted from 1, blank ones too.
pub fn assemble(alloc: Global, text: &[u8]) -> Result<Program, AsmFault>
    ensures value { MatchResult result (λ program. program_of text.now ≡ Ok program) (IsFaultOf text.now) }
{
    let mut reader = Reader::new(alloc);
    let mut line = 0;
    for bytes in Lines::new(text) {
        line += 1;
        match reader.read_line(alloc, bytes) {
            Ok(()) => {}
            Err(kind) => return Err(AsmFault { line, kind }),
        }
    }
    Ok(reader.into_program())
}
