//! A session of one chip, from the bytes of a source to those of a sink.

ghost use Rattle.std.specs.Prelude.{◌≡◌, ◌<◌, ◌^◌, ◌↔◌, true, false, length, Ok, IfSome, IsErrOf, IsTrue, MatchResult};
ghost use Rattle.std.specs.Io.KnownBytes.{IsAtEnd};
ghost use Rattle.cm_system.specs.ReadAll.{ConsumesAtMost, ConsumesBeyond};
ghost use Rattle.cm_tools.specs.Session.{ChipSessionEnds, EndsForSome, has_read_all, is_chip_write, answer_of};
ghost use Rattle.cm_tools.specs.Session.{HasNoAnswer};

use crate::one_chip::run_chip;
use crate::program::read_program;
use crate::texts::chip_text;
use cm_bits::{Sink, Source, write_all};
use cm_system::{ChipFault, TakeFault, take};
use std::alloc::Global;

const CHIP_LIMIT: u64 = 1048576;

/// Reads a whole text of `nano` lines, at most 1,048,576 bytes, runs it on one blank chip and writes
/// the chip's flags and planes. Nothing is written before the whole text was read, accepted and run.
pub fn chip_session<I: Source, O: Sink>(
    alloc: Global,
    source: &mut I,
    sink: &mut O,
) -> Result<(), ChipFault>
    requires reader { I.has_failed source.old ≡ false }
    requires writer { O.has_failed sink.old ≡ false }
    ensures ends { IfSome (I.left source.old)
        (λ text. ChipSessionEnds text (O.contents sink.old) (O.contents sink.new) result) }
    ensures heard { EndsForSome (I.left source.old) (I.left source.new) (O.contents sink.old) (O.contents sink.new)
        result }
    ensures end { IsTrue (has_read_all result) → IsAtEnd (I.left source.new) }
    ensures read { (I.has_failed source.new ≡ true) ↔ IsErrOf result ChipFault.Read }
    ensures read_within { IsErrOf result ChipFault.Read
        → ConsumesAtMost CHIP_LIMIT (I.left source.old) (I.left source.new) }
    ensures memory_within { IsErrOf result ChipFault.Memory
        → ConsumesAtMost CHIP_LIMIT (I.left source.old) (I.left source.new) }
    ensures too_much_came { IsErrOf result ChipFault.TooMuch
        → ConsumesBeyond CHIP_LIMIT (I.left source.old) (I.left source.new) }
    ensures write { O.has_failed sink.new ≡ is_chip_write result }
{
    let text = match take(alloc, source, CHIP_LIMIT) {
        Ok(text) => text,
        Err(TakeFault::Read) => return Err(ChipFault::Read),
        Err(TakeFault::TooMuch) => return Err(ChipFault::TooMuch),
        Err(TakeFault::Memory) => return Err(ChipFault::Memory),
    };
    let answer = match answer(alloc, text.as_slice()) {
        Ok(answer) => answer,
        Err(fault) => return Err(fault),
    };
    match write_all(sink, answer.as_slice()) {
        Ok(()) => Ok(()),
        Err(fault) => Err(ChipFault::Write(fault.0 as u128)),
    }
}

/// What the session writes for a text.
fn answer(alloc: Global, text: &[u8]) -> Result<Vec<u8>, ChipFault>
    requires short { length text.now < 2 ^ 63 }
    ensures value { MatchResult result (λ bytes. answer_of text.now ≡ Ok bytes.items) (HasNoAnswer text.now) }
{
    let nanos = match read_program(alloc, text) {
        Ok(nanos) => nanos,
        Err(fault) => return Err(ChipFault::Text(fault)),
    };
    let Ok(run) = run_chip(alloc, nanos.as_slice()) else {
        return Err(ChipFault::Memory);
    };
    match chip_text(alloc, &run.view(0)) {
        Ok(bytes) => Ok(bytes),
        Err(_) => Err(ChipFault::Memory),
    }
}
