//! The listing of a program, from the bytes of a source to those of a sink.

ghost use Rattle.std.specs.Prelude.{◌≡◌, ◌↔◌, true, false, IfSome, IsErrOf, IsTrue, MatchResult};
ghost use Rattle.std.specs.Io.KnownBytes.{IsAtEnd};
ghost use Rattle.cm_system.specs.ReadAll.{ConsumesAtMost, ConsumesBeyond};
ghost use Rattle.cm_tools.specs.Listed.{EndsListing, EndsListingForSome, IsListingOf, HasNoListing, has_read_all};
ghost use Rattle.cm_tools.specs.Listed.{is_listing_write};

use cm_asm::assemble;
use cm_bits::{Sink, Source, write_all};
use cm_system::{PROGRAM_LIMIT, ProgramFault, take};
use std::alloc::Global;

/// Reads a whole program text, at most 16,777,216 bytes, and writes its listing: the fields that the
/// text defines, and the acts of its lines. Nothing is written before every line was accepted.
pub fn list<I: Source, O: Sink>(
    alloc: Global,
    source: &mut I,
    sink: &mut O,
) -> Result<(), ProgramFault>
    requires reader { I.has_failed source.old ≡ false }
    requires writer { O.has_failed sink.old ≡ false }
    ensures ends { IfSome (I.left source.old) (λ text. EndsListing text (O.contents sink.old)
        (O.contents sink.new) result) }
    ensures heard { EndsListingForSome (I.left source.old) (I.left source.new) (O.contents sink.old)
        (O.contents sink.new) result }
    ensures end { IsTrue (has_read_all result) → IsAtEnd (I.left source.new) }
    ensures read { (I.has_failed source.new ≡ true) ↔ IsErrOf result ProgramFault.Read }
    ensures read_within { IsErrOf result ProgramFault.Read
        → ConsumesAtMost PROGRAM_LIMIT (I.left source.old) (I.left source.new) }
    ensures memory_within { IsErrOf result ProgramFault.Memory
        → ConsumesAtMost PROGRAM_LIMIT (I.left source.old) (I.left source.new) }
    ensures too_much_came { IsErrOf result ProgramFault.TooMuch
        → ConsumesBeyond PROGRAM_LIMIT (I.left source.old) (I.left source.new) }
    ensures write { O.has_failed sink.new ≡ is_listing_write result }
{
    let text = match take(alloc, source, PROGRAM_LIMIT) {
        Ok(text) => text,
        Err(fault) => return Err(ProgramFault::from(fault)),
    };
    let listing = match listing_of(alloc, text.as_slice()) {
        Ok(listing) => listing,
        Err(fault) => return Err(fault),
    };
    match write_all(sink, listing.as_slice()) {
        Ok(()) => Ok(()),
        Err(_) => Err(ProgramFault::Write),
    }
}

/// The listing of a text.
fn listing_of(alloc: Global, text: &[u8]) -> Result<Vec<u8>, ProgramFault>
    ensures value { MatchResult result (λ bytes. IsListingOf text.now bytes.items) (HasNoListing text.now) }
{
    let program = match assemble(alloc, text) {
        Ok(program) => program,
        Err(fault) => return Err(ProgramFault::Text(fault)),
    };
    match program.listing(alloc) {
        Ok(listing) => Ok(listing),
        Err(_) => Err(ProgramFault::Memory),
    }
}
