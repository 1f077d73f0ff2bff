//! Reading a source to its end.

ghost use Rattle.std.specs.Prelude.{◌≡◌, ◌<◌, ◌≤◌, ◌↔◌, true, false, length, IfOk, OnOk, IfSome, IsErrOf};
ghost use Rattle.std.specs.Io.KnownBytes.{Consumes, IsAtEnd};
ghost use Rattle.cm_system.specs.ReadAll.{ConsumesAtMost, ConsumesBeyond};

use cm_bits::Source;
use std::alloc::Global;
use thiserror::Error;

/// So many bytes are read at once.
const READ_AT_ONCE: usize = 16384;

/// Why a source was not read to its end.
#[derive(Clone, Copy, Debug, PartialEq, Eq, Error)]
pub enum TakeFault {
    #[error("a read failed")]
    Read,
    #[error("more bytes than the limit")]
    TooMuch,
    #[error("a growth of memory was refused")]
    Memory,
}

/// Reads a source to its end, at most `limit` bytes. After an `Err` some of its bytes may be gone.
pub fn take<I: Source>(alloc: Global, source: &mut I, limit: u64) -> Result<Vec<u8>, TakeFault>
    requires working { I.has_failed source.old ≡ false }

    ensures within { IfOk result (λ bytes. length bytes.items ≤ limit) }
    ensures ok { IfOk result (λ bytes. Consumes (I.left source.old) (I.left source.new) bytes.items) }
    ensures end { OnOk result (IsAtEnd (I.left source.new)) }

    ensures read { (I.has_failed source.new ≡ true) ↔ IsErrOf result TakeFault.Read }
    ensures read_within { IsErrOf result TakeFault.Read
        → ConsumesAtMost limit (I.left source.old) (I.left source.new) }
    ensures memory_within { IsErrOf result TakeFault.Memory
        → ConsumesAtMost limit (I.left source.old) (I.left source.new) }
    ensures too_much { IsErrOf result TakeFault.TooMuch → IfSome (I.left source.old) (λ bytes. limit < length bytes) }
    ensures too_much_came { IsErrOf result TakeFault.TooMuch
        → ConsumesBeyond limit (I.left source.old) (I.left source.new) }
{
    let mut taken = Vec::new(alloc);
    let mut piece = [0u8; READ_AT_ONCE];
    loop {
        let Ok(count) = source.read(&mut piece) else {
            return Err(TakeFault::Read);
        };
        if count == 0 {
            return Ok(taken);
        }
        if count as u64 > limit - taken.len() as u64 {
            return Err(TakeFault::TooMuch);
        }
        if taken.extend_from_slice(&piece[..count]).is_err() {
            return Err(TakeFault::Memory);
        }
    }
}
