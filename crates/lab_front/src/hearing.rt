//! Bytes of lines, as they come.

ghost use Rattle.std.specs.Prelude.{◌≡◌, ◌+◌, ◌<◌, ◌≤◌, ◌↔◌, drop, false, length, slice_index, take, true};
ghost use Rattle.std.specs.Prelude.{IfErr, IfOk, IsErrOf, OnOk};
ghost use Rattle.cm_bits.specs.Text.{IsUnended};
ghost use Rattle.lab_front.specs.Ends.{LINE_LIMIT};
ghost use Rattle.lab_front.specs.Hearing.{HasHeard, HearingStops};

use cm_bits::Source;
use cm_session::SessionFault;
use memchr::memchr;
use std::alloc::{AllocError, Global};

/// Most bytes of a line.
pub const LIMIT: usize = 16777216;

const PIECE: usize = 65536;

/// How many bytes stand before the first end of a line, or in all, where none stands among the first so many.
pub fn line_len(bytes: &[u8], seen: usize) -> usize
    requires within { seen ≤ length bytes.now }
    requires seen { IsUnended (take seen bytes.now) }
    ensures within { result ≤ length bytes.now }
    ensures unended { IsUnended (take result bytes.now) }
    ensures ends { result < length bytes.now → slice_index bytes.now result ≡ 10 }
{
    seen + end_of(&bytes[seen..])
}

/// The place of the first end of a line, or the length.
fn end_of(bytes: &[u8]) -> usize
    ensures within { result ≤ length bytes.now }
    ensures unended { IsUnended (take result bytes.now) }
    ensures ends { result < length bytes.now → slice_index bytes.now result ≡ 10 }
{
    match memchr(b'\n', bytes) {
        Some(place) => place,
        None => bytes.len(),
    }
}

/// Lets go of the first bytes, whose lines are answered, and asks for more behind the others, which begin a line that
/// is not too long. Of that line not more than one byte too many is taken.
pub fn hear<I: Source>(
    alloc: Global,
    commands: &mut I,
    heard: &mut Vec<u8>,
    place: usize,
) -> Result<usize, SessionFault>
    requires place { place ≤ length heard.old.items }
    requires short { length heard.old.items ≤ place + LINE_LIMIT }
    requires reader { I.has_failed commands.old ≡ false }
    ensures ok { IfOk result (HasHeard (I.left commands.old) (I.left commands.new) (drop place heard.old.items)
        heard.new.items) }
    ensures err { IfErr result (HearingStops (I.left commands.old) (I.left commands.new)
        (drop place heard.old.items)) }
    ensures failed { (I.has_failed commands.new ≡ true) ↔ IsErrOf result SessionFault.Read }
{
    let Ok(()) = let_go(alloc, heard, place) else {
        return Err(SessionFault::Memory);
    };
    let room = PIECE.min(LIMIT + 1 - heard.len());
    let mut piece = [0u8; PIECE];
    let part = &mut piece[..room];
    let Ok(count) = commands.read(part) else {
        return Err(SessionFault::Read);
    };
    if heard.extend_from_slice(&part[..count]).is_err() {
        return Err(SessionFault::Memory);
    }
    Ok(count)
}

/// Lets go of the first bytes. Where they are none nothing is copied, so that a long line is copied once.
fn let_go(alloc: Global, heard: &mut Vec<u8>, place: usize) -> Result<(), AllocError>
    requires place { place ≤ length heard.old.items }
    ensures ok { OnOk result (heard.new.items ≡ drop place heard.old.items) }
{
    if place > 0 {
        *heard = Vec::from_slice(alloc, &heard[place..])?;
    }
    Ok(())
}
