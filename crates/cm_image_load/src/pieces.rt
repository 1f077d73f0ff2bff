//! Bytes of a source, which are read piece by piece.

ghost use Rattle.std.specs.Prelude.{◌≡◌, ◌↔◌, ℕ, ◌+◌, ◌-◌, ◌<◌, ◌≤◌, ◌++◌, List, true, false, IfOk, IfErr, IsErrOf};
ghost use Rattle.std.specs.Prelude.{drop, length};
ghost use Rattle.std.specs.Io.KnownBytes.{Consumes, IsAtEnd};
ghost use Rattle.cm_image_load.specs.Pieces.{GivesAtMost, GivesRest, IsStopped, between};

use cm_bits::{NoMemory, Source};
use cm_image_fields::push_zeros;
use cm_image_format::ImageFault;
use std::alloc::Global;
use std::marker::Model;
use thiserror::Error;

/// So many bytes of an image are read at a time: their room is written whole before the first, and is small beside any
/// machine.
pub const PIECE: usize = 16384;

/// Room for so many times the bytes that came first is taken with them, so that the list grows seldom.
const AHEAD: usize = 16;

/// So many bytes stand near at most where chips list all their memory planes: a cache holds them beside chips that
/// wait.
pub(crate) const WIDE: usize = 262144;

/// So many stand near at most where chips are smaller.
pub(crate) const NARROW: usize = 65536;

/// From so many on the next chip stands near whole.
const ENOUGH: usize = 20480;

/// Why no machine was read of a source.
#[derive(Clone, Copy, Debug, PartialEq, Eq, Error)]
pub enum SourceFault {
    #[error("no image, or out of memory")]
    Image(ImageFault),
    #[error("a read failed")]
    Read,
    #[error("more bytes than the limit")]
    TooMuch,
}

/// Bytes that were read of a source, and are not used up.
///
/// Contracts see these bytes.
#[derive(Drop)]
pub(crate) struct Window {
    bytes: Vec<u8>,
    from: usize,
    to: usize,
    /// Whether the source had nothing more: then it is not asked again before each of the last chips.
    ended: bool,
}

impl Model for Window {
    ghost use Rattle.std.specs.Prelude.{ℕ, ◌≤◌, List, length};
    ghost use Rattle.cm_image_load.specs.Pieces.{between};

    ghost Value = { List ℕ };

    ghost view = { λ window. between window.from window.to window.bytes.items };

    ghost invariant = { λ window. (window.from ≤ window.to) × (window.to ≤ length window.bytes.items) };
}

impl Window {
    /// Begins with these bytes, and has room for so many.
    pub(crate) fn of(alloc: Global, front: &[u8], width: usize) -> Result<Window, SourceFault>
        requires front { length front.now ≤ width }
        requires width { width ≤ 262144 }
        ensures value { IfOk result (λ window. window ≡ front.now) }
        ensures refused { IfErr result (λ fault. fault ≡ SourceFault.Image ImageFault.Memory) }
    {
        let Ok(mut bytes) = held(alloc, front, width) else {
            return Err(SourceFault::Image(ImageFault::Memory));
        };
        let Ok(()) = push_zeros(&mut bytes, width - front.len()) else {
            return Err(SourceFault::Image(ImageFault::Memory));
        };
        Ok(Window {
            bytes,
            from: 0,
            to: front.len(),
            ended: false,
        })
    }

    /// The bytes.
    pub(crate) fn rest(&self) -> &[u8]
        ensures value { result.now ≡ self.now }
    {
        &self.bytes[self.from..self.to]
    }

    /// Uses all up but so many, the last.
    pub(crate) fn keep(&mut self, count: usize)
        requires within { count ≤ length self.old }
        ensures value { self.new ≡ drop (length self.old - count) self.old }
    {
        self.from = self.to - count;
    }

    /// Reads on, unless the next chip stands here. How many bytes came.
    pub(crate) fn fill<I: Source>(&mut self, source: &mut I, most: u64) -> Result<u64, SourceFault>
        requires working { I.has_failed source.old ≡ false }
        ensures value { IfOk result (λ count. (came : List ℕ) × (self.new ≡ self.old ++ came)
            × Consumes (I.left source.old) (I.left source.new) came × (length came ≡ count) × (count ≤ most)) }
        ensures refused { IfErr result (IsStopped most (I.left source.old) (I.left source.new) (λ fault more. ⊥)) }
        ensures read { (I.has_failed source.new ≡ true) ↔ IsErrOf result SourceFault.Read }
    {
        if self.ended || self.to - self.from >= ENOUGH {
            return Ok(0);
        }
        self.move_to_front();
        self.read(source, most)
    }

    /// The bytes come to stand at the front of the room for them.
    fn move_to_front(&mut self)
        ensures value { self.new ≡ self.old }
    {
        self.bytes.copy_within(self.from..self.to, 0);
        self.to -= self.from;
        self.from = 0;
    }

    /// Reads once, as much as there is room for behind the bytes. How many came.
    fn read<I: Source>(&mut self, source: &mut I, most: u64) -> Result<u64, SourceFault>
        requires working { I.has_failed source.old ≡ false }
        ensures value { IfOk result (λ count. (came : List ℕ) × (self.new ≡ self.old ++ came)
            × Consumes (I.left source.old) (I.left source.new) came × (length came ≡ count) × (count ≤ most)) }
        ensures refused { IfErr result (IsStopped most (I.left source.old) (I.left source.new) (λ fault more. ⊥)) }
        ensures read { (I.has_failed source.new ≡ true) ↔ IsErrOf result SourceFault.Read }
    {
        let Ok(count) = source.read(&mut self.bytes[self.to..]) else {
            return Err(SourceFault::Read);
        };
        if count as u64 > most {
            return Err(SourceFault::TooMuch);
        }
        self.to += count;
        self.ended = count == 0;
        Ok(count as u64)
    }
}

/// These bytes and behind them all that a source has, at most so many.
pub fn take_rest<I: Source>(
    alloc: Global,
    front: &[u8],
    source: &mut I,
    most: u64,
) -> Result<Vec<u8>, SourceFault>
    requires working { I.has_failed source.old ≡ false }
    ensures value { IfOk result (λ bytes. GivesRest most (I.left source.old) (I.left source.new)
        (λ more. bytes.items ≡ front.now ++ more)) }
    ensures refused { IfErr result (IsStopped most (I.left source.old) (I.left source.new) (λ fault more. ⊥)) }
    ensures read { (I.has_failed source.new ≡ true) ↔ IsErrOf result SourceFault.Read }
{
    let Ok(mut taken) = held(alloc, front, front.len().saturating_mul(AHEAD)) else {
        return Err(SourceFault::Image(ImageFault::Memory));
    };
    let mut left = most;
    let mut piece = [0u8; PIECE];
    loop {
        let count = take_piece(&mut taken, source, left, &mut piece)?;
        if count == 0 {
            return Ok(taken);
        }
        left -= count;
    }
}

/// A list of these bytes, with room for so many in all.
fn held(alloc: Global, front: &[u8], room: usize) -> Result<Vec<u8>, NoMemory>
    ensures value { IfOk result (λ bytes. bytes.items ≡ front.now) }
{
    let mut bytes = Vec::with_capacity(alloc, room)?;
    bytes.extend_from_slice(front)?;
    Ok(bytes)
}

/// Reads once, by a piece, and puts what comes behind what was taken. How many bytes came.
fn take_piece<I: Source>(
    taken: &mut Vec<u8>,
    source: &mut I,
    most: u64,
    piece: &mut [u8],
) -> Result<u64, SourceFault>
    requires working { I.has_failed source.old ≡ false }
    requires some { 0 < length piece.old }
    ensures value { IfOk result (λ count. (came : List ℕ) × (taken.new.items ≡ taken.old.items ++ came)
        × Consumes (I.left source.old) (I.left source.new) came × (length came ≡ count) × (count ≤ most)) }
    ensures end { IfOk result (λ count. count ≡ 0 → IsAtEnd (I.left source.new)) }
    ensures refused { IfErr result (IsStopped most (I.left source.old) (I.left source.new) (λ fault more. ⊥)) }
    ensures read { (I.has_failed source.new ≡ true) ↔ IsErrOf result SourceFault.Read }
{
    let Ok(count) = source.read(piece) else {
        return Err(SourceFault::Read);
    };
    if count as u64 > most {
        return Err(SourceFault::TooMuch);
    }
    let Ok(()) = taken.extend_from_slice(&piece[..count]) else {
        return Err(SourceFault::Image(ImageFault::Memory));
    };
    Ok(count as u64)
}
