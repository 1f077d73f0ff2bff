//! The ends of bytes: where they come from and where they go.

ghost use Rattle.std.specs.Prelude.{◌≡◌, ℕ, Bool, true, false, ◌||◌, ◌<◌, List, Option, length, take, OnOk, IfErr};
ghost use Rattle.std.specs.Prelude.{MatchResult, is_err};
ghost use Rattle.std.specs.Io.{ReadsAtMost, WritesAtMost};
ghost use Rattle.std.specs.Io.KnownBytes.{Appends, ReadConsumes, WriteAppends};
ghost use Rattle.cm_bits.specs.Ends.{is_refused, std_inner, std_has_failed};

use std::io::{Read, Write};

/// A call of an end of bytes failed; which way is not kept.
#[derive(Clone, Copy, Debug, PartialEq, Eq)]
pub struct Failed;

/// Writing failed, or took 0 bytes, after so many bytes went out.
#[derive(Clone, Copy, Debug, PartialEq, Eq)]
pub struct WriteFault(pub usize);

/// Where bytes come from.
pub trait Source {
    // The bytes that are still to come, where they are known.
    ghost left: { Self → Option (List ℕ) };

    // A call has failed.
    ghost has_failed: { Self → Bool };

    /// Fills the front of `buf` and answers how many bytes; `Ok(0)` with room is the end.
    fn read(&mut self, buf: &mut [u8]) -> Result<usize, Failed>
        ensures bound { ReadsAtMost result buf.new }
        ensures bytes { ReadConsumes (left self.old) (left self.new) result buf.new }
        ensures failed { MatchResult result
            (λ _. has_failed self.new ≡ has_failed self.old)
            (λ _. has_failed self.new ≡ true) };
}

/// Where bytes go.
pub trait Sink {
    // The bytes that it has taken, where they are known.
    ghost contents: { Self → Option (List ℕ) };

    // A call has failed, or was given a byte or more and took none.
    ghost has_failed: { Self → Bool };

    /// Takes bytes from the front of `buf` and answers how many.
    fn write(&mut self, buf: &[u8]) -> Result<usize, Failed>
        ensures bound { WritesAtMost result buf.now }
        ensures bytes { WriteAppends (contents self.old) (contents self.new) result buf.now }
        ensures failed { MatchResult result
            (λ count. has_failed self.new ≡ (has_failed self.old || is_refused count buf.now))
            (λ _. has_failed self.new ≡ true) };
}

/// A reader or writer of std, as a source or a sink: it hands each call on once, and keeps whether one has failed.
#[derive(Drop)]
pub struct Std<T> {
    inner: T,
    failed: bool,
}

impl<T> Std<T> {
    /// This end of std, which has not failed yet.
    pub fn new(inner: T) -> Std<T>
        ensures inner { std_inner result ≡ inner }
        ensures failed { std_has_failed result ≡ false }
    {
        Std {
            inner,
            failed: false,
        }
    }
}

impl<T: Read> Source for Std<T> {
    ghost left = { λ s. T.remaining (std_inner s) };

    ghost has_failed = { std_has_failed };

    fn read(&mut self, buf: &mut [u8]) -> Result<usize, Failed> {
        match self.inner.read(buf) {
            Ok(count) => Ok(count),
            Err(_) => {
                self.failed = true;
                Err(Failed)
            }
        }
    }
}

impl<T: Write> Sink for Std<T> {
    ghost contents = { λ s. T.contents (std_inner s) };

    ghost has_failed = { std_has_failed };

    fn write(&mut self, buf: &[u8]) -> Result<usize, Failed> {
        match self.inner.write(buf) {
            Ok(count) => {
                if count == 0 && !buf.is_empty() {
                    self.failed = true;
                }
                Ok(count)
            }
            Err(_) => {
                self.failed = true;
                Err(Failed)
            }
        }
    }
}

/// Writes all of `bytes`, in as many calls as it takes.
pub fn write_all<O: Sink>(sink: &mut O, bytes: &[u8]) -> Result<(), WriteFault>
    requires working { O.has_failed sink.old ≡ false }
    ensures ok { OnOk result (Appends (O.contents sink.old) (O.contents sink.new) bytes.now) }
    ensures err { IfErr result (λ fault. (fault.0 < length bytes.now)
        × Appends (O.contents sink.old) (O.contents sink.new) (take fault.0 bytes.now)) }
    ensures failed { O.has_failed sink.new ≡ is_err result }
{
    let mut done = 0;
    while done < bytes.len() {
        match sink.write(&bytes[done..]) {
            Ok(count) if count > 0 => done += count,
            _ => return Err(WriteFault(done)),
        }
    }
    Ok(())
}
