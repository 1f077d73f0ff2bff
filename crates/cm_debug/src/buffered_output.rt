//! Answers on their way to a sink: those of many lines go out in one write.

ghost use Rattle.std.specs.Prelude.{◌≡◌, ◌+◌, ◌<◌, ◌≤◌, ◌^◌, ◌++◌, [], false, length, is_err, OnOk, IfErr, Err};
ghost use Rattle.std.specs.Prelude.{if◌then◌else◌};
ghost use Rattle.std.specs.Io.KnownBytes.{Appends};
ghost use Rattle.cm_session.specs.Ends.{is_session_no_thread, is_write};
ghost use Rattle.cm_debug.specs.Gathering.{GATHERED_LIMIT};
ghost use Rattle.cm_debug.specs.Telling.{is_thread};
ghost use Rattle.cm_debug.specs.declared.out_of.OutOf.TheVariants.{Thread};

use crate::out_of::OutOf;
use cm_bits::{Sink, write_all};
use cm_session::SessionFault;
use std::alloc::Global;

/// The most bytes that are gathered.
const GATHERED_LIMIT: usize = 65536;

/// A write failed, or took no byte, after so many bytes of all answers went out.
#[derive(Clone, Copy)]
pub struct CutOff(pub u128);

/// The answers that are not written yet, and how many bytes went out before them.
#[derive(Drop)]
pub struct BufferedOutput {
    /// The answer that is being made.
    pub line: Vec<u8>,
    pub bytes: Vec<u8>,
    pub sent: u128,
    ghost few: { length bytes.items ≤ GATHERED_LIMIT },
}

impl BufferedOutput {
    ghost use Rattle.cm_debug.specs.BufferedOutput.{answered_bytes, with_gathered, AbortsBetween, IsShortWriteAfter};

    /// Before the first answer.
    pub fn new(alloc: Global) -> BufferedOutput
        ensures none { result.bytes.items ≡ [] }
        ensures sent { result.sent ≡ 0 }
    {
        BufferedOutput {
            line: Vec::new(alloc),
            bytes: Vec::new(alloc),
            sent: 0,
        }
    }

    /// The answer that was made is gathered. Where there is no room for it, all are written.
    pub fn add_line<O: Sink>(&mut self, out: &mut O) -> Result<(), CutOff>
        requires writer { O.has_failed out.old ≡ false }
        requires room { answered_bytes self.old + length self.old.line.items < 2 ^ 128 }
        ensures written { OnOk result (Appends (with_gathered (O.contents out.old) self.old)
            (with_gathered (O.contents out.new) self.new) self.old.line.items) }
        ensures count { OnOk result (answered_bytes self.new
            ≡ answered_bytes self.old + length self.old.line.items) }
        ensures err { IfErr result (λ cut. IsShortWriteAfter self.old.sent (self.old.bytes.items ++ self.old.line.items)
            (O.contents out.old) (O.contents out.new) cut.0) }
        ensures failed { O.has_failed out.new ≡ is_err result }
    {
        if self.takes_line() {
            return Ok(());
        }
        match self.send(out) {
            Ok(()) => {}
            Err(cut) => return Err(cut),
        }
        match write_all(out, &self.line) {
            Ok(()) => {
                self.sent += self.line.len() as u128;
                Ok(())
            }
            Err(fault) => Err(CutOff(self.sent + fault.0 as u128)),
        }
    }

    /// Whether the answer that was made has its place behind the others, which it takes then.
    fn takes_line(&mut self) -> bool
        ensures bytes { self.new.bytes.items
            ≡ (if result then self.old.bytes.items ++ self.old.line.items else self.old.bytes.items) }
        ensures line { self.new.line.items ≡ self.old.line.items }
        ensures sent { self.new.sent ≡ self.old.sent }
    {
        self.line.len() <= GATHERED_LIMIT - self.bytes.len()
            && self.bytes.extend_from_slice(&self.line).is_ok()
    }

    /// Writes what is gathered. It is not inlined, since the code that calls it is compiled for each runner.
    #[inline(never)]
    pub fn send<O: Sink>(&mut self, out: &mut O) -> Result<(), CutOff>
        requires writer { O.has_failed out.old ≡ false }
        requires room { answered_bytes self.old < 2 ^ 128 }
        ensures line { self.new.line.items ≡ self.old.line.items }
        ensures written { OnOk result (Appends (O.contents out.old) (O.contents out.new) self.old.bytes.items) }
        ensures none { OnOk result (self.new.bytes.items ≡ []) }
        ensures sent { OnOk result (self.new.sent ≡ answered_bytes self.old) }
        ensures err { IfErr result (λ cut. IsShortWriteAfter self.old.sent self.old.bytes.items (O.contents out.old)
            (O.contents out.new) cut.0) }
        ensures failed { O.has_failed out.new ≡ is_err result }
    {
        match write_all(out, &self.bytes) {
            Ok(()) => {
                self.sent += self.bytes.len() as u128;
                self.bytes.clear();
                Ok(())
            }
            Err(fault) => Err(CutOff(self.sent + fault.0 as u128)),
        }
    }

    /// Ends a session that lacks memory or a thread: writes the answers that are gathered. Returns the fault of this
    /// write if the write fails, else the fault of what is lacking.
    pub fn give_up<O: Sink>(&mut self, want: OutOf, out: &mut O) -> SessionFault
        requires writer { O.has_failed out.old ≡ false }
        requires room { answered_bytes self.old < 2 ^ 128 }
        requires none { want ≡ Thread → self.old.bytes.items ≡ [] }
        ensures value { AbortsBetween self.old.sent self.old.bytes.items (O.contents out.old)
            (O.contents out.new) result }
        ensures failed { O.has_failed out.new ≡ is_write (Err result) }
        ensures thread { is_session_no_thread result ≡ is_thread want }
        ensures none { is_write (Err result) ≡ false → self.new.bytes.items ≡ [] }
        ensures sent { is_write (Err result) ≡ false → self.new.sent ≡ answered_bytes self.old }
    {
        match self.send(out) {
            Ok(()) => {}
            Err(cut) => return SessionFault::Write(cut.0),
        }
        match want {
            OutOf::Memory => SessionFault::Memory,
            OutOf::Thread => SessionFault::NoThread,
        }
    }
}
