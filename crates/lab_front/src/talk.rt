//! A front end, from the bytes of a source to those of a sink.

ghost use Rattle.std.specs.Prelude.{◌≡◌, ◌+◌, ◌<◌, ◌≤◌, ◌^◌, ◌↔◌, ◌⊎◌, false, length, true, Err, IfErr, IsErrOf};
ghost use Rattle.std.specs.Prelude.{IsFalse, IsTrue, OnOk};
ghost use Rattle.std.specs.Io.KnownBytes.{Appends, IsAtEnd};
ghost use Rattle.cm_session.specs.Ends.{is_session_no_thread, is_write};
ghost use Rattle.cm_debug.specs.BufferedOutput.{answered_bytes, with_gathered, AbortsBetween};
ghost use Rattle.cm_debug.specs.Telling.{is_thread};
ghost use Rattle.lab_front.specs.Front.{front_of, front_after_line};
ghost use Rattle.lab_front.specs.Ends.{LINE_LIMIT, ALL, Ends, CountsFrontLacks};
ghost use Rattle.lab_front.specs.Hearing.{LineAborts};

use crate::front_end::FrontEnd;
use crate::hearing::{LIMIT, hear, line_len};
use cm_array::{MachineOf, Runner, Sizes};
use cm_bits::{Sink, Source};
use cm_debug::{BufferedOutput, OutOf};
use cm_session::SessionFault;
use std::alloc::Global;

/// Most bytes of all lines.
const ALL: u64 = 1 << 63;

/// Does and answers the lines of a source one after another, each of at most 16,777,216 bytes, and leaves the machine
/// as they leave it. All answers are written before more bytes are asked for.
///
/// After a fault of reading, at a line that is too long and after 2^63 bytes in all, the lines that ended before are
/// done and answered. After a failed write, or for want of memory or of a thread, a front of the answers is written,
/// and the machine is that after a front of the lines.
pub fn front<S: Sizes, R: Runner<S>, I: Source, O: Sink>(
    alloc: Global,
    machine: &mut MachineOf<S>,
    commands: &mut I,
    out: &mut O,
    runner: &mut R,
) -> Result<(), SessionFault>
    requires runner { R.ready }
    requires reader { I.has_failed commands.old ≡ false }
    requires writer { O.has_failed out.old ≡ false }
    ensures ends { Ends S.n S.cap (I.left commands.old) (I.left commands.new) machine.old.machine (O.contents out.old)
        machine.new.machine (O.contents out.new) result }
    ensures end { OnOk result (IsAtEnd (I.left commands.new)) }
    ensures read { (I.has_failed commands.new ≡ true) ↔ IsErrOf result SessionFault.Read }
    ensures write { O.has_failed out.new ≡ is_write result }
    ensures threads { CountsFrontLacks (R.threads_lacked runner.old) (R.threads_lacked runner.new) result }
{
    let mut front = FrontEnd::new(alloc);
    let mut answers = BufferedOutput::new(alloc);
    let mut heard = Vec::new(alloc);
    let mut place = 0;
    let mut seen = 0;
    let mut taken = 0u64;
    loop {
        let rest = &heard[place..];
        let len = line_len(rest, seen);
        if len < rest.len() {
            match tell_line(
                alloc,
                &mut front,
                machine,
                runner,
                &rest[..len],
                &mut answers,
                out,
            ) {
                Ok(()) => {}
                Err(fault) => return Err(fault),
            }
            place += len + 1;
            seen = 0;
        } else {
            match answers.send(out) {
                Ok(()) => {}
                Err(cut) => return Err(SessionFault::Write(cut.0)),
            }
            if is_too_much(len, taken) {
                return Err(SessionFault::TooMuch);
            }
            let count = match hear(alloc, commands, &mut heard, place) {
                Ok(count) => count,
                Err(fault) => return Err(fault),
            };
            place = 0;
            seen = len;
            if count == 0 {
                break;
            }
            taken += count as u64;
        }
    }
    if heard.is_empty() {
        return Ok(());
    }
    // the end of the bytes ends the line that is open
    match tell_line(
        alloc,
        &mut front,
        machine,
        runner,
        heard.as_slice(),
        &mut answers,
        out,
    ) {
        Ok(()) => {}
        Err(fault) => return Err(fault),
    }
    match answers.send(out) {
        Ok(()) => Ok(()),
        Err(cut) => Err(SessionFault::Write(cut.0)),
    }
}

/// Whether no more bytes are asked for, where so many are of an open line, and so many came in all.
fn is_too_much(bytes: usize, taken: u64) -> bool
    ensures over { IsTrue result → (LINE_LIMIT < bytes) ⊎ (ALL ≤ taken) }
    ensures short { IsFalse result → bytes ≤ LINE_LIMIT }
    ensures few { IsFalse result → taken < ALL }
{
    bytes > LIMIT || taken >= ALL
}

/// Does a line, and its answer is gathered.
fn tell_line<S: Sizes, R: Runner<S>, O: Sink>(
    alloc: Global,
    front: &mut FrontEnd,
    machine: &mut MachineOf<S>,
    runner: &mut R,
    line: &[u8],
    answers: &mut BufferedOutput,
    out: &mut O,
) -> Result<(), SessionFault>
    requires runner { R.ready }
    requires writer { O.has_failed out.old ≡ false }
    requires room { answered_bytes answers.old + 2 ^ 64 < 2 ^ 128 }
    ensures front { OnOk result (front_of machine.new.machine front.new
        ≡ (front_after_line S.n S.cap (front_of machine.old.machine front.old) line.now).front) }
    ensures written { OnOk result (Appends (with_gathered (O.contents out.old) answers.old)
        (with_gathered (O.contents out.new) answers.new)
        (front_after_line S.n S.cap (front_of machine.old.machine front.old) line.now).answer) }
    ensures count { OnOk result (answered_bytes answers.new ≡ answered_bytes answers.old
        + length (front_after_line S.n S.cap (front_of machine.old.machine front.old) line.now).answer) }
    ensures few { OnOk result (answered_bytes answers.new ≤ answered_bytes answers.old + 2 ^ 64) }
    ensures err { IfErr result (LineAborts S.n S.cap (front_of machine.old.machine front.old) line.now answers.old.sent
        answers.old.bytes.items (O.contents out.old) machine.new.machine (O.contents out.new)) }
    ensures failed { O.has_failed out.new ≡ is_write result }
    ensures threads { CountsFrontLacks (R.threads_lacked runner.old) (R.threads_lacked runner.new) result }
{
    match front.tell(alloc, machine, runner, line, &mut answers.line) {
        Ok(()) => match answers.add_line(out) {
            Ok(()) => Ok(()),
            Err(cut) => Err(SessionFault::Write(cut.0)),
        },
        Err(want) => Err(give_up(answers, want, out)),
    }
}

/// What a front end ends by that wants something: what is gathered is written first.
fn give_up<O: Sink>(answers: &mut BufferedOutput, want: OutOf, out: &mut O) -> SessionFault
    requires writer { O.has_failed out.old ≡ false }
    requires room { answered_bytes answers.old < 2 ^ 128 }
    ensures value { AbortsBetween answers.old.sent answers.old.bytes.items (O.contents out.old) (O.contents out.new)
        result }
    ensures failed { O.has_failed out.new ≡ is_write (Err result) }
    ensures thread { is_session_no_thread result ≡ true → is_thread want ≡ true }
    ensures memory { result ≡ SessionFault.Memory → is_thread want ≡ false }
{
    match answers.send(out) {
        Ok(()) => {}
        Err(cut) => return SessionFault::Write(cut.0),
    }
    match want {
        OutOf::Memory => SessionFault::Memory,
        OutOf::Thread => SessionFault::NoThread,
    }
}
