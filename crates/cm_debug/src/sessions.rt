//! A session, from the bytes of a source to those of a sink.

ghost use Rattle.std.specs.Prelude.{◌≡◌, ◌≤◌, ◌+◌, ◌*◌, ◌^◌, ◌↔◌, true, false, length, [], IfSome, IsErrOf};
ghost use Rattle.std.specs.Prelude.{OnOk};
ghost use Rattle.std.specs.Io.KnownBytes.{IsAtEnd};
ghost use Rattle.cm_array.specs.Faults.{CountsLacks};
ghost use Rattle.cm_session.specs.Reading.{ConsumesAtMost, PIECE_LIMIT};
ghost use Rattle.cm_session.specs.Ends.{COMMANDS_LIMIT, Ends, EndsForSome, is_session_no_thread, is_write};
ghost use Rattle.cm_debug.specs.Talk.{setting, talk, AreProcessed};
ghost use Rattle.cm_debug.specs.Hearing.{HasEnded, TakesAll};

use crate::console::Console;
use cm_array::{MachineOf, Runner, Sizes};
use cm_asm::Program;
use cm_bits::{Sink, Source};
use cm_model::Act;
use cm_session::SessionFault;
use std::alloc::Global;

const LIMIT: usize = 1048576;

const PIECE: usize = 4096;

/// Answers commands line by line, at most 1,048,576 bytes of them, and leaves the machine as they leave it. No bytes
/// are asked for while a line that has ended is not answered.
///
/// After a fault of reading, and after too much, the lines that ended before are answered. After a failed write, or for
/// want of memory or of a thread, a front of the answers is written, and the machine is that after a front of the lines
/// and perhaps some of the acts that the next one runs.
pub fn session<S: Sizes, R: Runner<S>, I: Source, O: Sink>(
    alloc: Global,
    machine: &mut MachineOf<S>,
    program: &Program,
    commands: &mut I,
    out: &mut O,
    runner: &mut R,
) -> Result<(), SessionFault>
    requires runner { R.ready }
    requires reader { I.has_failed commands.old ≡ false }
    requires writer { O.has_failed out.old ≡ false }
    ensures ends { IfSome (I.left commands.old) (λ text. Ends S.n S.cap program.now.acts text (I.left commands.new)
        machine.old.machine (O.contents out.old) machine.new.machine (O.contents out.new) result) }
    ensures heard { EndsForSome S.n S.cap program.now.acts (I.left commands.old) (I.left commands.new)
        machine.old.machine (O.contents out.old) machine.new.machine (O.contents out.new) result }
    ensures end { OnOk result (IsAtEnd (I.left commands.new)) }
    ensures within { ConsumesAtMost (COMMANDS_LIMIT + PIECE_LIMIT) (I.left commands.old) (I.left commands.new) }
    ensures read { (I.has_failed commands.new ≡ true) ↔ IsErrOf result SessionFault.Read }
    ensures write { O.has_failed out.new ≡ is_write result }
    ensures thread { CountsLacks is_session_no_thread (R.threads_lacked runner.old)
        (R.threads_lacked runner.new) result }
{
    answer_all(alloc, machine, program.acts(), commands, out, runner)
}

/// Answers the commands of a source, with a program of these acts.
fn answer_all<S: Sizes, R: Runner<S>, I: Source, O: Sink>(
    alloc: Global,
    machine: &mut MachineOf<S>,
    acts: &[Act],
    commands: &mut I,
    out: &mut O,
    runner: &mut R,
) -> Result<(), SessionFault>
    requires runner { R.ready }
    requires reader { I.has_failed commands.old ≡ false }
    requires writer { O.has_failed out.old ≡ false }
    ensures ended { HasEnded S.n S.cap
        (setting acts.now machine.old.machine (O.contents out.old) (R.threads_lacked runner.old))
        (I.left commands.old) (I.left commands.new)
        (setting acts.now machine.new.machine (O.contents out.new) (R.threads_lacked runner.new)) result }
    ensures read { (I.has_failed commands.new ≡ true) ↔ IsErrOf result SessionFault.Read }
    ensures write { O.has_failed out.new ≡ is_write result }
{
    let Ok(mut console) = Console::new(alloc, acts) else {
        return Err(SessionFault::Memory);
    };
    match console.hear_all(machine, runner, commands, out) {
        Ok(()) => {}
        Err(fault) => return Err(fault),
    }
    if console.line.is_empty() {
        return Ok(());
    }
    // the end of the bytes ends the line that is open
    match console.feed(machine, runner, b"\n", out) {
        Ok(()) => Ok(()),
        Err(fault) => Err(fault),
    }
}

impl Console<'_> {
    /// Answers the lines that end in the bytes of a source, until that is at its end, and keeps the line that is open.
    fn hear_all<S: Sizes, R: Runner<S>, I: Source, O: Sink>(
        &mut self,
        machine: &mut MachineOf<S>,
        runner: &mut R,
        commands: &mut I,
        out: &mut O,
    ) -> Result<(), SessionFault>
        requires runner { R.ready }
        requires reader { I.has_failed commands.old ≡ false }
        requires writer { O.has_failed out.old ≡ false }
        requires first { AreProcessed S.n S.cap (setting self.old.debugger.acts.now machine.old.machine
            (O.contents out.old) (R.threads_lacked runner.old)) []
            (talk machine.old.machine self.old (O.contents out.old) (R.threads_lacked runner.old)) }
        requires none { self.old.output.bytes.items ≡ [] }
        requires sent { self.old.output.sent ≡ 0 }
        ensures takes { TakesAll S.n S.cap (setting self.old.debugger.acts.now machine.old.machine (O.contents out.old)
            (R.threads_lacked runner.old)) (I.left commands.old) (I.left commands.new)
            (talk machine.new.machine self.new (O.contents out.new) (R.threads_lacked runner.new)) result }
        ensures none { OnOk result (self.new.output.bytes.items ≡ []) }
        ensures few { OnOk result (self.new.output.sent ≤ 2 ^ 20 * 2 ^ 64) }
        ensures reading { OnOk result (I.has_failed commands.new ≡ false) }
        ensures read { (I.has_failed commands.new ≡ true) ↔ IsErrOf result SessionFault.Read }
        ensures write { O.has_failed out.new ≡ is_write result }
    {
        let mut taken = 0;
        let mut piece = [0u8; PIECE];
        loop {
            let Ok(count) = commands.read(&mut piece) else {
                return Err(SessionFault::Read);
            };
            if count == 0 {
                return Ok(());
            }
            let room = count.min(LIMIT - taken);
            match self.feed(machine, runner, &piece[..room], out) {
                Ok(()) => taken += room,
                Err(fault) => return Err(fault),
            }
            if room < count {
                return Err(SessionFault::TooMuch);
            }
        }
    }
}
