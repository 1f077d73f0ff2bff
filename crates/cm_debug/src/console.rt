//! A console, which takes the bytes of commands and writes their answers.

ghost use Rattle.std.specs.Prelude.{◌≡◌, ◌<◌, ◌≤◌, ◌+◌, ◌*◌, ◌^◌, ◌++◌, ◌∷◌, ◌⊎◌, [], false, true, length, replicate};
ghost use Rattle.std.specs.Prelude.{take, slice_index, is_err, IfOk, IfSome, IfErr, IsTrue, OnOk};
ghost use Rattle.std.specs.Io.KnownBytes.{Appends};
ghost use Rattle.cm_bits.specs.Text.{words_of, IsUnended};
ghost use Rattle.cm_session.specs.Bounds.{IsFor};
ghost use Rattle.cm_session.specs.Commands.{command_of};
ghost use Rattle.cm_session.specs.Session.{answered};
ghost use Rattle.cm_session.specs.Ends.{is_write};
ghost use Rattle.cm_debug.specs.BufferedOutput.{answered_bytes, with_gathered, IsShortWriteAfter};
ghost use Rattle.cm_debug.specs.State.{session_of};
ghost use Rattle.cm_debug.specs.Talk.{talk};
ghost use Rattle.cm_debug.specs.Taking.{Takes, ConsoleAnswers};
ghost use Rattle.cm_debug.specs.Telling.{asks_for_acts, asks_to_run};

use crate::buffered_output::{BufferedOutput, CutOff};
use crate::commands::asks_for_acts;
use crate::debugger::Debugger;
use crate::out_of::OutOf;
use crate::reader::read_command;
use cm_array::{MachineOf, Runner, Sizes};
use cm_bits::Sink;
use cm_model::Act;
use cm_session::{Command, Refusal, SessionFault};
use memchr::memchr;
use std::alloc::{AllocError, Global};

/// A debugger, the bytes of the line that is open, and the answers that are not written yet.
#[derive(Drop)]
pub struct Console<'a> {
    pub debugger: Debugger<'a>,
    pub line: Vec<u8>,
    pub output: BufferedOutput,
}

impl<'a> Console<'a> {
    /// Before the first byte.
    pub fn new(alloc: Global, acts: &'a [Act]) -> Result<Console<'a>, AllocError>
        ensures acts { IfOk result (λ console. console.debugger.acts.now ≡ acts.now) }
        ensures position { IfOk result (λ console. console.debugger.position ≡ 0) }
        ensures breaks { IfOk result (λ console. console.debugger.breakpoints.items
            ≡ replicate (length acts.now) false) }
        ensures trace { IfOk result (λ console. console.debugger.trace ≡ false) }
        ensures line { IfOk result (λ console. console.line.items ≡ []) }
        ensures none { IfOk result (λ console. console.output.bytes.items ≡ []) }
        ensures sent { IfOk result (λ console. console.output.sent ≡ 0) }
    {
        let debugger = Debugger::new(alloc, acts)?;
        Ok(Console {
            debugger,
            line: Vec::new(alloc),
            output: BufferedOutput::new(alloc),
        })
    }

    /// Answers the lines whose ends stand among these bytes, and keeps the bytes of the line that is open. The answers
    /// are written then.
    pub fn feed<S: Sizes, R: Runner<S>, O: Sink>(
        &mut self,
        machine: &mut MachineOf<S>,
        runner: &mut R,
        piece: &[u8],
        out: &mut O,
    ) -> Result<(), SessionFault>
        requires runner { R.ready }
        requires writer { O.has_failed out.old ≡ false }
        requires room { answered_bytes self.old.output + (length piece.now + 1) * 2 ^ 64 < 2 ^ 128 }
        ensures takes { Takes S.n S.cap
            (talk machine.old.machine self.old (O.contents out.old) (R.threads_lacked runner.old)) piece.now
            (talk machine.new.machine self.new (O.contents out.new) (R.threads_lacked runner.new)) result }
        ensures none { OnOk result (self.new.output.bytes.items ≡ []) }
        ensures failed { O.has_failed out.new ≡ is_write result }
    {
        match self.hear(machine, runner, piece, out) {
            Ok(()) => {}
            Err(fault) => return Err(fault),
        }
        match self.output.send(out) {
            Ok(()) => Ok(()),
            Err(cut) => Err(SessionFault::Write(cut.0)),
        }
    }

    /// The same, but answers may be left that are gathered.
    fn hear<S: Sizes, R: Runner<S>, O: Sink>(
        &mut self,
        machine: &mut MachineOf<S>,
        runner: &mut R,
        piece: &[u8],
        out: &mut O,
    ) -> Result<(), SessionFault>
        requires runner { R.ready }
        requires writer { O.has_failed out.old ≡ false }
        requires room { answered_bytes self.old.output + (length piece.now + 1) * 2 ^ 64 < 2 ^ 128 }
        ensures takes { Takes S.n S.cap
            (talk machine.old.machine self.old (O.contents out.old) (R.threads_lacked runner.old)) piece.now
            (talk machine.new.machine self.new (O.contents out.new) (R.threads_lacked runner.new)) result }
        ensures failed { O.has_failed out.new ≡ is_write result }
    {
        let mut done = 0;
        while done < piece.len() {
            let rest = &piece[done..];
            let len = line_len(rest);
            if len == rest.len() {
                return match self.line.extend_from_slice(rest) {
                    Ok(()) => Ok(()),
                    Err(_) => Err(self.output.give_up(OutOf::Memory, out)),
                };
            }
            match self.end_line(machine, runner, &rest[..len], out) {
                Ok(()) => {}
                Err(fault) => return Err(fault),
            }
            done += len + 1;
        }
        Ok(())
    }

    /// A line ends with these bytes, and is answered. A runner of threads may want one: before it is asked, the answers
    /// of other lines are written, and before acts that may be many.
    fn end_line<S: Sizes, R: Runner<S>, O: Sink>(
        &mut self,
        machine: &mut MachineOf<S>,
        runner: &mut R,
        part: &[u8],
        out: &mut O,
    ) -> Result<(), SessionFault>
        requires runner { R.ready }
        requires writer { O.has_failed out.old ≡ false }
        requires unended { IsUnended part.now }
        requires room { answered_bytes self.old.output + 2 ^ 64 < 2 ^ 128 }
        ensures takes { Takes S.n S.cap
            (talk machine.old.machine self.old (O.contents out.old) (R.threads_lacked runner.old)) (part.now ++ 10 ∷ [])
            (talk machine.new.machine self.new (O.contents out.new) (R.threads_lacked runner.new)) result }
        ensures failed { O.has_failed out.new ≡ is_write result }
    {
        let n = usize::from(machine.dims());
        let count = self.debugger.acts.len();
        let asked = match read_ended::<S>(&mut self.line, part, n, count) {
            Ok(asked) => asked,
            Err(_) => return Err(self.output.give_up(OutOf::Memory, out)),
        };
        let wants = runner.may_want_threads();
        match send_before(&asked, wants, &mut self.output, out) {
            Ok(()) => {}
            Err(cut) => return Err(SessionFault::Write(cut.0)),
        }
        match self.tell(machine, runner, asked, out) {
            Ok(()) => Ok(()),
            Err(fault) => Err(fault),
        }
    }

    /// Does what was read of a line, and its answer is gathered, which is made whole first. Where acts are asked for
    /// that may be many, or of a runner that may want a thread, nothing is gathered before.
    fn tell<S: Sizes, R: Runner<S>, O: Sink>(
        &mut self,
        machine: &mut MachineOf<S>,
        runner: &mut R,
        asked: Result<Option<Command>, Refusal>,
        out: &mut O,
    ) -> Result<(), SessionFault>
        requires runner { R.ready }
        requires operands { IfOk asked (λ command. IfSome command (IsFor S.n (length self.old.debugger.acts.now))) }
        requires none { ((before after : R) → R.threads_lacked before ≡ R.threads_lacked after)
            ⊎ (IsTrue (asks_for_acts asked) → self.old.output.bytes.items ≡ []) }
        requires run { IsTrue (asks_to_run asked) → self.old.output.bytes.items ≡ [] }
        requires writer { O.has_failed out.old ≡ false }
        requires room { answered_bytes self.old.output + 2 ^ 64 < 2 ^ 128 }
        ensures tells { ConsoleAnswers S.n S.cap
            (answered S.n S.cap self.old.debugger.acts.now (session_of machine.old.machine self.old.debugger) asked)
            (talk machine.old.machine self.old (O.contents out.old) (R.threads_lacked runner.old))
            (talk machine.new.machine self.new (O.contents out.new) (R.threads_lacked runner.new)) result }
        ensures failed { O.has_failed out.new ≡ is_write result }
    {
        let Console {
            debugger,
            output,
            ..
        } = self;
        output.line.clear();
        match debugger.answer(machine, runner, asked, &mut output.line) {
            Ok(()) => match output.add_line(out) {
                Ok(()) => Ok(()),
                Err(cut) => Err(SessionFault::Write(cut.0)),
            },
            Err(want) => Err(output.give_up(want, out)),
        }
    }
}

/// What the line asks for that ends with these bytes. None is open then.
fn read_ended<S: Sizes>(
    line: &mut Vec<u8>,
    part: &[u8],
    dimensions: usize,
    count: usize,
) -> Result<Result<Option<Command>, Refusal>, AllocError>
    requires n { dimensions ≡ S.n }
    requires dimension { S.n ≤ 12 }
    ensures asked { IfOk result (λ asked. asked
        ≡ command_of S.n count (words_of (line.old.items ++ part.now))) }
    ensures inside { IfOk result (λ asked. IfOk asked (λ command. IfSome command (IsFor S.n count))) }
    ensures none { OnOk result (line.new.items ≡ []) }
{
    if line.is_empty() {
        return Ok(read_command(part, dimensions, count));
    }
    line.extend_from_slice(part)?;
    let asked = read_command(line.as_slice(), dimensions, count);
    line.clear();
    Ok(asked)
}

/// What is gathered is written, if a line asks for acts that may be many, or for one before which a thread may be
/// wanting.
fn send_before<O: Sink>(
    asked: &Result<Option<Command>, Refusal>,
    wants: bool,
    answers: &mut BufferedOutput,
    out: &mut O,
) -> Result<(), CutOff>
    requires writer { O.has_failed out.old ≡ false }
    requires room { answered_bytes answers.old < 2 ^ 128 }
    ensures written { OnOk result (Appends (with_gathered (O.contents out.old) answers.old)
        (with_gathered (O.contents out.new) answers.new) []) }
    ensures count { OnOk result (answered_bytes answers.new ≡ answered_bytes answers.old) }
    ensures none { OnOk result (wants ≡ true → IsTrue (asks_for_acts asked.now) → answers.new.bytes.items ≡ []) }
    ensures run { OnOk result (IsTrue (asks_to_run asked.now) → answers.new.bytes.items ≡ []) }
    ensures err { IfErr result (λ cut. IsShortWriteAfter answers.old.sent answers.old.bytes.items (O.contents out.old)
        (O.contents out.new) cut.0) }
    ensures failed { O.has_failed out.new ≡ is_err result }
{
    if !goes_before(asked, wants) {
        return Ok(());
    }
    answers.send(out)
}

/// Whether answers go out before such a line is answered.
fn goes_before(asked: &Result<Option<Command>, Refusal>, wants: bool) -> bool
    ensures acts { wants ≡ true → IsTrue (asks_for_acts asked.now) → result ≡ true }
    ensures run { IsTrue (asks_to_run asked.now) → result ≡ true }
{
    match asked {
        Ok(Some(Command::Step)) => wants,
        _ => asks_for_acts(asked),
    }
}

/// How many bytes stand before the first end of a line, or in all.
fn line_len(bytes: &[u8]) -> usize
    ensures within { result ≤ length bytes.now }
    ensures unended { IsUnended (take result bytes.now) }
    ensures ends { result < length bytes.now → slice_index bytes.now result ≡ 10 }
{
    match memchr(b'\n', bytes) {
        Some(place) => place,
        None => bytes.len(),
    }
}
