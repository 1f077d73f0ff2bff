//! What a front end keeps between two lines, and what a line does.

ghost use Rattle.std.specs.Prelude.{◌≡◌, [], false, IfErr, OnErr, OnOk};
ghost use Rattle.cm_bits.specs.Text.{words_of};
ghost use Rattle.cm_model.specs.Machine.{run_of};
ghost use Rattle.cm_array.specs.Faults.{CountsLacks};
ghost use Rattle.cm_language.specs.Program.{Reading, nothing_read};
ghost use Rattle.cm_session.specs.Answer.{refused_line};
ghost use Rattle.cm_debug.specs.Telling.{is_thread};
ghost use Rattle.lab_front.specs.Asked.{question_of};
ghost use Rattle.lab_front.specs.ForAll.{asked_of, AreFor};
ghost use Rattle.lab_front.specs.Front.{front_of, said, front_after_line, acts_line, after_accepted_acts, done_line};
ghost use Rattle.lab_front.specs.Front.{answered_to};
ghost use Rattle.lab_front.specs.Front.{for_all, for_all_obeyed, read_more, front_answered_with};

use crate::for_all::{Asked, is_for_all, read_asked};
use crate::questions::{is_of_program, own_number, read_question};
use crate::reading::read_line;
use crate::telling::{push_buffers, push_field, push_flags, push_image, push_standing};
use cm_array::{MachineOf, RunFault, Runner, Sizes};
use cm_asm::Reader;
use cm_bits::NoMemory;
use cm_debug::{Debugger, OutOf, push_bit, push_number, push_word};
use cm_model::Act;
use cm_session::CLOCK;
use lab_data::{Order, put};
use std::alloc::{AllocError, Global};
use std::marker::Model;

/// The number of the refusal of acts that are too many for one stretch.
const LONG: u64 = 6;

/// The fields and the context of the program so far.
#[derive(Drop)]
pub struct FrontEnd {
    reader: Reader,
}

impl Model for FrontEnd {
    ghost use Rattle.cm_language.specs.Program.{Reading};
    ghost use Rattle.lab_front.specs.Front.{without_acts};

    ghost Value = { Reading };

    ghost view = { λ front. without_acts front.reader };
}

impl FrontEnd {
    /// Before the first line.
    pub fn new(alloc: Global) -> FrontEnd
        ensures { result ≡ nothing_read }
    {
        FrontEnd {
            reader: Reader::new(alloc),
        }
    }

    /// Does what a line says or asks, and makes its answer. After an `Err` the machine is as it was, and the front end
    /// is not used again.
    pub fn tell<S: Sizes, R: Runner<S>>(
        &mut self,
        alloc: Global,
        machine: &mut MachineOf<S>,
        runner: &mut R,
        line: &[u8],
        text: &mut Vec<u8>,
    ) -> Result<(), OutOf>
        requires runner { R.ready }
        ensures answer { OnOk result (text.new.items
            ≡ (front_after_line S.n S.cap (front_of machine.old.machine self.old) line.now).answer) }
        ensures front { OnOk result (front_of machine.new.machine self.new
            ≡ (front_after_line S.n S.cap (front_of machine.old.machine self.old) line.now).front) }
        ensures err { OnErr result (machine.new.machine ≡ machine.old.machine) }
        ensures thread { CountsLacks is_thread (R.threads_lacked runner.old) (R.threads_lacked runner.new) result }
    {
        text.clear();
        if is_of_program(line) {
            self.say(alloc, machine, runner, line, text)
        } else if is_for_all(line) {
            do_for_all(alloc, machine, line, text)
        } else {
            ask(alloc, machine, runner, line, text)
        }
    }

    /// A line of the program: its acts are run.
    fn say<S: Sizes, R: Runner<S>>(
        &mut self,
        alloc: Global,
        machine: &mut MachineOf<S>,
        runner: &mut R,
        line: &[u8],
        text: &mut Vec<u8>,
    ) -> Result<(), OutOf>
        requires runner { R.ready }
        requires none { text.old.items ≡ [] }
        ensures answer { OnOk result (text.new.items ≡ (said S.n S.cap (front_of machine.old.machine self.old)
            (read_more self.old (words_of line.now))).answer) }
        ensures front { OnOk result (front_of machine.new.machine self.new
            ≡ (said S.n S.cap (front_of machine.old.machine self.old) (read_more self.old (words_of line.now))).front) }
        ensures err { OnErr result (machine.new.machine ≡ machine.old.machine) }
        ensures thread { CountsLacks is_thread (R.threads_lacked runner.old) (R.threads_lacked runner.new) result }
    {
        self.reader.forget_acts();
        if let Err(kind) = read_line(&mut self.reader, alloc, line) {
            let Some(number) = own_number(kind) else {
                return Err(OutOf::Memory);
            };
            return refuse(text, number);
        }
        run_at_once(machine, runner, self.reader.acts(), text)
    }
}

/// Runs the acts of a line, and tells that, or why they are not run.
fn run_at_once<S: Sizes, R: Runner<S>>(
    machine: &mut MachineOf<S>,
    runner: &mut R,
    acts: &[Act],
    text: &mut Vec<u8>,
) -> Result<(), OutOf>
    requires runner { R.ready }
    requires none { text.old.items ≡ [] }
    ensures answer { OnOk result (text.new.items ≡ acts_line machine.old.machine acts.now) }
    ensures machine { OnOk result (machine.new.machine ≡ after_accepted_acts S.n S.cap machine.old.machine acts.now) }
    ensures err { OnErr result (machine.new.machine ≡ machine.old.machine) }
    ensures thread { CountsLacks is_thread (R.threads_lacked runner.old) (R.threads_lacked runner.new) result }
{
    push_done(text, machine, acts)?;
    match runner.go(machine, acts) {
        Ok(()) => Ok(()),
        Err(RunFault::Long) => refuse(text, LONG),
        Err(RunFault::Clock) => refuse(text, CLOCK),
        Err(RunFault::NoThread) => Err(OutOf::Thread),
        Err(RunFault::Memory) => Err(OutOf::Memory),
    }
}

/// What acts answer that are run.
fn push_done<S: Sizes>(
    text: &mut Vec<u8>,
    machine: &MachineOf<S>,
    acts: &[Act],
) -> Result<(), AllocError>
    requires none { text.old.items ≡ [] }
    ensures ok { OnOk result (text.new.items ≡ done_line machine.now.machine acts.now) }
{
    match acts {
        [Act::Sense, ..] => push_bit(text, b"wire", machine.wire()),
        _ => push_word(text, b"ok"),
    }
}

/// A refusal in place of the answer.
fn refuse(text: &mut Vec<u8>, number: u64) -> Result<(), OutOf>
    ensures ok { OnOk result (text.new.items ≡ refused_line number) }
    ensures memory { IfErr result (λ want. is_thread want ≡ false) }
{
    text.clear();
    push_number(text, b"?", number)?;
    Ok(())
}

/// A line for all processors.
fn do_for_all<S: Sizes>(
    alloc: Global,
    machine: &mut MachineOf<S>,
    line: &[u8],
    text: &mut Vec<u8>,
) -> Result<(), OutOf>
    requires none { text.old.items ≡ [] }
    ensures done { OnOk result ((read : Reading) → for_all S.n S.cap (front_of machine.old.machine read)
        (asked_of S.n (words_of line.now)) ≡ front_answered_with (front_of machine.new.machine read) text.new.items) }
    ensures err { OnErr result (machine.new.machine ≡ machine.old.machine) }
    ensures memory { IfErr result (λ want. is_thread want ≡ false) }
{
    let dimensions = usize::from(machine.dims());
    let mut numbers = Vec::new(alloc);
    let asked = match read_asked(line, dimensions, &mut numbers) {
        Ok(asked) => asked,
        Err(kind) => {
            let Some(number) = own_number(kind) else {
                return Err(OutOf::Memory);
            };
            return refuse(text, number);
        }
    };
    match obey(alloc, machine, asked, numbers.as_slice(), text) {
        Ok(()) => Ok(()),
        Err(NoMemory) => Err(OutOf::Memory),
    }
}

/// Does what is asked of all processors, and tells it. After an `Err` the machine is as it was.
fn obey<S: Sizes>(
    alloc: Global,
    machine: &mut MachineOf<S>,
    asked: Asked,
    numbers: &[u64],
    text: &mut Vec<u8>,
) -> Result<(), NoMemory>
    requires numbers { AreFor S.n asked numbers.now }
    requires none { text.old.items ≡ [] }
    ensures answer { OnOk result (text.new.items
        ≡ (for_all_obeyed S.n S.cap machine.old.machine asked numbers.now).answer) }
    ensures machine { OnOk result (machine.new.machine
        ≡ (for_all_obeyed S.n S.cap machine.old.machine asked numbers.now).machine) }
    ensures err { OnErr result (machine.new.machine ≡ machine.old.machine) }
{
    match asked {
        Asked::Get(field) => push_field(alloc, text, machine, field),
        Asked::GetFlag(number) => push_flags(alloc, text, machine, number),
        Asked::GetBuffers => push_buffers(alloc, text, machine),
        Asked::Put(field) => {
            push_word(text, b"ok")?;
            put(machine, Order::Chips, field, numbers);
            Ok(())
        }
        Asked::Standing => push_standing(text, machine),
        Asked::Clock => {
            push_number(text, b"clock", machine.clock())?;
            Ok(())
        }
        Asked::Image => push_image(alloc, text, machine),
        Asked::Forget => {
            push_word(text, b"ok")?;
            machine.set_logs_aside(alloc, 0)?;
            Ok(())
        }
    }
}

/// A line that asks: it is answered as in a session without acts.
fn ask<S: Sizes, R: Runner<S>>(
    alloc: Global,
    machine: &mut MachineOf<S>,
    runner: &mut R,
    line: &[u8],
    text: &mut Vec<u8>,
) -> Result<(), OutOf>
    requires runner { R.ready }
    requires none { text.old.items ≡ [] }
    ensures answer { OnOk result (text.new.items
        ≡ (answered_to S.n S.cap machine.old.machine (question_of S.n (words_of line.now))).answer) }
    ensures machine { OnOk result (machine.new.machine
        ≡ (answered_to S.n S.cap machine.old.machine (question_of S.n (words_of line.now))).session.machine) }
    ensures err { OnErr result (machine.new.machine ≡ machine.old.machine) }
    ensures thread { CountsLacks is_thread (R.threads_lacked runner.old) (R.threads_lacked runner.new) result }
{
    // For the prover alone: a call brings in what holds of every machine.
    let _clock = machine.clock();
    let dimensions = usize::from(machine.dims());
    let acts: &[Act] = &[];
    let mut debugger = Debugger::new(alloc, acts)?;
    let asked = read_question(line, dimensions);
    match debugger.answer(machine, runner, asked, text) {
        Ok(()) => Ok(()),
        Err(want) => Err(want),
    }
}
