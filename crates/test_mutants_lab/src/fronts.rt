//! Calls of lab_front.

ghost use Rattle.std.specs.Prelude.{◌≡◌, ◌↔◌, false, true, IsErrOf, OnErr, OnOk};
ghost use Rattle.std.specs.Io.KnownBytes.{IsAtEnd};
ghost use Rattle.cm_array.specs.Faults.{CountsLacks};
ghost use Rattle.cm_session.specs.Ends.{is_write};
ghost use Rattle.cm_debug.specs.Telling.{is_thread};
ghost use Rattle.lab_front.specs.Front.{front_of, front_after_line};
ghost use Rattle.lab_front.specs.Ends.{CountsFrontLacks, Ends};

use cm_array::{MachineOf, Runner, Sizes};
use cm_bits::{Sink, Source};
use cm_debug::OutOf;
use lab_front::{FrontEnd, SessionFault};
use std::alloc::Global;

/// What `lab_front::front` promises, word for word.
pub fn front<S: Sizes, R: Runner<S>, I: Source, O: Sink>(
    alloc: Global,
    machine: &mut MachineOf<S>,
    commands: &mut I,
    out: &mut O,
    runner: &mut R,
) -> Result<(), SessionFault>
    requires runner { R.ready }
    requires reader { I.has_failed commands.old ≡ false }
    requires writer { O.has_failed out.old ≡ false }
    ensures ends { Ends S.n S.cap (I.left commands.old) (I.left commands.new) machine.old.machine (O.contents out.old)
        machine.new.machine (O.contents out.new) result }
    ensures end { OnOk result (IsAtEnd (I.left commands.new)) }
    ensures read { (I.has_failed commands.new ≡ true) ↔ IsErrOf result SessionFault.Read }
    ensures write { O.has_failed out.new ≡ is_write result }
    ensures threads { CountsFrontLacks (R.threads_lacked runner.old) (R.threads_lacked runner.new) result }
{
    lab_front::front(alloc, machine, commands, out, runner)
}

/// What `tell` of `lab_front::FrontEnd` promises, word for word.
pub fn tell<S: Sizes, R: Runner<S>>(
    front: &mut FrontEnd,
    alloc: Global,
    machine: &mut MachineOf<S>,
    runner: &mut R,
    line: &[u8],
    text: &mut Vec<u8>,
) -> Result<(), OutOf>
    requires runner { R.ready }
    ensures answer { OnOk result (text.new.items
        ≡ (front_after_line S.n S.cap (front_of machine.old.machine front.old) line.now).answer) }
    ensures front { OnOk result (front_of machine.new.machine front.new
        ≡ (front_after_line S.n S.cap (front_of machine.old.machine front.old) line.now).front) }
    ensures err { OnErr result (machine.new.machine ≡ machine.old.machine) }
    ensures thread { CountsLacks is_thread (R.threads_lacked runner.old) (R.threads_lacked runner.new) result }
{
    front.tell(alloc, machine, runner, line, text)
}
