//! `cm1 weave`: the exchange of a machine's blocks, stepped by the lines of a file or by itself.

ghost use Rattle.std.specs.Prelude.{◌≡◌, false, IfOk, IfErr, IfSome, option_map, string_bytes};
ghost use Rattle.cm_model.specs.Machine.{run_of};
ghost use Rattle.cm_weave_text.specs.Ends.{is_weave_write};
ghost use Rattle.cm_weave_text.specs.Hearing.{exchange_in};
ghost use Rattle.cm_system.specs.Trace.{HasTrace};
ghost use Rattle.cm_system.specs.InputFiles.{reads_by};
ghost use Rattle.cm_tools.specs.Weaving.{EndsExchange, ended_of, outgoing_of};
ghost use Rattle.cm_tools.specs.Weaves.{IsWeaveTrace, OpensEnds, OpensSteps, RefusesEnds, RefusesSteps, WeavesAt};
ghost use Rattle.cm_tools.specs.Weaves.{WeavesWorld};

use cm_array::{AnyMachine, MachineOf, Sizes};
use cm_asm::Program;
use cm_bits::{Failed, Sink, Source};
use cm_system::{ProgramFault, System, Taken, abort_files, finish_files, make_ready, take_both};
use cm_weave::World;
use cm_weave_text::{WeaveFault, give_up, weave_self, weave_session};
use std::alloc::Global;
use std::marker::Brand;

/// What is asked of an exchange: the files of an image, of a program and of the steps, if one is named, into 2^`split`
/// blocks how the machine is cut, and the file, if one is named, into which the image goes of the machine that is left.
#[derive(Drop)]
pub struct WeaveLine {
    pub image: String,
    pub program: String,
    pub steps: Option<String>,
    pub split: u8,
    pub out: Option<String>,
}

/// The file of the steps, if one is named, and the file that was made ready, if one is.
#[derive(Drop)]
struct Ends<F, P> {
    steps: Option<F>,
    part: Option<P>,
}

/// Steps the exchange of a machine's blocks over files: image and program are taken, and the machine is cut; then the
/// steps are opened, and only then is the file made ready that is to be written. It waits for nobody.
pub fn weave_files<H: System, O: Sink>(
    alloc: Global,
    system: &mut H,
    line: &WeaveLine,
    answers: &mut O,
) -> Result<(), ProgramFault>
    requires writer { O.has_failed answers.old ≡ false }
    ensures does { HasTrace H.does system.old system.new (IsWeaveTrace (reads_by H.File.left H.File.has_failed) line.now
        (outgoing_of (O.contents answers.old) (O.contents answers.new) (O.has_failed answers.new)) result) }
{
    match take_both(alloc, system, line.image.as_str(), line.program.as_str()) {
        Ok(taken) => {
            let Taken { machine, program } = taken;
            weave_any(alloc, system, line, machine, &program, answers)
        }
        Err(fault) => Err(fault),
    }
}

/// The same, once a machine of any size and a program are taken.
fn weave_any<H: System, O: Sink>(
    alloc: Global,
    system: &mut H,
    line: &WeaveLine,
    machine: AnyMachine,
    program: &Program,
    answers: &mut O,
) -> Result<(), ProgramFault>
    requires writer { O.has_failed answers.old ≡ false }
    ensures does { HasTrace H.does system.old system.new (WeavesAt (reads_by H.File.left H.File.has_failed) line.now
        machine program.now.acts
        (outgoing_of (O.contents answers.old) (O.contents answers.new) (O.has_failed answers.new)) result) }
{
    weave_sized::<Brand, H, O>(alloc, system, line, machine, program, answers)
}

/// The same, on a machine of these sizes.
fn weave_sized<S: Sizes, H: System, O: Sink>(
    alloc: Global,
    system: &mut H,
    line: &WeaveLine,
    machine: AnyMachine,
    program: &Program,
    answers: &mut O,
) -> Result<(), ProgramFault>
    requires n { machine.n ≡ S.n }
    requires cap { machine.cap ≡ S.cap }
    requires writer { O.has_failed answers.old ≡ false }
    ensures does { HasTrace H.does system.old system.new (WeavesAt (reads_by H.File.left H.File.has_failed) line.now
        machine program.now.acts
        (outgoing_of (O.contents answers.old) (O.contents answers.new) (O.has_failed answers.new)) result) }
{
    weave_machine(alloc, system, line, machine.sized::<S>(), program, answers)
}

/// The same, once its sizes are those of its type.
fn weave_machine<S: Sizes, H: System, O: Sink>(
    alloc: Global,
    system: &mut H,
    line: &WeaveLine,
    machine: MachineOf<S>,
    program: &Program,
    answers: &mut O,
) -> Result<(), ProgramFault>
    requires writer { O.has_failed answers.old ≡ false }
    ensures does { HasTrace H.does system.old system.new (WeavesAt (reads_by H.File.left H.File.has_failed)
        line.now (record { n = S.n; cap = S.cap; machine = machine.machine }) program.now.acts
        (outgoing_of (O.contents answers.old) (O.contents answers.new) (O.has_failed answers.new)) result) }
{
    match World::new(alloc, machine, program.acts(), line.split) {
        Ok(world) => weave_world(alloc, system, line, world, answers),
        Err(refused) => {
            give_up(refused.machine);
            Err(ProgramFault::from(refused.fault))
        }
    }
}

/// The same, once there is a world; and then the image of the machine that is left goes into the file that was made
/// ready, if one was.
fn weave_world<S: Sizes, H: System, O: Sink>(
    alloc: Global,
    system: &mut H,
    line: &WeaveLine,
    world: World<S>,
    answers: &mut O,
) -> Result<(), ProgramFault>
    requires writer { O.has_failed answers.old ≡ false }
    ensures does { HasTrace H.does system.old system.new (WeavesWorld (reads_by H.File.left H.File.has_failed) line.now
        S.n S.cap world
        (outgoing_of (O.contents answers.old) (O.contents answers.new) (O.has_failed answers.new)) result) }
{
    let Ends { steps, part } = match open_ends(alloc, system, line) {
        Ok(ends) => ends,
        Err(fault) => {
            give_up(world);
            return Err(fault);
        }
    };
    match step_world(alloc, world, steps, answers) {
        Ok(machine) => {
            let finished = finish_files(alloc, system, part, answers, &machine);
            give_up(machine);
            finished
        }
        Err(fault) => abort_files(system, part, ProgramFault::from(fault)),
    }
}

/// Opens the file of the steps, and then makes the file ready that is to be written, each if it is named.
fn open_ends<H: System>(
    alloc: Global,
    system: &mut H,
    line: &WeaveLine,
) -> Result<Ends<H::File, H::Pending>, ProgramFault>
    ensures working { IfOk result (λ ends. IfSome ends.steps (λ one. H.File.has_failed one ≡ false)) }
    ensures value { IfOk result
        (λ ends. HasTrace H.does system.old system.new (OpensEnds line.now ends.steps ends.part)) }
    ensures refused { IfErr result (λ fault. HasTrace H.does system.old system.new (RefusesEnds line.now fault)) }
{
    let steps = match open_steps(system, &line.steps) {
        Ok(steps) => steps,
        Err(_) => return Err(ProgramFault::Read),
    };
    match make_ready(alloc, system, &line.out) {
        Ok(part) => Ok(Ends { steps, part }),
        Err(fault) => Err(fault),
    }
}

/// Opens the file of the steps, if one is named.
fn open_steps<H: System>(system: &mut H, steps: &Option<String>) -> Result<Option<H::File>, Failed>
    ensures working { IfOk result (λ file. IfSome file (λ one. H.File.has_failed one ≡ false)) }
    ensures value { IfOk result (λ file. HasTrace H.does system.old system.new
        (OpensSteps (option_map string_bytes steps.now) file)) }
    ensures refused { IfErr result (λ _. HasTrace H.does system.old system.new
        (RefusesSteps (option_map string_bytes steps.now))) }
{
    let Some(path) = steps else {
        return Ok(None);
    };
    match system.open(path.as_str()) {
        Ok(file) => Ok(Some(file)),
        Err(fault) => Err(fault),
    }
}

/// Steps a world to its end, by these steps or by itself, and gives the machine that is left.
fn step_world<S: Sizes, I: Source + Drop, O: Sink>(
    alloc: Global,
    world: World<S>,
    steps: Option<I>,
    answers: &mut O,
) -> Result<MachineOf<S>, WeaveFault>
    requires reader { IfSome steps (λ one. I.has_failed one ≡ false) }
    requires writer { O.has_failed answers.old ≡ false }
    ensures machine { IfOk result (λ done. done.machine ≡ run_of S.n S.cap world.machine world.acts) }
    ensures ends { EndsExchange (reads_by I.left I.has_failed) (exchange_in S.n S.cap world) world.world steps
        (outgoing_of (O.contents answers.old) (O.contents answers.new) (O.has_failed answers.new)) (ended_of result) }
    ensures write { O.has_failed answers.new ≡ is_weave_write result }
{
    match steps {
        Some(mut steps) => weave_session(alloc, world, &mut steps, answers),
        None => weave_self(alloc, world, answers),
    }
}
