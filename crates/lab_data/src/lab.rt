//! What the laboratory does with an image: from bytes to bytes.

ghost use Rattle.std.specs.Prelude.{◌≡◌, ◌≢◌, ℕ, ◌≤◌, ◌<◌, ◌*◌, List, [], Result, Ok, Err, IfOk, IfErr, length};
ghost use Rattle.cm_model.specs.Place.{rows, columns};
ghost use Rattle.lab_figures.specs.Looks.{look_bytes};
ghost use Rattle.lab_figures.specs.PictureReading.{picture_in};
ghost use Rattle.lab_data.specs.Data.{processors};
ghost use Rattle.lab_data.specs.declared.lab.Task.TheVariants as task;
ghost use Rattle.lab_data.specs.Lab.{at_room, study_made, route_made, work_of, work_on, lab_refusal, done_with};
ghost use Rattle.lab_data.specs.Lab.{IsNoPicture};

use crate::data::{flags, get, put};
use crate::order::{Order, columns, processors, rows};
use crate::pictures::{ShowFault, Shown, bits_of, show};
use cm_array::{AnyMachine, MachineOf, Sizes};
use cm_asm::assemble;
use cm_bits::{Field, FieldFault, FlagNo, NoMemory};
use cm_image_dump::dump;
use cm_image_format::ImageFault;
use cm_language::{AsmFault, AsmKind};
use cm_model::Tag;
use cm_sizes::{OpenFault, open_image};
use lab_figures::{
    Look, NumbersFault, Picture, PictureFault, read_numbers, read_picture, write_look,
    write_numbers,
};
use lab_machine::{LabMachine, RoomFault};
use lab_route::{Excerpt, RouteFault, route};
use lab_study::{StudyFault, Table, Unwatched, Watch, study};
use std::alloc::Global;
use std::marker::Brand;
use thiserror::Error;

/// What is asked of a machine.
#[derive(Clone, Copy, Debug, PartialEq, Eq)]
pub enum Task {
    /// The number that each processor has in a field is told.
    Get(Order, Field),
    /// The flag of this number that each processor has is told, as 0 or 1.
    Flags(Order, FlagNo),
    /// The numbers that are given are put into a field of all processors.
    Put(Order, Field),
    /// The picture of it is told, as it is looked at.
    Show(Shown, Look),
    /// The dots of the picture that is given are put into a field of all processors, which begins at this address.
    Paint(u16),
    /// The program that is given is run, with this room in each router or else its own, and a table of it is told.
    Study(Option<u16>, Table),
    /// The same, and what is asked for of the route of the message of this tag is told.
    Route(Option<u16>, Excerpt, Tag),
}

/// Why nothing was done.
#[derive(Clone, Copy, Debug, PartialEq, Eq, Error)]
pub enum LabFault {
    /// The image is none.
    #[error("{0}")]
    Image(ImageFault),
    /// Its routers have another room than those of the laboratory's machines.
    #[error("routers with room for another number of messages than 1 or 7")]
    Room,
    /// What was given is not one number for each processor.
    #[error("{0}")]
    Numbers(NumbersFault),
    /// A picture of numbers of more bits.
    #[error("a picture has numbers of at most 16 bits")]
    Wide,
    /// What was given is not a picture with a dot for each processor.
    #[error("{0}")]
    Picture(PictureFault),
    /// Its greatest number is not that of a field.
    #[error("the greatest value is {0}, none of 1, 3, 7 and so on to 65535; pamdepth 255 makes it 255")]
    Greatest(u16),
    /// There is no such field.
    #[error("{0}")]
    Field(FieldFault),
    /// What was given is no program.
    #[error("{0}")]
    Program(AsmFault),
    /// The counter of petit cycles would pass its end.
    #[error("more than 2^63 - 1 petit cycles in all")]
    Clock,
    /// There is no such message.
    #[error("{0}")]
    NoRoute(RouteFault),
    /// Its routers have not the room that is given.
    #[error("{0}")]
    NoRoom(RoomFault),
    #[error("out of memory")]
    Memory,
}

/// Does with the machine of an image what is asked: gives the text that tells it, or the image of the machine that it
/// leaves. The image is judged before what is given.
pub fn perform(alloc: Global, task: Task, image: &[u8], given: &[u8]) -> Result<Vec<u8>, LabFault>
    ensures value { IfOk result (λ text. done_with task given.now image.now ≡ Ok text.items) }
    ensures refused { IfErr result (λ fault. fault ≢ LabFault.Memory → done_with task given.now image.now ≡ Err fault) }
{
    perform_watched(alloc, task, image, given, &mut Unwatched)
}

/// The same, where a watcher is told how far the program of a study or a route is.
pub fn perform_watched<W: Watch>(
    alloc: Global,
    task: Task,
    image: &[u8],
    given: &[u8],
    watch: &mut W,
) -> Result<Vec<u8>, LabFault>
    ensures value { IfOk result (λ text. done_with task given.now image.now ≡ Ok text.items) }
    ensures refused { IfErr result (λ fault. fault ≢ LabFault.Memory → done_with task given.now image.now ≡ Err fault) }
{
    match open_image(alloc, image) {
        Ok(machine) => work_on(alloc, machine, task, given, watch),
        Err(fault) => Err(of_open(fault)),
    }
}

/// Does with a machine of any size what is asked.
fn work_on<W: Watch>(
    alloc: Global,
    machine: AnyMachine,
    task: Task,
    given: &[u8],
    watch: &mut W,
) -> Result<Vec<u8>, LabFault>
    ensures value { IfOk result (λ text. work_on task given.now machine ≡ Ok text.items) }
    ensures refused { IfErr result (λ fault. fault ≢ LabFault.Memory
        → work_on task given.now machine ≡ Err fault) }
{
    work_sized::<Brand, W>(alloc, machine, task, given, watch)
}

/// The same, on a machine of these sizes.
fn work_sized<S: Sizes, W: Watch>(
    alloc: Global,
    machine: AnyMachine,
    task: Task,
    given: &[u8],
    watch: &mut W,
) -> Result<Vec<u8>, LabFault>
    requires n { machine.n ≡ S.n }
    requires cap { machine.cap ≡ S.cap }
    ensures value { IfOk result (λ text. work_on task given.now machine ≡ Ok text.items) }
    ensures refused { IfErr result (λ fault. fault ≢ LabFault.Memory
        → work_on task given.now machine ≡ Err fault) }
{
    let mut machine = machine.sized::<S>();
    work(alloc, &mut machine, task, given, watch)
}

/// Does with a machine what is asked.
fn work<S: Sizes, W: Watch>(
    alloc: Global,
    machine: &mut MachineOf<S>,
    task: Task,
    given: &[u8],
    watch: &mut W,
) -> Result<Vec<u8>, LabFault>
    ensures value { IfOk result (λ text. work_of S.n S.cap task given.now machine.old.machine ≡ Ok text.items) }
    ensures refused { IfErr result (λ fault. fault ≢ LabFault.Memory
        → work_of S.n S.cap task given.now machine.old.machine ≡ Err fault) }
{
    match task {
        Task::Get(order, field) => told(alloc, machine, order, field),
        Task::Flags(order, number) => flagged(alloc, machine, order, number),
        Task::Put(order, field) => filled(alloc, machine, order, field, given),
        Task::Show(shown, look) => pictured(alloc, machine, shown, look),
        Task::Paint(at) => painted(alloc, machine, at, given),
        Task::Study(room, table) => match study_machine(alloc, machine, room) {
            Ok(mut lab) => studied(alloc, &mut lab, table, given, watch),
            Err(fault) => Err(fault),
        },
        Task::Route(room, excerpt, tag) => match study_machine(alloc, machine, room) {
            Ok(mut lab) => routed(alloc, &mut lab, excerpt, tag, given, watch),
            Err(fault) => Err(fault),
        },
    }
}

/// Why an image has no machine: want of memory is the same everywhere.
fn of_open(fault: OpenFault) -> LabFault
    ensures memory { fault ≡ OpenFault.Image ImageFault.Memory → result ≡ LabFault.Memory }
    ensures other { fault ≢ OpenFault.Image ImageFault.Memory → result ≡ lab_refusal fault }
{
    match fault {
        OpenFault::Image(ImageFault::Memory) => LabFault::Memory,
        OpenFault::Image(own) => LabFault::Image(own),
        OpenFault::Room => LabFault::Room,
    }
}

/// The text of the numbers that the processors of a machine have in a field.
fn told<S: Sizes>(
    alloc: Global,
    machine: &MachineOf<S>,
    order: Order,
    field: Field,
) -> Result<Vec<u8>, LabFault>
    ensures value { IfOk result
        (λ text. work_of S.n S.cap (task.Get order field) [] machine.now.machine ≡ Ok text.items) }
    ensures memory { IfErr result (λ fault. fault ≡ LabFault.Memory) }
{
    let dims = machine.dims();
    let Ok(numbers) = get(alloc, machine, order, field) else {
        return Err(LabFault::Memory);
    };
    match write_numbers(alloc, &numbers, order.width::<S>(dims)) {
        Ok(text) => Ok(text),
        Err(_) => Err(LabFault::Memory),
    }
}

/// The text of the flags that the processors of a machine have.
fn flagged<S: Sizes>(
    alloc: Global,
    machine: &MachineOf<S>,
    order: Order,
    number: FlagNo,
) -> Result<Vec<u8>, LabFault>
    ensures value { IfOk result
        (λ text. work_of S.n S.cap (task.Flags order number) [] machine.now.machine ≡ Ok text.items) }
    ensures memory { IfErr result (λ fault. fault ≡ LabFault.Memory) }
{
    let dims = machine.dims();
    let Ok(flags) = flags(alloc, machine, order, number) else {
        return Err(LabFault::Memory);
    };
    match write_numbers(alloc, &flags, order.width::<S>(dims)) {
        Ok(text) => Ok(text),
        Err(_) => Err(LabFault::Memory),
    }
}

/// The image of a machine into which the numbers of a text were put.
fn filled<S: Sizes>(
    alloc: Global,
    machine: &mut MachineOf<S>,
    order: Order,
    field: Field,
    given: &[u8],
) -> Result<Vec<u8>, LabFault>
    ensures value { IfOk result
        (λ text. work_of S.n S.cap (task.Put order field) given.now machine.old.machine ≡ Ok text.items) }
    ensures refused { IfErr result (λ fault. fault ≢ LabFault.Memory
        → work_of S.n S.cap (task.Put order field) given.now machine.old.machine ≡ Err fault) }
{
    let dims = machine.dims();
    let numbers = match read_numbers(alloc, given, field.len(), processors::<S>(dims)) {
        Ok(numbers) => numbers,
        Err(NumbersFault::Memory) => return Err(LabFault::Memory),
        Err(fault) => return Err(LabFault::Numbers(fault)),
    };
    put(machine, order, field, &numbers);
    match dump(alloc, machine) {
        Ok(text) => Ok(text),
        Err(_) => Err(LabFault::Memory),
    }
}

/// The picture of a machine.
fn pictured<S: Sizes>(
    alloc: Global,
    machine: &MachineOf<S>,
    shown: Shown,
    look: Look,
) -> Result<Vec<u8>, LabFault>
    ensures value { IfOk result
        (λ text. work_of S.n S.cap (task.Show shown look) [] machine.now.machine ≡ Ok text.items) }
    ensures refused { IfErr result (λ fault. fault ≢ LabFault.Memory
        → work_of S.n S.cap (task.Show shown look) [] machine.now.machine ≡ Err fault) }
{
    match show(alloc, machine, shown) {
        Ok(picture) => drawn(alloc, picture, look),
        Err(ShowFault::Wide) => Err(LabFault::Wide),
        Err(ShowFault::Memory) => Err(LabFault::Memory),
    }
}

/// A picture as it is looked at.
fn drawn(alloc: Global, picture: Picture, look: Look) -> Result<Vec<u8>, LabFault>
    ensures value { IfOk result (λ text. text.items ≡ look_bytes look picture) }
    ensures memory { IfErr result (λ fault. fault ≡ LabFault.Memory) }
{
    match write_look(alloc, picture, look) {
        Ok(text) => Ok(text),
        Err(_) => Err(LabFault::Memory),
    }
}

/// The image of a machine into which the dots of a picture were put.
fn painted<S: Sizes>(
    alloc: Global,
    machine: &mut MachineOf<S>,
    at: u16,
    given: &[u8],
) -> Result<Vec<u8>, LabFault>
    ensures value { IfOk result
        (λ text. work_of S.n S.cap (task.Paint at) given.now machine.old.machine ≡ Ok text.items) }
    ensures refused { IfErr result (λ fault. fault ≢ LabFault.Memory
        → work_of S.n S.cap (task.Paint at) given.now machine.old.machine ≡ Err fault) }
{
    let dims = machine.dims();
    let picture = match read_grid::<S>(alloc, dims, given) {
        Ok(picture) => picture,
        Err(fault) => return Err(fault),
    };
    let Some(len) = bits_of(picture.greatest()) else {
        return Err(LabFault::Greatest(picture.greatest()));
    };
    let field = match Field::new(at, len) {
        Ok(field) => field,
        Err(fault) => return Err(LabFault::Field(fault)),
    };
    put(machine, Order::Rows, field, picture.dots());
    match dump(alloc, machine) {
        Ok(text) => Ok(text),
        Err(_) => Err(LabFault::Memory),
    }
}

/// The picture of a text, which is to have a dot for each processor.
fn read_grid<S: Sizes>(alloc: Global, n: u8, given: &[u8]) -> Result<Picture, LabFault>
    requires n { n ≡ S.n }
    requires dimension { S.n ≤ 12 }
    ensures value { IfOk result (λ picture. picture_in (columns S.n) (rows S.n) given.now ≡ Ok picture) }
    ensures count { IfOk result (λ picture. length picture.dots ≡ processors S.n) }
    ensures refused { IfErr result (λ fault. fault ≢ LabFault.Memory
        → IsNoPicture (picture_in (columns S.n) (rows S.n) given.now) fault) }
{
    match read_picture(alloc, given, columns::<S>(n) as u16, rows::<S>(n) as u16) {
        Ok(picture) => Ok(picture),
        Err(PictureFault::Memory) => Err(LabFault::Memory),
        Err(fault) => Err(LabFault::Picture(fault)),
    }
}

/// The table of a program that a machine runs.
fn studied<W: Watch>(
    alloc: Global,
    lab: &mut LabMachine,
    table: Table,
    given: &[u8],
    watch: &mut W,
) -> Result<Vec<u8>, LabFault>
    ensures value { IfOk result
        (λ text. study_made lab.old.machine table given.now lab.old.n lab.old.cap ≡ Ok text.items) }
    ensures refused { IfErr result (λ fault. fault ≢ LabFault.Memory
        → study_made lab.old.machine table given.now lab.old.n lab.old.cap ≡ Err fault) }
{
    let program = match assemble(alloc, given) {
        Ok(program) => program,
        Err(fault) => return Err(of_program(fault)),
    };
    match study(alloc, lab, program.acts(), table, watch) {
        Ok(text) => Ok(text),
        Err(StudyFault::Clock) => Err(LabFault::Clock),
        Err(StudyFault::Memory) => Err(LabFault::Memory),
    }
}

/// The route of a message of a program that a machine runs.
fn routed<W: Watch>(
    alloc: Global,
    lab: &mut LabMachine,
    excerpt: Excerpt,
    tag: Tag,
    given: &[u8],
    watch: &mut W,
) -> Result<Vec<u8>, LabFault>
    ensures value { IfOk result
        (λ text. route_made lab.old.machine excerpt tag given.now lab.old.n lab.old.cap ≡ Ok text.items) }
    ensures refused { IfErr result (λ fault. fault ≢ LabFault.Memory
        → route_made lab.old.machine excerpt tag given.now lab.old.n lab.old.cap ≡ Err fault) }
{
    let program = match assemble(alloc, given) {
        Ok(program) => program,
        Err(fault) => return Err(of_program(fault)),
    };
    match route(alloc, lab, program.acts(), excerpt, tag, watch) {
        Ok(text) => Ok(text),
        Err(RouteFault::Memory) => Err(LabFault::Memory),
        Err(fault) => Err(LabFault::NoRoute(fault)),
    }
}

/// The machine of a study: with the room that is given, or else its own.
fn study_machine<S: Sizes>(
    alloc: Global,
    machine: &MachineOf<S>,
    room: Option<u16>,
) -> Result<LabMachine, LabFault>
    ensures value { IfOk result (λ lab. (made : ℕ → ℕ → Result (List ℕ) LabFault)
        → at_room S.n S.cap room machine.now.machine made ≡ made lab.n lab.cap) }
    ensures machine { IfOk result (λ lab. lab.machine ≡ machine.now.machine) }
    ensures refused { IfErr result (λ fault. fault ≢ LabFault.Memory → (made : ℕ → ℕ → Result (List ℕ) LabFault)
        → at_room S.n S.cap room machine.now.machine made ≡ Err fault) }
{
    let Some(room) = room else {
        return match LabMachine::own(alloc, machine) {
            Ok(lab) => Ok(lab),
            Err(NoMemory) => Err(LabFault::Memory),
        };
    };
    match LabMachine::with_room(alloc, machine, room) {
        Ok(lab) => Ok(lab),
        Err(RoomFault::Memory) => Err(LabFault::Memory),
        Err(fault) => Err(LabFault::NoRoom(fault)),
    }
}

/// Why a text is no program: want of memory is the same everywhere.
fn of_program(fault: AsmFault) -> LabFault
    ensures memory { fault.kind ≡ AsmKind.Memory → result ≡ LabFault.Memory }
    ensures other { fault.kind ≢ AsmKind.Memory → result ≡ LabFault.Program fault }
{
    match fault.kind {
        AsmKind::Memory => LabFault::Memory,
        _ => LabFault::Program(fault),
    }
}
