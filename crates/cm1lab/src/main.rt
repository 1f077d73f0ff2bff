//! The laboratory: data and pictures of all processors, out of a machine's image and into it, studies of its router, a
//! front end, the programs of sources, blank machines, loads, and pictures of tables and routes. This is its files, its
//! standard input and output; its words are in lab_args, what it does in lab_data, lab_front, lab_source, lab_fresh,
//! lab_load and lab_route_plot.
#![tactic(auto)]

mod fault;
mod files;
mod loads;
mod progress;

use crate::fault::Fault;
use crate::files::{read_file, write_file};
use crate::loads::{cuts_of, measure_all};
use crate::progress::Progress;
use cm_bits::{Std, write_all};
use cm_host::Host;
use cm_sizes::IMAGE_LIMIT;
use cm_system::{LineFault, PROGRAM_LIMIT, System, TakeFault, take};
use lab_args::{Asked, Blank, Command, CommandFault, Given, HELP, Loads, VERSION, read_words};
use lab_data::{LabFault, RouteFault, perform_watched};
use lab_fresh::{FreshFault, fresh};
use lab_front::front_image;
use lab_route_plot::{Cycles, plot};
use lab_source::expand;
use std::alloc::Global;
use std::io;
use std::io::Write;
use std::process::ExitCode;
use std::rt::{Clock, Env, Files};

/// Most bytes of a text of numbers.
const NUMBERS_LIMIT: u64 = 16777216;

/// Most bytes of a picture.
const PICTURE_LIMIT: u64 = 16777216;

/// Most bytes of a table.
const TABLE_LIMIT: u64 = 16777216;

/// Most bytes of a source.
const SOURCE_LIMIT: u64 = 16777216;

fn main(rt: HostRuntime) -> ExitCode {
    match run(&rt, rt.alloc()) {
        Ok(()) => ExitCode::SUCCESS,
        Err(fault) => match fault.tell(&rt) {
            Ok(()) => ExitCode::from(fault.status()),
            Err(_) => ExitCode::from(4),
        },
    }
}

/// Does what the words of the command line ask for.
fn run<R: Input + Print + Eprint + Env + Files + Clock + AllocGlobal>(
    rt: &R,
    alloc: Global,
) -> Result<(), Fault> {
    let texts = match Host::new(rt).words(alloc) {
        Ok(texts) => texts,
        Err(LineFault::BadLine) => return Err(Fault::Words),
        Err(LineFault::Memory) => return Err(Fault::Memory),
    };
    let mut words = Vec::new(alloc);
    for text in &texts {
        if words.push(text.as_str()).is_err() {
            return Err(Fault::Memory);
        }
    }
    match read_words(alloc, words.as_slice()) {
        Ok(command) => obey(rt, alloc, command),
        Err(CommandFault::Help) => tell(rt, HELP),
        Err(CommandFault::Version) => tell(rt, VERSION),
        Err(CommandFault::Memory) => Err(Fault::Memory),
        Err(fault) => Err(Fault::Command(fault)),
    }
}

/// Tells a text on standard output.
fn tell<R: Print>(rt: &R, text: &str) -> Result<(), Fault> {
    match rt.println(text) {
        Ok(()) => Ok(()),
        Err(_) => Err(Fault::Output),
    }
}

/// Does a command.
fn obey<R: Input + Print + Eprint + Files + Clock + AllocGlobal>(
    rt: &R,
    alloc: Global,
    command: Command<'_>,
) -> Result<(), Fault> {
    match command {
        Command::Task(asked) => work(rt, alloc, &asked),
        Command::Front { image, out } => converse(rt, alloc, image, out),
        Command::Expand { source } => unfold(rt, alloc, source),
        Command::Fresh(blank) => begin(rt, alloc, &blank),
        Command::Load(loads) => load(rt, alloc, &loads),
        Command::Plot { file, cycles } => draw(rt, alloc, file, cycles),
    }
}

/// The picture of a table, or of these petit cycles of a route.
fn draw<R: Input + Print + Files>(
    rt: &R,
    alloc: Global,
    file: Option<&str>,
    cycles: Cycles,
) -> Result<(), Fault> {
    let table = read_table(rt, alloc, file)?;
    match plot(alloc, table.as_slice(), cycles) {
        Ok(picture) => show(rt, picture.as_slice()),
        Err(fault) => Err(Fault::plot(alloc, file.unwrap_or("standard input"), fault)),
    }
}

/// The bytes of a table.
fn read_table<R: Input + Files>(
    rt: &R,
    alloc: Global,
    file: Option<&str>,
) -> Result<Vec<u8>, Fault> {
    match file {
        Some(path) => read_file(
            rt,
            alloc,
            path,
            TABLE_LIMIT,
            "has too many bytes for a table",
        ),
        None => read_input(rt, alloc),
    }
}

/// The table of loads.
fn load<R: Print + Eprint + Files + Clock>(
    rt: &R,
    alloc: Global,
    loads: &Loads<'_>,
) -> Result<(), Fault> {
    let text = measure_all(rt, alloc, loads)?;
    show(rt, text.as_slice())
}

/// The image of a blank machine.
fn begin<R: Files + AllocGlobal>(rt: &R, alloc: Global, blank: &Blank<'_>) -> Result<(), Fault> {
    let cuts = cuts_of(alloc, blank.n, &blank.cuts, blank.drawn, blank.seed)?;
    match fresh(alloc, blank.n, blank.room, &cuts, blank.rule) {
        Ok(image) => write_file(rt, blank.out, image.as_slice()),
        Err(FreshFault::Memory) => Err(Fault::Memory),
        Err(fault) => Err(Fault::Fresh(fault)),
    }
}

/// Does a task.
fn work<R: Input + Print + Eprint + Files + Clock + AllocGlobal>(
    rt: &R,
    alloc: Global,
    asked: &Asked<'_>,
) -> Result<(), Fault> {
    let image = read_image(rt, alloc, asked.image)?;
    let given = read_given(rt, alloc, asked.given)?;
    let made = performed(rt, alloc, asked, image.as_slice(), given.as_slice())?;
    match asked.out {
        None => show(rt, made.as_slice()),
        Some(out) => write_file(rt, out, made.as_slice()),
    }
}

/// The bytes of an image.
fn read_image<R: Files>(rt: &R, alloc: Global, path: &str) -> Result<Vec<u8>, Fault> {
    read_file(
        rt,
        alloc,
        path,
        IMAGE_LIMIT,
        "has too many bytes for an image",
    )
}

/// A front end: lines of standard input, answers on standard output.
fn converse<R: Input + Print + Files + AllocGlobal>(
    rt: &R,
    alloc: Global,
    path: &str,
    out: Option<&str>,
) -> Result<(), Fault> {
    let image = read_image(rt, alloc, path)?;
    let left = match front_image(
        alloc,
        image.as_slice(),
        &mut Std::new(rt.reader()),
        &mut Std::new(io::writer(rt)),
    ) {
        Ok(left) => left,
        Err(fault) => return Err(Fault::front(alloc, path, fault)),
    };
    if io::writer(rt).flush().is_err() {
        return Err(Fault::Output);
    }
    match out {
        None => Ok(()),
        Some(out) => write_file(rt, out, left.as_slice()),
    }
}

/// The program of a source, on standard output.
fn unfold<R: Print + Files>(rt: &R, alloc: Global, path: &str) -> Result<(), Fault> {
    let source = read_file(
        rt,
        alloc,
        path,
        SOURCE_LIMIT,
        "has too many bytes for a source",
    )?;
    match expand(alloc, source.as_slice()) {
        Ok(program) => show(rt, program.as_slice()),
        Err(fault) => Err(Fault::source(alloc, path, fault)),
    }
}

/// What comes out goes to standard output.
fn show<R: Print>(rt: &R, text: &[u8]) -> Result<(), Fault> {
    if write_all(&mut Std::new(io::writer(rt)), text).is_err() {
        return Err(Fault::Output);
    }
    match io::writer(rt).flush() {
        Ok(()) => Ok(()),
        Err(_) => Err(Fault::Output),
    }
}

/// What is given beside the image.
fn read_given<R: Input + Files>(rt: &R, alloc: Global, given: Given<'_>) -> Result<Vec<u8>, Fault> {
    match given {
        Given::Nothing => Ok(Vec::new(alloc)),
        Given::Numbers => read_input(rt, alloc),
        Given::Picture(path) => read_file(
            rt,
            alloc,
            path,
            PICTURE_LIMIT,
            "has too many bytes for a picture",
        ),
        Given::Program(path) => read_file(
            rt,
            alloc,
            path,
            PROGRAM_LIMIT,
            "has too many bytes for a program",
        ),
    }
}

/// What stands on standard input.
fn read_input<R: Input>(rt: &R, alloc: Global) -> Result<Vec<u8>, Fault> {
    match take(alloc, &mut Std::new(rt.reader()), NUMBERS_LIMIT) {
        Ok(numbers) => Ok(numbers),
        Err(TakeFault::Read) => Err(Fault::Input("cannot be read")),
        Err(TakeFault::TooMuch) => Err(Fault::LongInput("has more than 16777216 bytes")),
        Err(TakeFault::Memory) => Err(Fault::Memory),
    }
}

/// What lab_data makes of the image and of what is given.
fn performed<R: Eprint + Clock>(
    rt: &R,
    alloc: Global,
    asked: &Asked<'_>,
    image: &[u8],
    given: &[u8],
) -> Result<Vec<u8>, Fault> {
    match perform_watched(alloc, asked.task, image, given, &mut Progress::new(rt)) {
        Ok(made) => Ok(made),
        Err(LabFault::Memory) => Err(Fault::Memory),
        Err(LabFault::Numbers(fault)) => Err(Fault::Numbers(fault)),
        Err(fault) => Err(Fault::image(alloc, told_of(asked, fault), fault)),
    }
}

/// The file of which a fault is told.
fn told_of<'a>(asked: &Asked<'a>, fault: LabFault) -> &'a str {
    match (fault, asked.given) {
        (LabFault::Picture(_) | LabFault::Greatest(_) | LabFault::Field(_), Given::Picture(path)) =>
            path,
        (LabFault::NoRoute(RouteFault::Chip(_)), _) => asked.image,
        (LabFault::Program(_) | LabFault::Clock | LabFault::NoRoute(_), Given::Program(path)) =>
            path,
        _ => asked.image,
    }
}
