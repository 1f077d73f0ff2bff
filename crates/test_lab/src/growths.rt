//! Growths of memory that are refused: while numbers, pictures, studies, blank machines and loads are made, a source is
//! expanded, and at a front end.

use cm_bits::{Field, NoMemory};
use lab_data::{
    Form, Format, LabFault, Look, NumbersFault, Order, Palette, Shown, Table, Task, perform,
    read_numbers, write_numbers,
};
use lab_fresh::{FreshFault, WireEnd, cut_wires, fresh};
use lab_front::{FrontFault, ImageFault, SessionFault, front_image};
use lab_load::{
    ChipCrossings, Figures, Latencies, LoadFault, LoadTable, Pattern, Spreads, Trial, chip_table,
    latency_table, spread_table, table,
};
use lab_source::{AsmKind, SourceKind, expand};
use std::alloc::Global;
use test_doubles::{Bytes, Room};
use test_generators::{Call, first_not_so};

/// One chip, room for seven messages, nothing in it.
pub(crate) static BLANK: [u8; 51] = [
    0x43, 0x4d, 0x31, 0x49, 1, 0, 7, 0, 0, 0, 0, 0, 0, 0, 0, 0, 0, 0, 0, 0, 0, 0, 0, 0, 0, 0, 0, 0,
    0, 0, 0, 0, 0, 0, 0, 0, 0, 0, 0, 0, 0, 0, 0, 0, 0, 0, 0, 0, 0, 0, 0,
];

static NUMBERS: &str = "1 2 3 4 5 6 7 0 1 2 3 4 5 6 7 0\n";

static PICTURE: &str = "P1\n4 4\n1 0 0 0\n0 1 0 0\n0 0 1 0\n1 1 1 1\n";

/// The same machine in dots of memory bit 0.
static PNG: &[u8] = b"\x89PNG\r\n\x1a\n\
    \0\0\0\rIHDR\0\0\0\x04\0\0\0\x04\x01\0\0\0\0\x81\x8a\xa3\xd3\
    \0\0\0\x02IDATx\x01\xec\x1a~\xd2\
    \0\0\0\rIDAT\x01\x08\0\xf7\xff\0\xff\0\xff\0\xff\0\xff\xe9z,\xf6\
    \0\0\0\x04IDAT\x0f\xf8\x03\xfd\xe1\xb6\x08[\
    \0\0\0\0IEND\xaeB`\x82";

/// All processors ask to send to processor 0 of their chip.
static ALL_SEND: &str = "set 12\ncycle\n";

static CYCLES: &str = "cycle,taken,delivered,referred,standing,full,asking\n0,4,1,0,3,0,12\n";

static MESSAGES: &str = "chip,processor,taken,to chip,to processor,delivered,crossed,referred\n\
     0,0,0,0,0,0,0,0\n0,1,0,0,0,,0,0\n0,2,0,0,0,,0,0\n0,3,0,0,0,,0,0\n";

/// Then they wait in the full router for the processor to fetch what it received.
static ALL_WAIT: &str = "set 12\ncycle\ncycle\ncycle\n";

static REPEATS: &str = "from,period,standing,arrived\n2,1,7,7\n";

static SOURCE: &str = "constant K 2\nfield x 0 1\nrepeat K\nnot x\nadd x x\nend\n";

static PROGRAM: &str = "field x 0 1 ; 2
nano 0 0 8 8 8 0 0x0f 0x00 n ; 4
add x x ; 5
nano 0 0 8 8 8 0 0x0f 0x00 n ; 4
add x x ; 5
";

/// All processors of four chips send to those of chip 0, who fetch what they receive. One of its two wires will be cut.
static TRIAL: Trial = Trial {
    n: 2,
    room: 15,
    rule: 0,
    pattern: Pattern::HotSpot,
    background: 0,
    until: 40,
    seed: 9,
    cycles: 40,
    skip: 0,
    seeds: 3,
    table: LoadTable::Plain,
};

static LOAD: &str =
    "rate,offered,taken,delivered,throughput,mean,p95,greatest,deepest\n2.00,332,162,118,0.737,5.92,29,34,8\n";

/// Of three seeds.
static MEANS: &str = "rate,throughput,throughput +-,mean,mean +-,p95,p95 +-,greatest,greatest +-\n\
    2.00,0.703,0.094,6.05,0.52,28.00,2.48,32.66,2.86\n";

/// The processors of two chips send to the places in `TARGETS`.
static SHUFFLED: Trial = Trial {
    n: 1,
    room: 3,
    rule: 0,
    pattern: Pattern::Own,
    background: 0,
    until: 8,
    seed: 9,
    cycles: 8,
    skip: 0,
    seeds: 1,
    table: LoadTable::Latencies,
};

static TARGETS: [u64; 32] = [
    1, 3, 5, 7, 9, 11, 13, 15, 17, 19, 21, 23, 25, 27, 29, 31, 0, 2, 4, 6, 8, 10, 12, 14, 16, 18,
    20, 22, 24, 26, 28, 30,
];

static TOOK: &str = "latency,rate 6.00\n1,16\n2,2\n3,1\n4,2\n5,2\n";

static CROSSED: &str = "rate,chip,crossed,referred,refused\n6.00,0,8,8,0\n6.00,1,8,0,16\n";

/// The bytes before those of the chips of a blank machine of two chips, whose wire is cut.
static CUT: [u8; 21] = [
    0x43, 0x4d, 0x31, 0x49, 2, 1, 15, 0, 0, 0, 0, 0, 0, 0, 0, 0, 0, 1, 0, 0, 0,
];

/// Lines, and what is answered to them.
struct Talk {
    sent: &'static str,
    told: &'static str,
}

static LINES: Talk = Talk {
    sent: "field x 0 8\nconst x 100\nfield 0 5 0 8\ncycle\nbuf 0\n",
    told: "ok\nok\nfield 100\nok\nbuf 0\n",
};

static FOR_ALL: Talk = Talk {
    sent: "put 0 2 0 1 2 3 0 1 2 3 0 1 2 3 0 1 2 3
get 0 2
image
set 12
cycle
get flag 12
get buffers
standing
clock
forget
events 0
",
    told: "ok
numbers 1
0 1 2 3 0 1 2 3 0 1 2 3 0 1 2 3
image 2
434d314901000700000000000000000000000000000000000000000000000000
0000000000000000000000000000000000020000aaaa0001cccc00
ok
ok
numbers 1
0 0 0 0 1 1 1 1 1 1 1 1 1 1 1 1
numbers 1
3
standing 3 12
clock 1
ok
events 0
",
};

/// What takes memory.
#[derive(Clone, Copy, Debug, PartialEq, Eq)]
enum Grown {
    Read,
    Numbers,
    Picture,
    Png,
    Slide,
    Cycles,
    Messages,
    Repeats,
    Source,
    Load,
    Latencies,
    Chips,
    Blank,
    Front,
    ForAll,
}

static GROWN: [Grown; 15] = [
    Grown::Read,
    Grown::Numbers,
    Grown::Picture,
    Grown::Png,
    Grown::Slide,
    Grown::Cycles,
    Grown::Messages,
    Grown::Repeats,
    Grown::Source,
    Grown::Load,
    Grown::Latencies,
    Grown::Chips,
    Grown::Blank,
    Grown::Front,
    Grown::ForAll,
];

impl Call for Grown {
    fn is_so(&self, alloc: Global) -> Option<bool> {
        match self {
            Grown::Read => are_written(alloc),
            Grown::Numbers => come_back(alloc),
            Grown::Picture => is_shown(alloc),
            Grown::Png => is_a_png(alloc),
            Grown::Slide => is_for_a_slide(alloc),
            Grown::Cycles => Some(tells(alloc, Table::Cycles, CYCLES)),
            Grown::Messages => Some(tells(alloc, Table::Messages, MESSAGES)),
            Grown::Repeats => Some(is_repeated(alloc)),
            Grown::Source => Some(is_expanded(alloc)),
            Grown::Load => is_measured(alloc),
            Grown::Latencies => is_timed(alloc),
            Grown::Chips => is_counted(alloc),
            Grown::Blank => is_blank(alloc),
            Grown::Front => is_answered(alloc, &LINES),
            Grown::ForAll => is_answered(alloc, &FOR_ALL),
        }
    }
}

/// Whether a text of numbers is read and written again.
fn are_written(alloc: Global) -> Option<bool> {
    let read = match read_numbers(alloc, NUMBERS.as_bytes(), 3, 16) {
        Err(NumbersFault::Memory) => read_numbers(alloc, NUMBERS.as_bytes(), 3, 16),
        read => read,
    };
    let Ok(numbers) = read else {
        return Some(false);
    };
    let made = match write_numbers(alloc, &numbers, 16) {
        Err(NoMemory) => write_numbers(alloc, &numbers, 16),
        made => made,
    };
    match made {
        Ok(text) => Some(text.as_slice() == NUMBERS.as_bytes()),
        Err(_) => Some(false),
    }
}

// ---- from image to image or text

/// What a task makes, asked once more where it tells want of memory.
fn made(alloc: Global, task: &Task, image: &[u8], given: &str) -> Result<Vec<u8>, LabFault> {
    for _ in 0..2 {
        match perform(alloc, *task, image, given.as_bytes()) {
            Err(LabFault::Memory) => {}
            made => return made,
        }
    }
    Err(LabFault::Memory)
}

/// Whether a text comes out of the image that it was put into.
fn comes_out(alloc: Global, into: &Task, out: &Task, text: &str) -> bool {
    match made(alloc, into, &BLANK, text) {
        Ok(image) => is_made(alloc, out, &image, "", text),
        Err(_) => false,
    }
}

fn is_made(alloc: Global, task: &Task, image: &[u8], given: &str, wanted: &str) -> bool {
    match made(alloc, task, image, given) {
        Ok(text) => text.as_slice() == wanted.as_bytes(),
        Err(_) => false,
    }
}

fn is_repeated(alloc: Global) -> bool {
    let task = Task::Study(None, Table::Repeats);
    is_made(alloc, &task, &BLANK, ALL_WAIT, REPEATS)
}

fn come_back(alloc: Global) -> Option<bool> {
    let field = Field::new(7, 3).ok()?;
    let (into, out) = (
        Task::Put(Order::Chips, field),
        Task::Get(Order::Chips, field),
    );
    Some(comes_out(alloc, &into, &out, NUMBERS))
}

fn is_shown(alloc: Global) -> Option<bool> {
    let shown = Shown::Number(Field::new(7, 1).ok()?);
    Some(comes_out(
        alloc,
        &Task::Paint(7),
        &Task::Show(shown, plain(Format::Netpbm(Form::Plain))),
        PICTURE,
    ))
}

fn is_a_png(alloc: Global) -> Option<bool> {
    let shown = Shown::Number(Field::new(0, 1).ok()?);
    match made(alloc, &Task::Show(shown, plain(Format::Png)), &BLANK, "") {
        Ok(bytes) => Some(bytes.as_slice() == PNG),
        Err(_) => Some(false),
    }
}

/// A picture of the machine's size, by the greatest number that there can be.
pub(crate) fn plain(format: Format) -> Look {
    Look {
        format,
        scale: 1,
        is_by_dots: false,
    }
}

/// Whether a picture of eight by eight dots, in colours, has as many bytes as its parts: 8 first ones, chunks of 13 and
/// 768, the two bytes of zlib, a block of 8 rows with a filter each, 4 bytes of a checksum, and no bytes, each with 12
/// of its own.
fn is_for_a_slide(alloc: Global) -> Option<bool> {
    let shown = Shown::Number(Field::new(0, 8).ok()?);
    let look = Look {
        format: Format::Colours(Palette::Heat),
        scale: 2,
        is_by_dots: true,
    };
    match made(alloc, &Task::Show(shown, look), &BLANK, "") {
        Ok(bytes) => Some(bytes.len() == 8 + 25 + 780 + 14 + (12 + 5 + 8 * 9) + 16 + 12),
        Err(_) => Some(false),
    }
}

fn tells(alloc: Global, table: Table, wanted: &str) -> bool {
    is_made(alloc, &Task::Study(None, table), &BLANK, ALL_SEND, wanted)
}

/// Whether a source comes out as its program.
fn is_expanded(alloc: Global) -> bool {
    let made = match expand(alloc, SOURCE.as_bytes()) {
        Err(fault) if fault.kind == SourceKind::Asm(AsmKind::Memory) => {
            expand(alloc, SOURCE.as_bytes())
        }
        made => made,
    };
    match made {
        Ok(program) => program.as_slice() == PROGRAM.as_bytes(),
        Err(_) => false,
    }
}

// ---- loads and blank machines

/// Whether a load has its line.
fn is_measured(alloc: Global) -> Option<bool> {
    let wire = [WireEnd { chip: 0, dim: 0 }];
    let figures = match TRIAL.figures(alloc, &[], &wire, 200) {
        Err(LoadFault::Memory) => TRIAL.figures(alloc, &[], &wire, 200).ok()?,
        figures => figures.ok()?,
    };
    let loads: [Figures; 1] = [figures];
    let told = match table(alloc, &loads) {
        Err(NoMemory) => table(alloc, &loads).ok()?,
        Ok(told) => told,
    };
    let means = match TRIAL.spreads(alloc, &[], &wire, 200) {
        Err(LoadFault::Memory) => TRIAL.spreads(alloc, &[], &wire, 200).ok()?,
        means => means.ok()?,
    };
    let rates: [Spreads; 1] = [means];
    let spread = match spread_table(alloc, &rates) {
        Err(NoMemory) => spread_table(alloc, &rates).ok()?,
        Ok(spread) => spread,
    };
    Some(told.as_slice() == LOAD.as_bytes() && spread.as_slice() == MEANS.as_bytes())
}

/// Whether a load by places of its own has its table of latencies.
fn is_timed(alloc: Global) -> Option<bool> {
    let latencies = match SHUFFLED.latencies(alloc, &TARGETS, &[], 600) {
        Err(LoadFault::Memory) => SHUFFLED.latencies(alloc, &TARGETS, &[], 600).ok()?,
        latencies => latencies.ok()?,
    };
    let loads: [Latencies; 1] = [latencies];
    let told = match latency_table(alloc, &loads) {
        Err(NoMemory) => latency_table(alloc, &loads).ok()?,
        Ok(told) => told,
    };
    Some(told.as_slice() == TOOK.as_bytes())
}

/// Whether the same load has its table by chip.
fn is_counted(alloc: Global) -> Option<bool> {
    let chips = match SHUFFLED.chips(alloc, &TARGETS, &[], 600) {
        Err(LoadFault::Memory) => SHUFFLED.chips(alloc, &TARGETS, &[], 600).ok()?,
        chips => chips.ok()?,
    };
    let loads: [ChipCrossings; 1] = [chips];
    let told = match chip_table(alloc, &loads) {
        Err(NoMemory) => chip_table(alloc, &loads).ok()?,
        Ok(told) => told,
    };
    Some(told.as_slice() == CROSSED.as_bytes())
}

/// Whether a blank machine has its bytes, and 35 zero bytes for each chip.
fn is_blank(alloc: Global) -> Option<bool> {
    let named = [WireEnd { chip: 1, dim: 0 }];
    let wires = match cut_wires(alloc, 1, &named, 1, 9) {
        Err(FreshFault::Memory) => cut_wires(alloc, 1, &named, 1, 9).ok()?,
        wires => wires.ok()?,
    };
    let image = match fresh(alloc, 1, 15, &wires, 0) {
        Err(FreshFault::Memory) => fresh(alloc, 1, 15, &wires, 0).ok()?,
        image => image.ok()?,
    };
    let chips = image.strip_prefix(&CUT)?;
    Some(chips.len() == 70 && chips.iter().all(|byte| *byte == 0))
}

// ---- a front end

/// With which fault a front end ends, if with one, and what it answers.
fn answered(alloc: Global, lines: &str) -> Option<(Option<FrontFault>, Room)> {
    let mut sink = Room::new(alloc, 1000, 1000).ok()?;
    let mut source = Bytes::new(lines.as_bytes(), 5);
    let ended = front_image(alloc, &BLANK, &mut source, &mut sink);
    Some((ended.err(), sink))
}

/// Whether want of memory is told, of the image or of the lines.
fn wants_memory(fault: FrontFault) -> bool {
    matches!(
        fault,
        FrontFault::Memory
            | FrontFault::Image(ImageFault::Memory)
            | FrontFault::Ended(SessionFault::Memory)
    )
}

/// Whether all lines are answered; or else want of memory is told behind a front of the answers, and they are when they
/// are sent again.
fn is_answered(alloc: Global, talk: &Talk) -> Option<bool> {
    let told = talk.told.as_bytes();
    let (fault, sink) = answered(alloc, talk.sent)?;
    let Some(fault) = fault else {
        return Some(sink.taken() == told);
    };
    let is_told = wants_memory(fault) && told.starts_with(sink.taken());
    let (again, whole) = answered(alloc, talk.sent)?;
    Some(is_told && again.is_none() && whole.taken() == told)
}

// `.ci/refusals` refuses each growth in turn.
#[test]
fn a_refused_growth_is_told_as_want_of_memory(rt: HostRuntime) {
    assert_eq!(rt; first_not_so(rt.alloc(), &GROWN), None);
}
