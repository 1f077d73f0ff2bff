//! Runs of images: what is answered, what is kept, and how they end.

use crate::files::{Files, Text, run};
use cm_tools::fresh;
use std::alloc::Global;
use std::sync::Wait;
use std::thread::Threads;
use test_doubles::{Bytes, Room};

/// The image that is given: that of a blank machine, or one that is damaged.
#[derive(Clone, Copy)]
pub(crate) enum Given {
    /// Of 2^n chips, with routers of this room.
    Blank(u8, u8),
    /// Of one chip, without its last byte.
    Cut,
    /// Of one chip, with a byte more.
    Longer,
    /// Of one chip, with another byte at a place.
    With(usize, u8),
    /// No byte.
    Nothing,
}

/// The image, the program, the commands, of which so many bytes come before a read fails, and how many bytes of answers
/// can be written; what is written, and the number of the fault, 0 for none.
type Row = (
    Given,
    Text<'static>,
    &'static [u8],
    usize,
    usize,
    &'static [u8],
    u8,
);

const SUM: Text<'static> = (
    b"field x 0 8\nfield y 8 8\nconst x 200\nconst y 100\nadd x y\n",
    1000,
);

const NONE: Text<'static> = (b"", 1000);

const JUMP: Text<'static> = (b"jump\n", 1000);

/// Its first read fails.
const UNREAD: Text<'static> = (b"", 0);

const ASKS: &[u8] = b"run\nfield 0 0 0 8\nflag 0 0 7\n";

const ANSWERS: &[u8] = b"end\nfield 44\nflag 1\n";

static RUNS: [Row; 18] = [
    // a sum on each of the program's own rooms, and on more chips
    (Given::Blank(0, 7), SUM, ASKS, 100, 100, ANSWERS, 0),
    (Given::Blank(0, 1), SUM, ASKS, 100, 100, ANSWERS, 0),
    (Given::Blank(3, 7), SUM, ASKS, 100, 100, ANSWERS, 0),
    (Given::Blank(5, 1), SUM, ASKS, 100, 100, ANSWERS, 0),
    // no program, no command
    (Given::Blank(0, 7), NONE, b"", 100, 100, b"", 0),
    // an image that is refused, and nothing is written
    (Given::Cut, SUM, ASKS, 100, 100, b"", 21),
    (Given::Nothing, SUM, ASKS, 100, 100, b"", 21),
    (Given::Longer, SUM, ASKS, 100, 100, b"", 29),
    (Given::With(0, 0), SUM, ASKS, 100, 100, b"", 22),
    (Given::With(4, 3), SUM, ASKS, 100, 100, b"", 23),
    (Given::With(5, 13), SUM, ASKS, 100, 100, b"", 24),
    // a room that the program has no machines of; before the rest of the image is looked at
    (Given::With(6, 2), SUM, ASKS, 100, 100, b"", 5),
    // a program that is refused, or was not read to its end
    (Given::Blank(0, 7), JUMP, ASKS, 100, 100, b"", 15),
    (Given::Blank(0, 7), UNREAD, ASKS, 100, 100, b"", 30),
    // the image's fault comes before the program's
    (Given::Cut, UNREAD, ASKS, 100, 100, b"", 21),
    (Given::With(6, 2), JUMP, ASKS, 100, 100, b"", 5),
    // a read of commands that fails, and a write of answers
    (Given::Blank(0, 7), SUM, ASKS, 6, 100, b"end\n", 30),
    (Given::Blank(0, 7), SUM, ASKS, 100, 5, b"end\nf", 31),
];

/// One block, and one worker.
const WHOLE: (u8, u8) = (0, 1);

/// The image, the program, into how many blocks the machine is cut (2^k of them) and among how many workers; the number
/// of the fault, 0 for none.
type SharedRow = (Given, Text<'static>, (u8, u8), u8);

static SHARED_RUNS: [SharedRow; 17] = [
    // as many cuts as the cube has room for, and as many workers as there are blocks
    (Given::Blank(4, 7), SUM, (0, 1), 0),
    (Given::Blank(4, 7), SUM, (1, 1), 0),
    (Given::Blank(4, 7), SUM, (2, 1), 0),
    (Given::Blank(4, 7), SUM, (2, 3), 0),
    (Given::Blank(4, 1), SUM, (2, 4), 0),
    (Given::Blank(1, 7), SUM, (1, 2), 0),
    (Given::Blank(5, 7), SUM, (3, 8), 0),
    (Given::Blank(12, 1), SUM, (6, 64), 0),
    // too many cuts
    (Given::Blank(4, 7), SUM, (3, 1), 37),
    (Given::Blank(0, 7), SUM, (1, 1), 37),
    // no worker, or more than blocks
    (Given::Blank(4, 7), SUM, (2, 5), 36),
    (Given::Blank(4, 7), SUM, (0, 2), 36),
    // the cuts are looked at before the workers
    (Given::Blank(4, 7), SUM, (3, 64), 37),
    // and both after the image and after the program
    (Given::Cut, SUM, (6, 64), 21),
    (Given::With(6, 2), SUM, (6, 64), 5),
    (Given::Blank(0, 7), JUMP, (6, 64), 15),
    (Given::Blank(0, 7), UNREAD, (6, 64), 30),
];

/// The bytes of an image.
pub(crate) fn bytes_of(alloc: Global, given: Given) -> Option<Vec<u8>> {
    let (n, cap) = match given {
        Given::Blank(n, cap) => (n, cap),
        _ => (0, 7),
    };
    let mut image = fresh(alloc, n, cap).ok()?;
    match given {
        Given::Blank(_, _) => {}
        Given::Cut => {
            image.pop();
        }
        Given::Longer => image.push(0).ok()?,
        Given::With(place, byte) => *image.get_mut(place)? = byte,
        Given::Nothing => image.clear(),
    }
    Some(image)
}

/// Whether a run writes and ends as its row says; and keeps an image only if it is to, and has no fault.
fn is_so<R: Threads + Wait + Sync>(
    rt: &R,
    alloc: Global,
    row: &Row,
    sharing: (u8, u8),
    keeps: bool,
) -> Option<bool> {
    let (given, text, commands, good, room, wanted, number) = *row;
    let image = bytes_of(alloc, given)?;
    let files = Files {
        alloc,
        image: &image,
        text,
        sharing,
        keeps,
        left: None,
    };
    let mut commands = Bytes::failing(commands, 3, good);
    let mut answers = Room::new(alloc, room, 5).ok()?;
    let ended = run(rt, files, &mut commands, &mut answers)?;
    let keeps_one = keeps && number == 0;
    Some(ended.number == number && ended.left.is_some() == keeps_one && answers.taken() == wanted)
}

/// The answers of a second session, on the image that a first one keeps.
fn goes_on<R: Threads + Wait + Sync>(
    rt: &R,
    alloc: Global,
    first: &[u8],
    second: &[u8],
) -> Option<Room> {
    let image = bytes_of(alloc, Given::Blank(2, 7))?;
    let (left, _) = session(rt, alloc, &image, SUM, first)?;
    let (_, answers) = session(rt, alloc, &left, NONE, second)?;
    Some(answers)
}

/// The image that a session leaves, and its answers.
fn session<R: Threads + Wait + Sync>(
    rt: &R,
    alloc: Global,
    image: &[u8],
    text: Text<'static>,
    commands: &[u8],
) -> Option<(Vec<u8>, Room)> {
    let files = Files {
        alloc,
        image,
        text,
        sharing: WHOLE,
        keeps: true,
        left: None,
    };
    let mut commands = Bytes::failing(commands, 3, 100);
    let mut answers = Room::new(alloc, 100, 5).ok()?;
    let ended = run(rt, files, &mut commands, &mut answers)?;
    Some((ended.left?, answers))
}

#[test]
fn images_are_run(rt: HostRuntime) {
    for (i, row) in RUNS.iter().enumerate() {
        let so = is_so(&rt, rt.alloc(), row, WHOLE, i % 2 == 0);
        assert!(rt; so == Some(true), "in row {i}");
    }
}

/// Whether a run that is shared out so answers as one that is not, or is refused.
fn is_shared<R: Threads + Wait + Sync>(rt: &R, alloc: Global, row: &SharedRow) -> Option<bool> {
    let (given, text, sharing, number) = *row;
    let answers: &[u8] = if number == 0 { ANSWERS } else { b"" };
    let whole: Row = (given, text, ASKS, 100, 100, answers, number);
    is_so(rt, alloc, &whole, sharing, false)
}

#[test]
fn runs_are_shared_out_or_refused(rt: HostRuntime) {
    for (i, row) in SHARED_RUNS.iter().enumerate() {
        let so = is_shared(&rt, rt.alloc(), row);
        assert!(rt; so == Some(true), "in row {i}");
    }
}

/// The rooms that the program has machines of.
const ROOMS: [u8; 2] = [1, 7];

#[test]
fn machines_of_every_size_are_run(rt: HostRuntime) {
    for n in 0..13 {
        for cap in ROOMS {
            let row: Row = (Given::Blank(n, cap), SUM, ASKS, 100, 100, ANSWERS, 0);
            let so = is_so(&rt, rt.alloc(), &row, WHOLE, n < 4);
            assert!(rt; so == Some(true), "{n} dimensions, room for {cap}");
        }
    }
}

#[test]
fn the_image_that_is_kept_goes_on_where_the_first_session_ended(rt: HostRuntime) {
    let wanted: &[u8] = b"field 44\nfield 102\nend\n";
    let answers = goes_on(
        &rt,
        rt.alloc(),
        b"run\npoke 3 15 9 1\n",
        b"field 2 7 0 8\nfield 3 15 8 8\nrun\n",
    );
    let told = answers.map(|room| room.taken() == wanted);
    assert!(rt; told == Some(true));
}
