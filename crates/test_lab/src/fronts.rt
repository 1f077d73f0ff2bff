//! A front end whose ends fail.

use crate::growths::BLANK;
use lab_front::{FrontFault, SessionFault, front_image};
use std::alloc::Global;
use std::test::Fail;
use test_doubles::{Bytes, Room};

/// Lines of which the third is asked for last, and their answers.
static SENT: &str = "set 9\nsense\nfield 0 0 0 8\n";

static TOLD: &str = "ok\nwire 1\nfield 0\n";

/// Whether of the answers exactly the first bytes go out to an end with room for so many.
fn stops_at(alloc: Global, room: usize) -> bool {
    let Ok(mut sink) = Room::new(alloc, room, 3) else {
        return false;
    };
    let mut source = Bytes::new(SENT.as_bytes(), 50);
    let ended = front_image(alloc, &BLANK, &mut source, &mut sink);
    let whole = room >= TOLD.len();
    let wanted = SessionFault::Write(room as u128);
    (ended.err()
        == if whole {
            None
        } else {
            Some(FrontFault::Ended(wanted))
        })
        && sink.taken() == TOLD.as_bytes().get(..room).unwrap_or(TOLD.as_bytes())
}

/// The room of the first end to which another text goes out.
fn first_wrong_room(alloc: Global) -> Option<usize> {
    for room in 0..25 {
        if !stops_at(alloc, room) {
            return Some(room);
        }
    }
    None
}

/// How many bytes are answered to lines that come from an end which fails after so many bytes.
fn told_after(alloc: Global, good: usize) -> Option<usize> {
    let mut sink = Room::new(alloc, 100, 100).ok()?;
    let mut source = Bytes::failing(SENT.as_bytes(), 4, good);
    let ended = front_image(alloc, &BLANK, &mut source, &mut sink);
    if ended.err() != Some(FrontFault::Ended(SessionFault::Read)) {
        return None;
    }
    Some(sink.taken().len())
}

#[test]
fn of_the_answers_the_first_bytes_go_out(rt: HostRuntime) -> Result<(), Fail> {
    assert_eq!(rt; first_wrong_room(rt.alloc()), None);
    Ok(())
}

#[test]
fn after_a_failed_read_lines_that_ended_are_answered(rt: HostRuntime) -> Result<(), Fail> {
    let alloc = rt.alloc();
    assert_eq!(rt; told_after(alloc, 5), Some(0));
    assert_eq!(rt; told_after(alloc, 6), Some(3));
    assert_eq!(rt; told_after(alloc, 12), Some(10));
    assert_eq!(rt; told_after(alloc, 25), Some(10));
    Ok(())
}
