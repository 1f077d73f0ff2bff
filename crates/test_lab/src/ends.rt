//! A text of numbers that comes in from an end that fails after so many bytes, and what is told goes out to one that
//! does.

use crate::growths::BLANK;
use cm_bits::{Field, write_all};
use cm_system::{TakeFault, take};
use lab_data::{LabFault, NumbersFault, Order, Task, perform};
use std::alloc::Global;
use std::test::Fail;
use test_doubles::{Bytes, Room};

/// A number for each processor of one chip.
static NUMBERS: &str = "1 2 3 4\n5 6 7 0\n1 2 3 4\n5 6 7 0\n";

/// What is told of them.
static TOLD: &str = "1 2 3 4 5 6 7 0 1 2 3 4 5 6 7 0\n";

/// How the numbers come in that fail after so many bytes: as a failure to read, or all of them.
fn fault_after(alloc: Global, good: usize) -> Option<TakeFault> {
    take(alloc, &mut Bytes::failing(NUMBERS.as_bytes(), 5, good), 100).err()
}

/// What is made of the numbers of which only so many bytes are there.
fn made_of_front(alloc: Global, front: usize) -> Option<LabFault> {
    let field = Field::new(9, 3).ok()?;
    let given = NUMBERS.as_bytes().get(..front).unwrap_or(&[]);
    perform(alloc, Task::Put(Order::Chips, field), &BLANK, given).err()
}

/// The image with the numbers.
fn filled(alloc: Global) -> Option<Vec<u8>> {
    let field = Field::new(9, 3).ok()?;
    let given = take(alloc, &mut Bytes::new(NUMBERS.as_bytes(), 7), 100).ok()?;
    perform(alloc, Task::Put(Order::Chips, field), &BLANK, &given).ok()
}

/// Whether of what is told exactly the first bytes go out to an end with room for so many.
fn front_goes_out(alloc: Global, text: &[u8], room: usize) -> bool {
    let Ok(mut sink) = Room::new(alloc, room, 3) else {
        return false;
    };
    let written = write_all(&mut sink, text);
    written.is_ok() == (room >= text.len()) && sink.taken() == text.get(..room).unwrap_or(text)
}

/// The room of the first end to which another text goes out.
fn first_wrong_room(alloc: Global) -> Option<usize> {
    let field = Field::new(9, 3).ok()?;
    let image = filled(alloc)?;
    let told = perform(alloc, Task::Get(Order::Chips, field), &image, &[]).ok()?;
    if told.as_slice() != TOLD.as_bytes() {
        return Some(0);
    }
    for room in 0..40 {
        if !front_goes_out(alloc, &told, room) {
            return Some(room);
        }
    }
    None
}

/// The first number of bytes after which another fault is told.
fn first_wrong_front(alloc: Global) -> Option<usize> {
    for good in 0..32 {
        let count = (good as u64 + 1) / 2;
        let wanted = LabFault::Numbers(NumbersFault::TooFew(count));
        let of_front = made_of_front(alloc, good);
        if fault_after(alloc, good) != Some(TakeFault::Read)
            || of_front != if count < 16 { Some(wanted) } else { None }
        {
            return Some(good);
        }
    }
    None
}

#[test]
fn numbers_that_do_not_come_whole_are_refused(rt: HostRuntime) -> Result<(), Fail> {
    assert_eq!(rt; first_wrong_front(rt.alloc()), None);
    Ok(())
}

#[test]
fn of_what_is_told_the_first_bytes_go_out(rt: HostRuntime) -> Result<(), Fail> {
    assert_eq!(rt; first_wrong_room(rt.alloc()), None);
    Ok(())
}
