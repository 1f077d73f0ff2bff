//! Images by their bytes, and what comes of them.

use crate::playing::{tell, tell_made};
use crate::whole::tell_fault;
use cm_array::Machine;
use cm_bits::{Words, read_number};
use cm_image_dump::dump;
use cm_image_load::{load, shape};
use cm_system::ProgramFault;
use cm_tools::fresh;
use std::alloc::{AllocError, Global};

/// Adds bytes, of which each stands there as two digits, so many times.
pub(crate) fn add_bytes(
    alloc: Global,
    image: &mut Vec<u8>,
    digits: &[u8],
    times: u64,
) -> Result<(), AllocError> {
    let Ok(bytes) = hex::decode(alloc, digits) else {
        return Ok(());
    };
    for _ in 0..times {
        image.extend_from_slice(bytes.as_slice())?;
    }
    Ok(())
}

/// Tells what an image is the image of, by its header.
pub(crate) fn tell_shape(
    alloc: Global,
    image: &[u8],
    told: &mut Vec<u8>,
) -> Result<(), AllocError> {
    let shape = shape(image);
    tell_made(told, format!(in alloc; "= {shape:?}"))
}

/// Tells with which fault bytes are refused, or the bytes of the machine that they are the image of.
pub(crate) fn tell_loaded<const N: usize, const CAP: usize>(
    alloc: Global,
    image: &[u8],
    told: &mut Vec<u8>,
) -> Result<(), AllocError> {
    match load::<N, CAP>(alloc, image) {
        Ok(machine) => tell_again(alloc, &machine, image, told),
        Err(fault) => tell_refused(alloc, ProgramFault::from(fault), told),
    }
}

/// Tells the bytes of a machine, unless they are these.
fn tell_again<const N: usize, const CAP: usize>(
    alloc: Global,
    machine: &Machine<N, CAP>,
    image: &[u8],
    told: &mut Vec<u8>,
) -> Result<(), AllocError> {
    let Ok(bytes) = dump(alloc, machine) else {
        return Err(AllocError);
    };
    if bytes.as_slice() == image {
        return tell(told, b"= the same bytes");
    }
    tell_bytes(alloc, bytes.as_slice(), told)
}

/// Tells the bytes of a machine.
pub(crate) fn tell_image<const N: usize, const CAP: usize>(
    alloc: Global,
    machine: &Machine<N, CAP>,
    told: &mut Vec<u8>,
) -> Result<(), AllocError> {
    tell_again(alloc, machine, b"", told)
}

/// Tells the bytes of a blank machine, by the words for its dimension and room.
pub(crate) fn tell_blank(alloc: Global, line: &[u8], told: &mut Vec<u8>) -> Result<(), AllocError> {
    let mut words = Words::new(line);
    let (Some(dimensions), Some(room)) = (number(words.next()), number(words.next())) else {
        return tell(told, b"no such machine");
    };
    match fresh(alloc, dimensions, room) {
        Ok(image) => tell_bytes(alloc, image.as_slice(), told),
        Err(fault) => tell_refused(alloc, fault, told),
    }
}

fn number(word: Option<&[u8]>) -> Option<u8> {
    u8::try_from(read_number(word?)?).ok()
}

/// Tells a fault, and how the program tells it.
pub(crate) fn tell_refused(
    alloc: Global,
    fault: ProgramFault,
    told: &mut Vec<u8>,
) -> Result<(), AllocError> {
    tell_made(told, format!(in alloc; "= Err({fault:?})"))?;
    tell_fault(alloc, fault, told)
}

/// Tells bytes, each by two digits; of one that stands there more than seven times in a row, how often.
fn tell_bytes(alloc: Global, bytes: &[u8], told: &mut Vec<u8>) -> Result<(), AllocError> {
    let (mut last, mut count) = (0u8, 0u64);
    for byte in bytes {
        if *byte != last {
            tell_times(alloc, last, count, told)?;
            last = *byte;
            count = 0;
        }
        count = count.saturating_add(1);
    }
    tell_times(alloc, last, count, told)?;
    tell(told, b"")
}

fn tell_times(alloc: Global, byte: u8, count: u64, told: &mut Vec<u8>) -> Result<(), AllocError> {
    if count > 7 {
        return told.extend_from_slice(format!(in alloc; " {byte:02x}*{count} ")?.as_bytes());
    }
    for _ in 0..count {
        add_digits(alloc, byte, told)?;
    }
    Ok(())
}

fn add_digits(alloc: Global, byte: u8, told: &mut Vec<u8>) -> Result<(), AllocError> {
    told.extend_from_slice(format!(in alloc; "{byte:02x}")?.as_bytes())
}
