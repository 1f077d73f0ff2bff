//! Growths of memory that are refused while images are read and written.

use crate::hostile::FOUR_CHIPS;
use cm_array::Machine;
use cm_bits::NoMemory;
use cm_image_dump::dump;
use cm_image_load::{ImageFault, load};
use cm_system::ProgramFault;
use cm_tools::fresh;
use std::alloc::Global;
use test_generators::{Call, first_not_so};

/// What takes memory.
#[derive(Clone, Copy, Debug, PartialEq, Eq)]
enum Grown {
    Loaded,
    LoadedWithCutWires,
    Dumped,
    DumpedWithCutWires,
    Fresh,
}

static GROWN: [Grown; 5] = [
    Grown::Loaded,
    Grown::LoadedWithCutWires,
    Grown::Dumped,
    Grown::DumpedWithCutWires,
    Grown::Fresh,
];

impl Call for Grown {
    fn is_so(&self, alloc: Global) -> Option<bool> {
        match self {
            Grown::Loaded => Some(is_loaded::<1, 1>(alloc, &TWO_CHIPS)),
            Grown::LoadedWithCutWires => Some(is_loaded::<2, 1>(alloc, &FOUR_CHIPS)),
            Grown::Dumped => is_dumped::<1, 1>(alloc, &TWO_CHIPS),
            Grown::DumpedWithCutWires => is_dumped::<2, 1>(alloc, &FOUR_CHIPS),
            Grown::Fresh => Some(is_made(alloc)),
        }
    }
}

/// Two chips, room for one message, counter 1; a plane and a message at the first.
pub static TWO_CHIPS: [u8; 108] = [
    0x43, 0x4d, 0x31, 0x49, 1, 1, 1, 0, 0, 0, 0, 0, 0, 0, 0, 1, 0, 0, 0, 0, 0, 0, 0, 0, 0, 0, 0, 0,
    0, 0, 0, 0, 0, 0, 0, 0, 0, 0, 0, 0, 0, 0, 0, 0, 0, 0, 0, 0, 0, 1, 0, 5, 0x80, 1, 1, 0, 1, 5, 1,
    2, 3, 4, 0, 0, 0, 0, 0, 0, 0, 0, 0, 0, 0, 0, 0, 0, 0, 0, 0, 0, 0, 0, 0, 0, 0, 0, 0, 0, 0, 0, 0,
    0, 0, 0, 0, 0, 0, 0, 0, 0, 0, 0, 0, 0, 0, 0, 0, 0,
];

/// Why bytes are refused, if they are.
fn refusal<const N: usize, const CAP: usize>(alloc: Global, bytes: &[u8]) -> Option<ImageFault> {
    load::<N, CAP>(alloc, bytes).err()
}

fn is_loaded<const N: usize, const CAP: usize>(alloc: Global, bytes: &[u8]) -> bool {
    match refusal::<N, CAP>(alloc, bytes) {
        None => true,
        Some(fault) => fault == ImageFault::Memory && refusal::<N, CAP>(alloc, bytes).is_none(),
    }
}

fn is_dumped<const N: usize, const CAP: usize>(alloc: Global, bytes: &[u8]) -> Option<bool> {
    let machine = load::<N, CAP>(alloc, bytes).ok()?;
    Some(comes_back(alloc, &machine, bytes))
}

fn comes_back<const N: usize, const CAP: usize>(
    alloc: Global,
    machine: &Machine<N, CAP>,
    bytes: &[u8],
) -> bool {
    let made = match dump(alloc, machine) {
        Err(NoMemory) => dump(alloc, machine),
        made => made,
    };
    match made {
        Ok(text) => text.as_slice() == bytes,
        Err(_) => false,
    }
}

fn is_made(alloc: Global) -> bool {
    let made = match fresh(alloc, 1, 7) {
        Err(ProgramFault::Memory) => fresh(alloc, 1, 7),
        made => made,
    };
    match made {
        Ok(image) => image.len() == 86,
        Err(_) => false,
    }
}

// `.ci/refusals` refuses each growth in turn.
#[test]
fn a_refused_growth_is_told_as_want_of_memory(rt: HostRuntime) {
    assert_eq!(rt; first_not_so(rt.alloc(), &GROWN), None);
}
