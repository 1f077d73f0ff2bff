//! What comes in at all chips of the grid, by one processor that sends.

use cm_bits::{Dir, NoMemory, Plane};
use cm_news::incoming_row;
use std::alloc::Global;
use std::test::Fail;

// Dimensions, direction, chip and processor that send, chip and processor that get it.
static STEPS: [(u8, Dir, usize, u32, usize, u32); 15] = [
    (0, Dir::North, 0, 0, 0, 12),
    (0, Dir::South, 0, 15, 0, 3),
    (0, Dir::West, 0, 4, 0, 7),
    (0, Dir::East, 0, 7, 0, 4),
    (1, Dir::North, 1, 3, 0, 15),
    (3, Dir::North, 1, 2, 7, 14),
    (3, Dir::South, 6, 13, 0, 1),
    (3, Dir::West, 4, 8, 5, 11),
    (3, Dir::East, 3, 7, 2, 4),
    (3, Dir::South, 2, 5, 2, 9),
    (3, Dir::East, 2, 3, 3, 0),
    (12, Dir::North, 70, 1, 6, 13),
    (12, Dir::South, 4095, 12, 63, 0),
    (12, Dir::West, 64, 4, 127, 7),
    (12, Dir::East, 4095, 3, 4032, 0),
];

// A row of planes of which one processor of one chip has a 1.
fn row(alloc: Global, chips: usize, chip: usize, proc: u32) -> Result<Vec<Plane>, NoMemory> {
    let mut planes = Vec::new(alloc);
    for c in 0..chips {
        let plane = if c == chip && proc < 16 { 1 << proc } else { 0 };
        let Ok(()) = planes.push(plane) else {
            return Err(NoMemory);
        };
    }
    Ok(planes)
}

fn goes_so(alloc: Global, step: (u8, Dir, usize, u32, usize, u32)) -> Result<bool, Fail> {
    let (dims, dir, chip, proc, to, to_proc) = step;
    if dims > 12 {
        return Ok(false);
    }
    let chips = 1 << dims;
    let sent = row(alloc, chips, chip, proc)?;
    let wanted = row(alloc, chips, to, to_proc)?;
    let mut found = row(alloc, chips, chip, proc)?;
    if sent.len() != chips || found.len() != chips {
        return Ok(false);
    }
    incoming_row(dims, &sent, dir, &mut found);
    Ok(found == wanted)
}

#[test]
fn a_bit_goes_to_the_neighbour_round_the_torus(rt: HostRuntime) -> Result<(), Fail> {
    for step in &STEPS {
        assert!(&rt; goes_so(rt.alloc(), *step)?, "{step:?}");
    }
    Ok(())
}
