//! A table over a row is the table at each of its places.

use cm_bits::{NoMemory, Plane};
use cm_truth::{apply, apply_wide};
use std::alloc::Global;
use std::test::Fail;

// A full adder's tables at one place: table, wanted.
static SUMS: [(u8, Plane); 2] = [(0x96, 0x3cc3), (0xe8, 0x033f)];

const LENGTHS: [usize; 9] = [0, 1, 7, 8, 9, 31, 32, 33, 4096];

fn drawn(alloc: Global, count: usize, seed: u32) -> Result<Vec<Plane>, NoMemory> {
    let mut planes = Vec::new(alloc);
    let mut number = seed;
    for _ in 0..count {
        number = number.wrapping_mul(1_664_525).wrapping_add(1_013_904_223);
        let Ok(()) = planes.push((number >> 16) as u16) else {
            return Err(NoMemory);
        };
    }
    Ok(planes)
}

// The first place at which a row is not what the table says, or its length.
fn differs_at(table: u8, old: &[Plane], b: &[Plane], f: &[Plane], new: &[Plane]) -> usize {
    let mut place = 0;
    for (((a, b), f), found) in old.iter().zip(b).zip(f).zip(new) {
        if apply(table, *a, *b, *f) != *found {
            return place;
        }
        if place < old.len() {
            place += 1;
        }
    }
    place
}

fn looks_up(alloc: Global, table: u8, length: usize) -> Result<bool, Fail> {
    let old = drawn(alloc, length, 1985)?;
    let mut a = drawn(alloc, length, 1985)?;
    let b = drawn(alloc, length, 12)?;
    let f = drawn(alloc, length, 65_536)?;
    if a.len() != b.len() || a.len() != f.len() {
        return Ok(false);
    }
    apply_wide(table, &mut a, &b, &f);
    Ok(differs_at(table, &old, &b, &f, &a) == length)
}

#[test]
fn a_row_of_one_plane_adds(rt: HostRuntime) {
    for row in &SUMS {
        let (table, want) = *row;
        let mut a = [0x00ff];
        apply_wide(table, &mut a, &[0x0f0f], &[0x3333]);
        assert_eq!(rt; a[0], want);
    }
}

#[test]
fn each_place_of_a_row_is_looked_up(rt: HostRuntime) -> Result<(), Fail> {
    for length in LENGTHS {
        assert!(rt; looks_up(rt.alloc(), 0xd8, length)?, "{length}");
    }
    Ok(())
}
