//! The same lookup of one word, in eight lanes, one for each entry of the table.

ghost use Rattle.cm_bits.specs.Bit.{bit};
ghost use Rattle.cm_model.specs.Chip.{IsPlane};
ghost use Rattle.cm_model.specs.Processor.{entry};

use cm_bits::Plane;
use std::simd::prelude::*;

const ALL: Plane = Plane::MAX;

/// What `apply` gives, in fewer steps where no others are looked up beside it. Two tables that are looked
/// up at the same words share most of the steps.
#[inline(always)]
pub fn apply_alone(table: u8, a: Plane, b: Plane, f: Plane) -> Plane
    ensures value { IsPlane result (λ p. entry table (bit a p) (bit b p) (bit f p)) }
{
    // Lane k has the processors that look up entry k.
    let by_a = u16x8::splat(a) ^ u16x8::from_array([ALL, ALL, ALL, ALL, 0, 0, 0, 0]);
    let by_b = u16x8::splat(b) ^ u16x8::from_array([ALL, ALL, 0, 0, ALL, ALL, 0, 0]);
    let by_f = u16x8::splat(f) ^ u16x8::from_array([ALL, 0, ALL, 0, ALL, 0, ALL, 0]);
    let looking = by_a & by_b & by_f;
    let places = u16x8::from_array([1, 2, 4, 8, 16, 32, 64, 128]);
    let ones = (u16x8::splat(u16::from(table)) & places).simd_eq(places);
    ones.select(looking, u16x8::splat(0)).reduce_or()
}
