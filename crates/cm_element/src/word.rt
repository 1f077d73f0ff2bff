//! The words of the rows: one bit for each processor of a chip.

ghost use Rattle.std.specs.Prelude.{◌≡◌, ℕ, ◌+◌, ◌^◌, ◌<◌, ◌==◌, ◌&&◌, Bool, cond, if◌then◌else◌, length, map};
ghost use Rattle.std.specs.Prelude.{slice_index};
ghost use Rattle.std.specs.Bool.{beq};
ghost use Rattle.cm_bits.specs.Bit.{bit};
ghost use Rattle.cm_model.specs.Processor.{Processor, value, memory_bit, field_value};
ghost use Rattle.cm_model.specs.Chip.{IsPlane};

use cm_bits::{Plane, Proc};
use std::simd::prelude::*;

/// So many planes are looked at, or bits put, at once.
pub(crate) const SIXTEEN: usize = 16;

/// The planes in which only one processor has a 1, by the processor's number.
const PLACES: [Plane; SIXTEEN] = [
    1, 2, 4, 8, 16, 32, 64, 128, 256, 512, 1024, 2048, 4096, 8192, 16384, 32768,
];

/// Whether the bit of a processor is 1 in a plane.
pub(crate) fn is_one(plane: Plane, proc: Proc) -> bool
    ensures value { result ≡ bit plane proc }
    ensures in_range { proc < 16 }
{
    plane >> proc.get() & 1 == 1
}

/// The plane with this bit for one processor.
pub(crate) fn with_bit(plane: Plane, proc: Proc, value: bool) -> Plane
    ensures value { IsPlane result (λ p. if p == proc then value else bit plane p) }
    ensures in_range { proc < 16 }
{
    let here: Plane = 1 << proc.get();
    if value { plane | here } else { plane & !here }
}

/// A plane for each of sixteen bits: the bit stands at a processor, and the others have 0. All are made at once.
pub(crate) fn planes_of_bits(bits: u16, proc: Proc) -> [Plane; SIXTEEN]
    ensures value { (i : ℕ) → i < 16 → IsPlane (slice_index result i) (λ p. (p == proc) && bit bits i) }
{
    let here: Plane = 1 << proc.get();
    let places = u16x16::from_array(PLACES);
    let ones = (u16x16::splat(bits) & places).simd_eq(places);
    ones.select(u16x16::splat(here), u16x16::splat(0))
        .to_array()
}

/// The plane with another bit for a processor. It stands in a plane in which the others have 0.
pub(crate) fn with_bit_of(plane: Plane, proc: Proc, alone: Plane) -> Plane
    ensures value { (b : Bool) → IsPlane alone (λ p. (p == proc) && b)
        → IsPlane result (λ p. if p == proc then b else bit plane p) }
    ensures in_range { proc < 16 }
{
    let here: Plane = 1 << proc.get();
    plane & !here | alone
}

/// The bits of a processor in sixteen planes, as a number: bit k is that in plane k.
pub(crate) fn bits_in(planes: &[Plane], proc: Proc) -> u64
    requires sixteen { length planes.now ≡ 16 }
    ensures value { result ≡ value (map (λ plane. bit plane proc) planes.now) }
    ensures in_range { proc < 16 }
{
    let here = u16x16::splat(1 << proc.get());
    (u16x16::from_slice(planes) & here)
        .simd_eq(here)
        .to_bitmask()
}

/// The value of a memory field of sixteen bits, whose planes these are.
pub fn sixteen_bits_in(planes: &[Plane], proc: Proc) -> u64
    requires sixteen { length planes.now ≡ 16 }
    ensures value { (processor : Processor) (at : ℕ)
        → ((k : ℕ) → k < 16 → bit (slice_index planes.now k) proc ≡ memory_bit processor (at + k))
        → result ≡ field_value processor at 16 }
    ensures below { result < 65536 }
    ensures in_range { proc < 16 }
{
    bits_in(planes, proc)
}

pub(crate) fn bit_of(number: u64, i: usize) -> bool
    requires { i < 64 }
    ensures value { result ≡ bit number i }
{
    number >> i & 1 == 1
}

/// Where a flag is what the condition asks for.
pub(crate) fn holding(flag_plane: Plane, sense: bool) -> Plane
    ensures value { IsPlane result (λ p. beq (bit flag_plane p) sense) }
{
    if sense { flag_plane } else { !flag_plane }
}

/// At each bit that of `set` where it is chosen, else that of `clear`.
pub(crate) fn chosen(choice: Plane, set: Plane, clear: Plane) -> Plane
    ensures value { (p : ℕ) → bit result p ≡ cond (bit choice p) (bit set p) (bit clear p) }
{
    clear ^ (choice & (clear ^ set))
}
