//! The words of eight chips in eight rows, turned so that those of a chip lie side by side.

ghost use Rattle.std.specs.Prelude.{◌≡◌, ◌⊎◌, ℕ, ◌+◌, ◌*◌, ◌/◌, ◌%◌, ◌<◌, ◌≤◌, length, slice_index};
ghost use Rattle.cm_element.specs.Laid.{IsRowLaid};

use cm_bits::Plane;
use std::simd::prelude::*;

/// So many rows, and so many chips, are turned at once.
pub(crate) const EIGHT: usize = 8;

/// So many words has a square of eight rows and eight chips.
pub(crate) const SQUARE: usize = 64;

/// Transposes a square. It is riffled three times, and each time the six bits of every place turn by one.
pub(crate) fn transpose(square: &mut [Plane])
    requires square { length square.old ≡ 64 }
    ensures value { (c k : ℕ) → c < 8 → k < 8
        → slice_index square.new (c * 8 + k) ≡ slice_index square.old (k * 8 + c) }
{
    riffle(square);
    riffle(square);
    riffle(square);
}

/// Lays the words of the upper half between those of the lower half, as a pack of cards is riffled.
fn riffle(square: &mut [Plane])
    requires square { length square.old ≡ 64 }
    ensures value { (n : ℕ) → n < 64
        → slice_index square.new n ≡ slice_index square.old (n % 2 * 32 + n / 2) }
    ensures square { length square.new ≡ 64 }
{
    let lower = u16x32::from_slice(&square[0..32]);
    let upper = u16x32::from_slice(&square[32..64]);
    let (first, second) = lower.interleave(upper);
    first.copy_to_slice(&mut square[0..32]);
    second.copy_to_slice(&mut square[32..64]);
}

/// Puts eight words of a list into another, from one place and to one place on.
pub(crate) fn put_eight(list: &mut [Plane], at: usize, from: &[Plane], source: usize)
    requires within { at + 8 ≤ length list.old }
    requires from { source + 8 ≤ length from.now }
    ensures value { IsRowLaid at source 8 from.now list.old list.new }
{
    let words = u16x8::from_slice(&from[source..source + EIGHT]);
    words.copy_to_slice(&mut list[at..at + EIGHT]);
}

/// Puts the words of each chip of a square into a list, for the chips from one on and from an address on. In this list
/// the words of each chip begin a pitch after those of the chip before.
#[inline(always)]
pub(crate) fn put_square<const PITCH: usize>(
    planes: &mut [Plane],
    chip: usize,
    to: usize,
    square: &[Plane],
)
    requires planes { (chip + 8) * PITCH ≤ length planes.old }
    requires to { to + 8 ≤ PITCH }
    requires square { length square.now ≡ 64 }
    ensures value { (c k : ℕ) → c < 8 → k < 8
        → slice_index planes.new ((chip + c) * PITCH + (to + k)) ≡ slice_index square.now (c * 8 + k) }
    ensures others { (c i : ℕ) → i < PITCH → ((c < chip) ⊎ (chip + 8 ≤ c)) ⊎ ((i < to) ⊎ (to + 8 ≤ i))
        → slice_index planes.new (c * PITCH + i) ≡ slice_index planes.old (c * PITCH + i) }
{
    for c in 0..EIGHT {
        put_eight(planes, (chip + c) * PITCH + to, square, c * EIGHT);
    }
}
