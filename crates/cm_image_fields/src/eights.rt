//! Eight numbers of two bytes, which are written and read at once.

ghost use Rattle.std.specs.Prelude.{◌≡◌, ℕ, ◌+◌, ◌*◌, ◌<◌, ◌≤◌, ◌++◌, Ok, length, map, take, drop, slice_index};
ghost use Rattle.std.specs.List.{flat_map, range_with_len};
ghost use Rattle.std.specs.Int.{w16};
ghost use Rattle.cm_message.specs.Bytes.{number_bytes};
ghost use Rattle.cm_image_format.specs.Reading.{number_at};

use std::simd::prelude::*;

/// So many numbers are written and read at once.
pub const AT_ONCE: usize = 8;

/// The bytes of eight numbers.
pub const EIGHT_LEN: usize = 16;

/// Turns both bytes of each of eight numbers about: an image has the highest byte first, a vector the lowest.
const HIGH_FIRST: [usize; EIGHT_LEN] = [1, 0, 3, 2, 5, 4, 7, 6, 9, 8, 11, 10, 13, 12, 15, 14];

/// Puts the bytes of eight numbers into a list, from a place on, the highest of each number first.
#[inline(always)]
pub fn put_eight(bytes: &mut [u8], i: usize, numbers: u16x8)
    requires within { i + 16 ≤ length bytes.old }
    ensures value { take (i + 16) bytes.new ≡ take i bytes.old ++ flat_map (number_bytes w16) numbers }
    ensures rest { drop (i + 16) bytes.new ≡ drop (i + 16) bytes.old }
{
    let high_first = numbers.to_le_bytes().swizzle(HIGH_FIRST);
    high_first.copy_to_slice(&mut bytes[i..i + EIGHT_LEN]);
}

/// The eight numbers whose bytes stand in a list from a place on.
#[inline(always)]
pub fn eight_at(bytes: &[u8], i: usize) -> u16x8
    requires within { i + 16 ≤ length bytes.now }
    ensures value { (j : ℕ) → j < 8 → number_at w16 (drop (i + 2 * j) bytes.now)
        ≡ Ok (slice_index result j, drop (i + 2 * j + 2) bytes.now) }
    ensures words { (j : ℕ) → j < 8 → slice_index result j < 65536 }
    ensures eight { length result ≡ 8 }
{
    let high_first = u8x16::from_slice(&bytes[i..i + EIGHT_LEN]);
    u16x8::from_le_bytes(high_first.swizzle(HIGH_FIRST))
}

/// Eight numbers that follow one another, from one on.
#[inline(always)]
pub fn eight_from(first: usize) -> u16x8
    requires within { first + 8 ≤ 65536 }
    ensures value { result ≡ map (λ j. first + j) (range_with_len 0 8) }
{
    u16x8::splat(first as u16) + u16x8::from_array([0, 1, 2, 3, 4, 5, 6, 7])
}
