//! A room near at hand, in which the words of some chips at eight addresses lie row by row.

ghost use Rattle.std.specs.Prelude.{◌≡◌, ◌≢◌, ◌⊎◌, ℕ, ◌+◌, ◌*◌, ◌<◌, ◌≤◌, length, slice_index};

use super::PITCH;
use crate::run::square::{EIGHT, SQUARE, put_eight, put_square, transpose};
use cm_bits::Plane;

/// So many words has a row of the room: one for each chip.
pub(crate) const WIDTH: usize = 256;

/// So many words has the room: 4 KB.
pub(crate) const ROOM: usize = EIGHT * WIDTH;

/// Puts the planes of so many chips, from one on, at eight addresses into the room. The planes lie chip by chip.
pub(crate) fn fill_room(room: &mut [Plane], planes: &[Plane], chip: usize, at: usize, some: usize)
    requires room { length room.old ≡ 2048 }
    requires planes { (chip + some) * 4128 ≤ length planes.now }
    requires at { at + 8 ≤ 4096 }
    requires some { some ≤ 256 }
    ensures value { (k c : ℕ) → k < 8 → c < some
        → slice_index room.new (k * 256 + c) ≡ slice_index planes.now ((chip + c) * 4128 + (at + k)) }
{
    let eights = some / EIGHT;
    for q in 0..eights {
        put_chips(room, q * EIGHT, planes, chip + q * EIGHT, at);
    }
    for c in eights * EIGHT..some {
        put_chip(room, c, planes, chip + c, at);
    }
}

/// Puts those of eight chips into as many columns, as a square. The compiler keeps the square in registers.
fn put_chips(room: &mut [Plane], column: usize, planes: &[Plane], chip: usize, at: usize)
    requires room { length room.old ≡ 2048 }
    requires column { column + 8 ≤ 256 }
    requires planes { (chip + 8) * 4128 ≤ length planes.now }
    requires at { at + 8 ≤ 4096 }
    ensures value { (k c : ℕ) → k < 8 → c < 8
        → slice_index room.new (k * 256 + (column + c)) ≡ slice_index planes.now ((chip + c) * 4128 + (at + k)) }
    ensures others { (k c : ℕ) → c < 256 → (c < column) ⊎ (column + 8 ≤ c)
        → slice_index room.new (k * 256 + c) ≡ slice_index room.old (k * 256 + c) }
{
    let mut square: [Plane; SQUARE] = [0; SQUARE];
    read_chips(planes, chip, at, &mut square);
    transpose(&mut square);
    put_square::<WIDTH>(room, 0, column, &square);
}

/// Reads the words of eight chips, from one on, at eight addresses, chip by chip.
fn read_chips(planes: &[Plane], chip: usize, at: usize, square: &mut [Plane])
    requires planes { (chip + 8) * 4128 ≤ length planes.now }
    requires at { at + 8 ≤ 4096 }
    requires square { length square.old ≡ 64 }
    ensures value { (c k : ℕ) → c < 8 → k < 8
        → slice_index square.new (c * 8 + k) ≡ slice_index planes.now ((chip + c) * 4128 + (at + k)) }
{
    for c in 0..EIGHT {
        put_eight(square, c * EIGHT, planes, (chip + c) * PITCH + at);
    }
}

/// Puts the planes of one chip at eight addresses into a column.
fn put_chip(room: &mut [Plane], column: usize, planes: &[Plane], chip: usize, at: usize)
    requires room { length room.old ≡ 2048 }
    requires column { column < 256 }
    requires planes { (chip + 1) * 4128 ≤ length planes.now }
    requires at { at + 8 ≤ 4096 }
    ensures value { (k : ℕ) → k < 8
        → slice_index room.new (k * 256 + column) ≡ slice_index planes.now (chip * 4128 + (at + k)) }
    ensures others { (k c : ℕ) → c < 256 → c ≢ column
        → slice_index room.new (k * 256 + c) ≡ slice_index room.old (k * 256 + c) }
{
    for k in 0..EIGHT {
        room[k * WIDTH + column] = planes[chip * PITCH + (at + k)];
    }
}
