//! Steps on the grid: of one place, and of a plane at once.

ghost use Rattle.std.specs.Prelude.{◌≡◌, ℕ, ◌*◌, ◌/◌, ◌%◌, ◌^◌, ◌<◌, ◌≤◌, ◌==◌, ◌||◌, false, length, slice_index};
ghost use Rattle.std.specs.Prelude.{if◌then◌else◌};
ghost use Rattle.cm_bits.specs.Bit.{bit};
ghost use Rattle.cm_model.specs.Chip.{IsPlane, plane_bit};
ghost use Rattle.cm_model.specs.Place.{neighbour, source};
ghost use Rattle.cm_news.specs.Moves.{is_entry, sender_on_chip, at_edge, bit_along_edge, corner, bit_of_place};

use crate::row::incoming_row;
use cm_bits::{Dir, Place, Plane, Proc};
use cm_model::{PlainGrid, opposite};

/// The grid of a cube of `N` dimensions, a torus of `4 * 2^(N - N/2)` rows and `4 * 2^(N/2)` columns
/// (Hillis 1985; the numbering is ours).
pub struct Grid<const N: usize>;

impl<const N: usize> Grid<N> {
    /// The place one step on in a direction.
    pub fn neighbour(place: Place, dir: Dir) -> Place
        requires dimension { N ≤ 12 }
        requires chip { place.chip < 2 ^ N }
        ensures value { result ≡ neighbour N dir place }
        ensures within { result.chip < 2 ^ N }
    {
        PlainGrid::<N>::neighbour(place, dir)
    }

    /// Where the bits of a chip's processors go that stay on the chip: a processor to which none
    /// comes from the same chip gets 0.
    pub fn inside(plane: Plane, dir: Dir) -> Plane
        ensures value { IsPlane result (λ p. plane_bit plane (sender_on_chip dir p)) }
    {
        match dir {
            Dir::North => plane >> 4,
            Dir::South => plane << 4,
            Dir::West => plane >> 1 & 0x7777,
            Dir::East => plane << 1 & 0xeeee,
        }
    }

    /// The four bits of a chip's processors that leave it: bit i is that of column i for north and
    /// south, that of row i for east and west.
    pub fn edge(plane: Plane, dir: Dir) -> u8
        ensures value { (i : ℕ) → i < 4 → bit result i ≡ bit plane (at_edge dir i) }
        ensures within { result < 16 }
    {
        let edge = match dir {
            Dir::North => plane & 0xf,
            Dir::South => plane >> 12,
            Dir::West => first_column(plane),
            Dir::East => first_column(plane >> 3),
        };
        edge as u8
    }

    /// What comes in at a chip when each processor of the machine sends its bit in a direction:
    /// `planes` has a plane for each chip.
    pub fn incoming(planes: &[Plane], dir: Dir, chip: u16) -> Plane
        requires dimension { N ≤ 12 }
        requires planes { length planes.now ≡ 2 ^ N }
        requires chip { chip < 2 ^ N }
        ensures value { IsPlane result
            (λ p. bit_of_place planes.now (source N dir (record { chip = chip; proc = p }))) }
    {
        let own = planes[usize::from(chip)];
        let before = planes[usize::from(Self::chip_before(chip, dir))];
        Self::over_edge(own, Self::edge(before, dir), dir)
    }

    /// What comes in at a chip from its own plane, and from the edge of the chip before it.
    pub fn over_edge(own: Plane, edge: u8, dir: Dir) -> Plane
        requires within { edge < 16 }
        ensures value { IsPlane result
            (λ p. plane_bit own (sender_on_chip dir p)
            || (if is_entry dir p then bit edge (bit_along_edge dir p) else false)) }
    {
        Self::inside(own, dir) | entering(edge, dir)
    }

    /// What comes in at every chip of the machine, in order of their numbers.
    pub fn incoming_row(planes: &[Plane], dir: Dir, out: &mut [Plane])
        requires dimension { N ≤ 12 }
        requires planes { length planes.now ≡ 2 ^ N }
        requires out { length out.old ≡ 2 ^ N }
        ensures value { (c : ℕ) → c < 2 ^ N → IsPlane (slice_index out.new c)
            (λ p. bit_of_place planes.now (source N dir (record { chip = c; proc = p }))) }
    {
        incoming_row(N as u8, planes, dir, out);
    }

    /// The chip whose edge leads to this one's in a direction.
    fn chip_before(chip: u16, dir: Dir) -> u16
        requires dimension { N ≤ 12 }
        requires chip { chip < 2 ^ N }
        ensures value { result ≡ (source N dir (record { chip = chip; proc = corner dir })).chip }
        ensures within { result < 2 ^ N }
    {
        let proc = corner(dir);
        Self::neighbour(Place { chip, proc }, opposite(dir)).chip
    }
}

/// A processor to which a step in this direction leads from another chip.
fn corner(dir: Dir) -> Proc
    ensures value { result ≡ corner dir }
{
    match dir {
        Dir::North | Dir::West => Proc::new(15).unwrap(),
        Dir::South | Dir::East => Proc::new(0).unwrap(),
    }
}

/// Bits 0, 4, 8 and 12 of a plane, close together.
fn first_column(plane: Plane) -> u16
    ensures value { (i : ℕ) → i < 4 → bit result i ≡ bit plane (4 * i) }
    ensures within { result < 16 }
{
    let column = plane & 0x1111;
    (column | column >> 3 | column >> 6 | column >> 9) & 0xf
}

/// Where the four bits go that leave another chip in a direction.
fn entering(edge: u8, dir: Dir) -> Plane
    requires within { edge < 16 }
    ensures value { IsPlane result (λ p. if is_entry dir p then bit edge (bit_along_edge dir p) else false) }
{
    let edge = u16::from(edge);
    match dir {
        Dir::North => edge << 12,
        Dir::South => edge,
        Dir::West => to_first_column(edge) << 3,
        Dir::East => to_first_column(edge),
    }
}

/// Four bits, spread over bits 0, 4, 8 and 12.
fn to_first_column(edge: u16) -> Plane
    requires within { edge < 16 }
    ensures value { IsPlane result (λ p. if p % 4 == 0 then bit edge (p / 4) else false) }
{
    (edge | edge << 3 | edge << 6 | edge << 9) & 0x1111
}
