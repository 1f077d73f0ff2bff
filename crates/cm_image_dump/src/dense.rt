//! Writing chips of a machine in which most addresses are in use.

ghost use Rattle.std.specs.Prelude.{◌≡◌, ℕ, ◌+◌, ◌*◌, ◌++◌, ◌^◌, ◌<◌, ◌≤◌, ◌≢◌, length, take, IfErr, OnOk};
ghost use Rattle.std.specs.Prelude.{IsErrOf, OnErr, vec_capacity};
ghost use Rattle.std.specs.Prelude.{slice_index};
ghost use Rattle.std.specs.List.{flat_map};
ghost use Rattle.cm_model.specs.Array.{chip_at};
ghost use Rattle.cm_image_format.specs.Image.{chip_text};
ghost use Rattle.cm_image_format.specs.Whole.{memory_plane_of, image_of_chip, image_of};
ghost use Rattle.cm_image_dump.specs.Planes.{AreCounted, chips_text, plane_listing, listings, planes_below};
ghost use Rattle.cm_image_dump.specs.Sending.{GoesOut, GoesOutInPart, is_dump_write};

use crate::dumps::{push_flags, push_messages, push_plane};
use cm_array::{MachineOf, Sizes};
use cm_bits::{ADDRESSES, NoMemory, Plane};
use cm_element::{ChipView, PITCH};
use cm_image_fields::{AT_ONCE, EIGHT_LEN, LISTING_LEN, eight_from, push_u8, push_u16, put_eight};
use cm_message::Message;
use std::simd::prelude::*;

/// How many planes of 64 chips are written near: 528 KB, which a cache holds.
pub(crate) const TILE_PLANES: usize = 64 * PITCH;

/// The bytes that list the planes of all addresses.
const ALL_LISTED_LEN: usize = 16384;

/// Writes the planes of so many chips, from `first` on, chip by chip.
pub(crate) fn write_tile<S: Sizes>(
    machine: &MachineOf<S>,
    first: u16,
    some: u16,
    planes: &mut [Plane],
)
    requires chips { first + some ≤ 2 ^ S.n }
    requires few { some * 4128 ≤ length planes.old }
    ensures value { (c a : ℕ) → c < some → a < 4096
        → slice_index planes.new (c * 4128 + a) ≡ memory_plane_of (chip_at machine.now.machine.chips (first + c)) a }
{
    machine.write_planes(first, some, planes);
}

/// Appends the image's text of a chip with so many listed planes, all of them among these, and this buffer.
pub(crate) fn push_dense_chip(
    text: &mut Vec<u8>,
    chip: &ChipView<'_>,
    listed: u16,
    planes: &[Plane],
    buffer: &[Message],
) -> Result<(), NoMemory>
    requires listed { listed ≡ length (planes_below chip.now 4096) }
    requires long { 4096 ≤ length planes.now }
    requires planes { (a : ℕ) → a < 4096 → slice_index planes.now a ≡ memory_plane_of chip.now a }
    requires few { length buffer.now < 256 }
    ensures ok { OnOk result (text.new.items ≡ text.old.items ++ chip_text (image_of_chip chip.now buffer.now)) }
    ensures capacity { vec_capacity text.old ≤ vec_capacity text.new }
    ensures grows { OnOk result (length text.new.items ≤ length text.old.items + (16419 + 18 * length buffer.now)) }
    ensures full { OnErr result (vec_capacity text.old < length text.old.items + (16419 + 18 * length buffer.now)) }
{
    push_flags(text, chip)?;
    push_u16(text, listed)?;
    push_memory(text, listed, planes)?;
    push_u8(text, buffer.len() as u8)?;
    push_messages(text, buffer)
}

/// The planes of all addresses that are not 0, of which there are so many: together, if none is 0.
fn push_memory(text: &mut Vec<u8>, listed: u16, planes: &[Plane]) -> Result<(), NoMemory>
    requires long { 4096 ≤ length planes.now }
    requires none { listed ≡ 4096 → (a : ℕ) → a < 4096 → slice_index planes.now a ≢ 0 }
    ensures ok { OnOk result (text.new.items ≡ text.old.items ++ listings planes.now 4096) }
    ensures capacity { vec_capacity text.old ≤ vec_capacity text.new }
    ensures grows { OnOk result (length text.new.items ≤ length text.old.items + 16384) }
    ensures full { OnErr result (vec_capacity text.old < length text.old.items + 16384) }
{
    if listed == ADDRESSES {
        push_all(text, planes)
    } else {
        push_some(text, planes)
    }
}

/// The planes of all addresses, of which none is 0. They are listed in their places.
fn push_all(text: &mut Vec<u8>, planes: &[Plane]) -> Result<(), NoMemory>
    requires long { 4096 ≤ length planes.now }
    requires none { (a : ℕ) → a < 4096 → slice_index planes.now a ≢ 0 }
    ensures ok { OnOk result (text.new.items ≡ text.old.items ++ listings planes.now 4096) }
    ensures capacity { vec_capacity text.old ≤ vec_capacity text.new }
    ensures grows { OnOk result (length text.new.items ≤ length text.old.items + 16384) }
    ensures full { OnErr result (vec_capacity text.old < length text.old.items + 16384) }
{
    let start = text.len();
    text.resize(start + ALL_LISTED_LEN, 0)?;
    list_all(&mut text[start..], planes);
    Ok(())
}

/// Lists the planes of all addresses.
fn list_all(listed: &mut [u8], planes: &[Plane])
    requires room { length listed.old ≡ 16384 }
    requires long { 4096 ≤ length planes.now }
    ensures full { ((a : ℕ) → a < 4096 → slice_index planes.now a ≢ 0) → listed.new ≡ listings planes.now 4096 }
{
    for k in 0..usize::from(ADDRESSES) / AT_ONCE {
        list_eight(listed, k * AT_ONCE, planes);
    }
}

/// Lists the planes of eight addresses, from one on, behind those of the addresses below.
#[inline(always)]
fn list_eight(listed: &mut [u8], at: usize, planes: &[Plane])
    requires within { at + 8 ≤ 4096 }
    requires room { length listed.old ≡ 16384 }
    requires long { 4096 ≤ length planes.now }
    ensures value { ((j : ℕ) → j < 8 → slice_index planes.now (at + j) ≢ 0)
        → take (4 * at) listed.old ≡ listings planes.now at
        → take (4 * (at + 8)) listed.new ≡ listings planes.now (at + 8) }
{
    let words = u16x8::from_slice(&planes[at..at + AT_ONCE]);
    let (first, second) = eight_from(at).interleave(words);
    put_eight(listed, LISTING_LEN * at, first);
    put_eight(listed, LISTING_LEN * at + EIGHT_LEN, second);
}

/// Those that are not 0.
fn push_some(text: &mut Vec<u8>, planes: &[Plane]) -> Result<(), NoMemory>
    requires long { 4096 ≤ length planes.now }
    ensures ok { OnOk result (text.new.items ≡ text.old.items ++ listings planes.now 4096) }
    ensures capacity { vec_capacity text.old ≤ vec_capacity text.new }
    ensures grows { OnOk result (length text.new.items ≤ length text.old.items + 16384) }
    ensures full { OnErr result (vec_capacity text.old < length text.old.items + 16384) }
{
    for at in 0..ADDRESSES {
        push_plane(text, at, planes[usize::from(at)])?;
    }
    Ok(())
}
