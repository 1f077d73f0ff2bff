//! Chips whose memory planes are all listed: they are put into a machine many at a time.

ghost use Rattle.std.specs.Prelude.{◌≡◌, ℕ, ◌+◌, ◌*◌, ◌-◌, ◌^◌, ◌<◌, ◌≤◌, ◌++◌, [], ◌∷◌, true, false, IfOk, Ok, drop};
ghost use Rattle.std.specs.Prelude.{length, slice_index, vec_capacity};
ghost use Rattle.std.specs.Int.{w16};
ghost use Rattle.cm_model.specs.Each.{tabulate};
ghost use Rattle.cm_element.specs.Planes.{chip_of};
ghost use Rattle.cm_image_format.specs.Reading.{number_at, made, many};
ghost use Rattle.cm_image_format.specs.Image.{listed_part, memory_part};
ghost use Rattle.cm_image_format.specs.Whole.{planes_of};
ghost use Rattle.cm_image_load.specs.WaitingChips.{with_waiting, AreListedFrom};

use cm_array::{BuilderOf, Sizes};
use cm_bits::{ADDRESSES, FLAGS, NoMemory, Plane};
use cm_element::PITCH;
use cm_image_fields::{AT_ONCE, EIGHT_LEN, LISTING_LEN, eight_at, eight_from};
use std::alloc::Global;
use std::marker::Model;
use std::simd::prelude::*;

/// So many chips wait at most: their planes are 2 MB, which a cache holds.
const WIDTH: u16 = 256;

/// The bytes that list the planes of all addresses, behind their count.
pub(crate) const FULL_MEMORY_LEN: usize = 16386;

/// Chips whose memory planes are all listed, which wait for their places in a machine.
///
/// Contracts see the list of the chips.
#[derive(Drop)]
pub(crate) struct WaitingChips {
    memory: Vec<Plane>,
    flags: Vec<Plane>,
    count: u16,
}

impl Model for WaitingChips {
    ghost use Rattle.std.specs.Prelude.{vec_capacity};
    ghost use Rattle.cm_model.specs.Array.{Chips};
    ghost use Rattle.cm_element.specs.Runs.{chips_beside};
    ghost use Rattle.cm_image_load.specs.WaitingChips.{AreWaitingPlanes};

    ghost Value = { Chips };

    ghost view = { λ waiting. chips_beside waiting.memory.items waiting.flags.items waiting.count };

    ghost invariant = { λ waiting. AreWaitingPlanes waiting.memory.items (vec_capacity waiting.memory)
        waiting.flags.items (vec_capacity waiting.flags) waiting.count };
}

impl WaitingChips {
    /// No chip waits. Memory is taken twice, and is first written when a chip comes.
    pub(crate) fn new(alloc: Global) -> Result<WaitingChips, NoMemory>
        ensures value { IfOk result (λ waiting. waiting ≡ []) }
    {
        let memory = Vec::with_capacity(alloc, usize::from(WIDTH) * PITCH)?;
        let flags = Vec::with_capacity(alloc, usize::from(WIDTH) * usize::from(FLAGS))?;
        Ok(WaitingChips {
            memory,
            flags,
            count: 0,
        })
    }

    /// Puts the chips that wait into a machine, where they end before this one.
    pub(crate) fn put<S: Sizes>(&mut self, builder: &mut BuilderOf<S>, end: u16)
        requires waiting { length self.old ≤ end }
        requires end { end ≤ 2 ^ S.n }
        ensures value { builder.new ≡ with_waiting end builder.old self.old }
        ensures none { self.new ≡ [] }
    {
        if self.count == 0 {
            return;
        }
        builder.chips(end - self.count, &self.memory, &self.flags, self.count);
        self.count = 0;
    }

    /// Puts them in, if no more can wait.
    pub(crate) fn make_room<S: Sizes>(&mut self, builder: &mut BuilderOf<S>, end: u16)
        requires waiting { length self.old ≤ end }
        requires end { end ≤ 2 ^ S.n }
        ensures value { with_waiting end builder.new self.new ≡ with_waiting end builder.old self.old }
        ensures room { length self.new < 256 }
        ensures waiting { length self.new ≤ end }
    {
        if self.count == WIDTH {
            self.put(builder, end);
        }
    }

    /// Takes in a chip with these flag planes if the memory planes of all addresses are listed, and tells whether
    /// they are.
    pub(crate) fn push(&mut self, flags: &[Plane; 16], bytes: &[u8]) -> bool
        requires room { length self.old < 256 }
        requires zero { slice_index flags.now 8 ≡ 0 }
        ensures full { result ≡ true
            → made (λ listed. self.old ++ chip_of (planes_of listed) flags.now ∷ []) memory_part bytes.now
            ≡ Ok (self.new, drop 16386 bytes.now) }
        ensures long { result ≡ true → 16386 ≤ length bytes.now }
        ensures other { result ≡ false → self.new ≡ self.old }
    {
        let place = usize::from(self.count) * PITCH;
        lengthen(&mut self.memory, place + PITCH);
        if !take_full_memory(&mut self.memory, place, bytes) {
            return false;
        }
        let at = usize::from(self.count) * usize::from(FLAGS);
        lengthen(&mut self.flags, at + usize::from(FLAGS));
        put_planes(&mut self.flags, at, flags);
        self.count += 1;
        true
    }
}

/// Words of 0 behind those that there are, until there are so many.
fn lengthen(words: &mut Vec<Plane>, len: usize)
    requires room { len ≤ vec_capacity words.old }
    ensures long { len ≤ length words.new.items }
    ensures capacity { vec_capacity words.old ≤ vec_capacity words.new }
    ensures below { (i : ℕ) → i < length words.old.items
        → slice_index words.new.items i ≡ slice_index words.old.items i }
{
    if words.len() < len {
        words.resize(len, 0).unwrap();
    }
}

/// Takes the memory planes of a chip if all are listed, and tells whether they are.
fn take_full_memory(memory: &mut [Plane], place: usize, bytes: &[u8]) -> bool
    requires room { place + 4096 ≤ length memory.old }
    ensures full { result ≡ true → made planes_of memory_part bytes.now
        ≡ Ok (tabulate 0 4096 (λ a. slice_index memory.new (place + a)), drop 16386 bytes.now) }
    ensures long { result ≡ true → 16386 ≤ length bytes.now }
    ensures below { (i : ℕ) → i < place → slice_index memory.new i ≡ slice_index memory.old i }
{
    if bytes.len() < FULL_MEMORY_LEN || count_at(bytes) != ADDRESSES {
        return false;
    }
    take_planes(memory, place, &bytes[2..])
}

/// Whether the first chip of bytes seems to list the memory planes of all addresses: whether its flag planes and this
/// count stand there.
pub(crate) fn lists_all(bytes: &[u8]) -> bool {
    let flags_len = 2 * usize::from(FLAGS);
    bytes.len() >= flags_len + 2 && count_at(&bytes[flags_len..]) == ADDRESSES
}

/// Whether the first chip of bytes seems to list some memory plane.
pub(crate) fn lists_some(bytes: &[u8]) -> bool {
    let flags_len = 2 * usize::from(FLAGS);
    bytes.len() >= flags_len + 2 && count_at(&bytes[flags_len..]) > 0
}

/// The count at the front of bytes.
#[tactic(auto, unfolding(cm_image_format::specs::Reading::number_at))]
fn count_at(bytes: &[u8]) -> u16
    requires within { 2 ≤ length bytes.now }
    ensures value { number_at w16 bytes.now ≡ Ok (result, drop 2 bytes.now) }
{
    u16::from_be_bytes([bytes[0], bytes[1]])
}

/// Takes as many listed planes as there are addresses, and tells whether there is one at each address.
fn take_planes(memory: &mut [Plane], place: usize, bytes: &[u8]) -> bool
    requires room { place + 4096 ≤ length memory.old }
    requires long { 16384 ≤ length bytes.now }
    ensures full { result ≡ true → AreListedFrom bytes.now 4096 (λ a. slice_index memory.new (place + a)) }
    ensures below { (i : ℕ) → i < place → slice_index memory.new i ≡ slice_index memory.old i }
{
    let none = u16x8::splat(0);
    // By lane, whether an address is not the one that is due, and the least plane.
    let mut off = none;
    let mut least = u16x8::splat(Plane::MAX);
    // Nothing is left early, so that eight are taken with no branch.
    for k in 0..usize::from(ADDRESSES) / AT_ONCE {
        let at = k * AT_ONCE;
        let (addresses, listed) = listings_at(bytes, LISTING_LEN * at);
        put_words(memory, place + at, listed);
        off |= addresses - eight_from(at);
        least = least.simd_min(listed);
    }
    off.simd_ne(none).to_bitmask() == 0 && least.simd_eq(none).to_bitmask() == 0
}

/// The addresses of eight planes that are listed from a place of bytes on, and the planes.
#[inline(always)]
fn listings_at(bytes: &[u8], i: usize) -> (u16x8, u16x8)
    requires within { i + 32 ≤ length bytes.now }
    ensures address { (j : ℕ) → j < 8 → number_at w16 (drop (i + 4 * j) bytes.now)
        ≡ Ok (slice_index result.0 j, drop (i + 4 * j + 2) bytes.now) }
    ensures plane { (j : ℕ) → j < 8 → number_at w16 (drop (i + 4 * j + 2) bytes.now)
        ≡ Ok (slice_index result.1 j, drop (i + 4 * (j + 1)) bytes.now) }
    ensures words { (j : ℕ) → j < 8 → slice_index result.0 j < 65536 }
    ensures eight { (length result.0 ≡ 8) × (length result.1 ≡ 8) }
{
    eight_at(bytes, i).deinterleave(eight_at(bytes, i + EIGHT_LEN))
}

/// Puts eight words into a list from a place on.
#[inline(always)]
fn put_words(list: &mut [Plane], at: usize, words: u16x8)
    requires within { at + 8 ≤ length list.old }
    ensures value { (j : ℕ) → j < 8 → slice_index list.new (at + j) ≡ slice_index words j }
    ensures below { (i : ℕ) → i < at → slice_index list.new i ≡ slice_index list.old i }
{
    words.copy_to_slice(&mut list[at..at + AT_ONCE]);
}

/// Puts the flag planes of a chip into a list from a place on.
fn put_planes(planes: &mut [Plane], place: usize, flags: &[Plane; 16])
    requires room { place + 16 ≤ length planes.old }
    ensures value { (f : ℕ) → f < 16 → slice_index planes.new (place + f) ≡ slice_index flags.now f }
    ensures below { (i : ℕ) → i < place → slice_index planes.new i ≡ slice_index planes.old i }
{
    for f in 0..usize::from(FLAGS) {
        planes[place + f] = flags[f];
    }
}
