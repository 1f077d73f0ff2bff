//! A run that is filled chip by chip.

ghost use Rattle.std.specs.Prelude.{◌≡◌, ◌≢◌, ◌⊎◌, ℕ, ◌+◌, ◌*◌, ◌<◌, ◌≤◌, true, IfOk, length, slice_index, slice_set};
ghost use Rattle.cm_bits.specs.Bit.{bit};
ghost use Rattle.cm_model.specs.Processor.{ZERO};
ghost use Rattle.cm_model.specs.Array.{chip_at};
ghost use Rattle.cm_model.specs.Whole.{IsChip};
ghost use Rattle.cm_element.specs.Near.{AreNear, with_near};
ghost use Rattle.cm_element.specs.Runs.{chips_beside};
ghost use Rattle.cm_element.specs.Wide.{with_memory_plane, with_flag_plane};

use crate::run::Run;
use cm_bits::{Addr, FlagNo, NoMemory, Plane};
use std::alloc::Global;
use std::marker::Model;

/// So many chips are near: 512 KB, which a cache holds while they are filled.
const WIDTH: u16 = 64;

/// A run that is filled chip by chip. In a large run the planes of one chip lie far apart, so some chips are
/// kept in a small run of their own, and go back when another chip is filled.
///
/// Contracts see the list of the chips, as of a run.
#[derive(Drop)]
pub struct NearRun {
    far: Run,
    near: Run,
    first: u16,
    width: u16,
    chips: u16,
}

impl Model for NearRun {
    ghost use Rattle.std.specs.Prelude.{List};
    ghost use Rattle.cm_model.specs.Processor.{Processor};
    ghost use Rattle.cm_element.specs.Near.{AreNear, with_near};

    ghost Value = { List (List Processor) };

    ghost view = { λ run. with_near run.far run.near run.first };

    ghost invariant = { λ run. AreNear run.far run.near run.first run.width run.chips };
}

impl NearRun {
    /// The same chips, to be filled. Memory is taken three times.
    pub fn of(alloc: Global, far: Run, chips: u16) -> Result<NearRun, NoMemory>
        requires chips { length far ≡ chips }
        ensures value { IfOk result (λ run. run ≡ far) }
    {
        let width = chips.min(WIDTH);
        let mut near = Run::blank(alloc, width)?;
        near.lay(0, &far, 0, width);
        Ok(NearRun {
            far,
            near,
            first: 0,
            width,
            chips,
        })
    }

    /// The run that was filled.
    pub fn into_run(self) -> Run
        ensures value { result ≡ self }
    {
        let mut far = self.far;
        far.lay(self.first, &self.near, 0, self.width);
        far
    }

    /// Puts a plane at an address of a chip: bit p is that of processor p.
    #[inline(always)]
    pub fn poke_plane(&mut self, chip: u16, at: Addr, plane: Plane)
        requires chip { chip < length self.old }
        ensures value { self.new
            ≡ slice_set self.old chip (with_memory_plane (chip_at self.old chip) at (bit plane)) }
    {
        come_near(
            &mut self.far,
            &mut self.near,
            &mut self.first,
            self.width,
            self.chips,
            chip,
        );
        self.near.poke_plane(chip - self.first, at, plane);
    }

    /// Puts a plane into a flag of a chip, but not into flag 8.
    pub fn poke_flag_plane(&mut self, chip: u16, number: FlagNo, plane: Plane)
        requires chip { chip < length self.old }
        requires other { number ≢ ZERO }
        ensures value { self.new
            ≡ slice_set self.old chip (with_flag_plane (chip_at self.old chip) number (bit plane)) }
    {
        come_near(
            &mut self.far,
            &mut self.near,
            &mut self.first,
            self.width,
            self.chips,
            chip,
        );
        self.near.poke_flag_plane(chip - self.first, number, plane);
    }

    /// Puts the planes of so many chips into the places from `at` on. They lie chip by chip: those of memory `PITCH`
    /// words apart, sixteen of flags.
    pub fn lay_planes(&mut self, at: u16, memory: &[Plane], flags: &[Plane], count: u16)
        requires here { at + count ≤ length self.old }
        requires memory { count * 4128 ≤ length memory.now }
        requires flags { count * 16 ≤ length flags.now }
        requires zero { (c : ℕ) → c < count → slice_index flags.now (c * 16 + 8) ≡ 0 }
        ensures value { self.new ≡ with_near self.old (chips_beside memory.now flags.now count) at }
        ensures whole { (c : ℕ) → c < count → IsChip (chip_at (chips_beside memory.now flags.now count) c) }
    {
        if are_apart(at, count, self.first, self.width) {
            self.far.lay_planes(at, memory, flags, count);
        } else {
            self.far.lay(self.first, &self.near, 0, self.width);
            self.far.lay_planes(at, memory, flags, count);
            self.near.lay(0, &self.far, self.first, self.width);
        }
    }
}

/// Whether so many chips from a place on and so many from another have none in common.
fn are_apart(at: u16, count: u16, first: u16, width: u16) -> bool
    requires first { first + width < 65536 }
    ensures apart { result ≡ true → (at + count ≤ first) ⊎ (first + width ≤ at) }
{
    if usize::from(at) + usize::from(count) <= usize::from(first) {
        return true;
    }
    first + width <= at
}

/// Lays the near chips back and brings the chips around this one near, and notes the first of these. Does nothing where
/// this chip is near already: then it writes nothing, which would cost more than to find this out.
#[inline(always)]
fn come_near(far: &mut Run, near: &mut Run, place: &mut u16, width: u16, chips: u16, chip: u16)
    requires near { AreNear far.old near.old place.old width chips }
    requires chip { chip < chips }
    ensures near { AreNear far.new near.new place.new width chips }
    ensures value { with_near far.new near.new place.new ≡ with_near far.old near.old place.old }
    ensures below { place.new ≤ chip }
    ensures above { chip < place.new + width }
{
    let first = *place;
    if chip.wrapping_sub(first) < width {
        return;
    }
    far.lay(first, near, 0, width);
    let first = chip.min(chips - width);
    near.lay(0, far, first, width);
    *place = first;
}
