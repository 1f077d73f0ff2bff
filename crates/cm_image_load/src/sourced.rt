//! Reading a machine of a source, whose bytes need not all be held.

ghost use Rattle.std.specs.Prelude.{◌≡◌, ◌≢◌, ◌↔◌, ◌≤◌, ◌^◌, ◌++◌, ℕ, List, [], true, false, Ok, Err, IfOk, IfErr};
ghost use Rattle.std.specs.Prelude.{IsErrOf, OnOk, length};
ghost use Rattle.cm_image_format.specs.Whole.{read_image};
ghost use Rattle.cm_image_fields.specs.Cuts.{header_of};
ghost use Rattle.cm_image_load.specs.Chips.{IsReadTo, IsBlankFrom};
ghost use Rattle.cm_image_load.specs.Pieces.{GivesRest, IsStopped, ShapesGoOn};
ghost use Rattle.cm_image_load.specs.WaitingChips.{with_waiting};

use crate::chips::take_sound_chips;
use crate::loads::{Loading, load_of};
use crate::pieces::{NARROW, SourceFault, WIDE, Window, take_rest};
use crate::waiting_chips::{lists_all, lists_some};
use cm_array::{MachineOf, Sizes};
use cm_bits::Source;
use cm_image_format::ImageFault;
use std::alloc::Global;

/// The machine of 2^`n` chips, whose routers have room for `cap` messages each, whose image these bytes are and all
/// that a source has behind them, at most so many. If the first chip lists a memory plane, bytes are held no longer
/// than it takes to put them into the machine.
pub fn load_source<S: Sizes, I: Source>(
    alloc: Global,
    n: usize,
    cap: usize,
    front: &[u8],
    source: &mut I,
    most: u64,
) -> Result<MachineOf<S>, SourceFault>
    requires n { n ≡ S.n }
    requires cap { cap ≡ S.cap }
    requires few { length front.now ≤ 65536 }
    requires working { I.has_failed source.old ≡ false }
    ensures value { IfOk result (λ kept. GivesRest most (I.left source.old) (I.left source.new)
        (λ more. read_image S.n S.cap (front.now ++ more) ≡ Ok kept.machine)) }
    ensures refused { IfErr result (IsStopped most (I.left source.old) (I.left source.new)
        (λ fault more. read_image S.n S.cap (front.now ++ more) ≡ Err fault)) }
    ensures read { (I.has_failed source.new ≡ true) ↔ IsErrOf result SourceFault.Read }
{
    match Loading::begin(alloc, n, cap, front) {
        Ok((loading, chips)) => loading.load_chips(alloc, chips, source, most),
        Err(ImageFault::Memory) => Err(SourceFault::Image(ImageFault::Memory)),
        Err(_) => load_held(alloc, n, cap, front, source, most),
    }
}

/// The same, by all bytes together.
fn load_held<S: Sizes, I: Source>(
    alloc: Global,
    n: usize,
    cap: usize,
    front: &[u8],
    source: &mut I,
    most: u64,
) -> Result<MachineOf<S>, SourceFault>
    requires working { I.has_failed source.old ≡ false }
    requires n { n ≡ S.n }
    requires cap { cap ≡ S.cap }
    ensures value { IfOk result (λ kept. GivesRest most (I.left source.old) (I.left source.new)
        (λ more. read_image S.n S.cap (front.now ++ more) ≡ Ok kept.machine)) }
    ensures refused { IfErr result (IsStopped most (I.left source.old) (I.left source.new)
        (λ fault more. read_image S.n S.cap (front.now ++ more) ≡ Err fault)) }
    ensures read { (I.has_failed source.new ≡ true) ↔ IsErrOf result SourceFault.Read }
{
    let bytes = take_rest(alloc, front, source, most)?;
    match load_of(alloc, n, cap, &bytes) {
        Ok(machine) => Ok(machine),
        Err(fault) => Err(SourceFault::Image(fault)),
    }
}

impl<S: Sizes> Loading<S> {
    /// The machine of an image of which no chip was put in yet.
    fn load_chips<I: Source>(
        mut self,
        alloc: Global,
        chips: &[u8],
        source: &mut I,
        most: u64,
    ) -> Result<MachineOf<S>, SourceFault>
        requires few { length chips.now ≤ 65536 }
        requires dimension { S.n ≤ 12 }
        requires none { self.waiting ≡ [] }
        requires blank { IsBlankFrom S.n 0 self.builder }
        requires clock { self.builder.clock ≡ self.header.clock }
        requires working { I.has_failed source.old ≡ false }
        ensures value { IfOk result (λ kept. GivesRest most (I.left source.old) (I.left source.new)
            (λ more. (whole : List ℕ)
            → IsReadTo S.n S.cap (header_of S.n S.cap self.header) 0 self.builder (chips.now ++ more) whole
            → read_image S.n S.cap whole ≡ Ok kept.machine)) }
        ensures refused { IfErr result (IsStopped most (I.left source.old) (I.left source.new)
            (λ fault more. (whole : List ℕ)
            → IsReadTo S.n S.cap (header_of S.n S.cap self.header) 0 self.builder (chips.now ++ more) whole
            → read_image S.n S.cap whole ≡ Err fault)) }
        ensures read { (I.has_failed source.new ≡ true) ↔ IsErrOf result SourceFault.Read }
    {
        let (next, bytes) = self.take_pieces(alloc, chips, source, most)?;
        match self.finish(next, &bytes) {
            Ok(machine) => Ok(machine),
            Err(fault) => Err(SourceFault::Image(fault)),
        }
    }

    /// Takes in chips as their bytes come, as long as these have no fault. Which chip is next, and its bytes with all
    /// behind them.
    fn take_pieces<I: Source>(
        &mut self,
        alloc: Global,
        chips: &[u8],
        source: &mut I,
        most: u64,
    ) -> Result<(u16, Vec<u8>), SourceFault>
        requires few { length chips.now ≤ 65536 }
        requires dimension { S.n ≤ 12 }
        requires none { self.old.waiting ≡ [] }
        requires blank { IsBlankFrom S.n 0 self.old.builder }
        requires clock { self.old.builder.clock ≡ self.old.header.clock }
        requires working { I.has_failed source.old ≡ false }
        ensures value { IfOk result (λ x. GivesRest most (I.left source.old) (I.left source.new)
            (λ more. (whole : List ℕ)
            → IsReadTo S.n S.cap (header_of S.n S.cap self.old.header) 0 self.old.builder (chips.now ++ more) whole
            → IsReadTo S.n S.cap (header_of S.n S.cap self.old.header) x.0
            (with_waiting x.0 self.new.builder self.new.waiting) x.1.items whole)) }
        ensures blank { IfOk result (λ x. IsBlankFrom S.n x.0 (with_waiting x.0 self.new.builder self.new.waiting)) }
        ensures waiting { IfOk result (λ x. length self.new.waiting ≤ x.0) }
        ensures within { IfOk result (λ x. x.0 ≤ 2 ^ S.n) }
        ensures clock { OnOk result (self.new.builder.clock ≡ self.old.header.clock) }
        ensures header { self.new.header ≡ self.old.header }
        ensures refused { IfErr result (IsStopped most (I.left source.old) (I.left source.new) (λ fault more. ⊥)) }
        ensures read { (I.has_failed source.new ≡ true) ↔ IsErrOf result SourceFault.Read }
    {
        if !lists_some(chips) {
            let all = take_rest(alloc, chips, source, most)?;
            return Ok((0, all));
        }
        let clock = self.header.clock;
        let width = if lists_all(chips) { WIDE } else { NARROW };
        let mut window = Window::of(alloc, chips, width)?;
        let (next, left) = take_sound_chips(
            &mut self.builder,
            &mut self.waiting,
            clock,
            &mut window,
            source,
            most,
        )?;
        let bytes = take_rest(alloc, window.rest(), source, left)?;
        Ok((next, bytes))
    }
}

/// Dimension and room stand in the first bytes of an image: whatever comes behind them.
pub fn shapes_go_on()
    ensures { ShapesGoOn }
{}
