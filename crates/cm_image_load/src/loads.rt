//! Reading the bytes of a machine.

ghost use Rattle.std.specs.Prelude.{◌≡◌, ◌≢◌, ◌≤◌, ◌^◌, ℕ, List, [], None, Some, Ok, Err, IfOk, IfErr, IfSome, IsOk};
ghost use Rattle.std.specs.Prelude.{IsErrOf, IsOkUnless, length};
ghost use Rattle.cm_image_format.specs.Reading.{fault_in};
ghost use Rattle.cm_image_format.specs.Whole.{read_image, image_fault, header_fault};
ghost use Rattle.cm_image_fields.specs.Cuts.{header_of};
ghost use Rattle.cm_image_load.specs.Chips.{IsBlankFrom, IsBegun, IsReadTo, ended_with};
ghost use Rattle.cm_image_load.specs.WaitingChips.{with_waiting};

use crate::chips::take_chips;
use crate::waiting_chips::WaitingChips;
use cm_array::{BuildFault, BuilderOf, Machine, MachineOf, Sizes};
use cm_image_fields::{Header, take_header, take_routing};
use cm_image_format::ImageFault;
use std::alloc::Global;

/// The machine whose image these bytes are, with no event, or the first fault of the bytes in reading order. A
/// growth of memory may be refused before a fault of the cut wires or the chips is reached.
pub fn load<const N: usize, const CAP: usize>(
    alloc: Global,
    bytes: &[u8],
) -> Result<Machine<N, CAP>, ImageFault>
    ensures value { IfOk result (λ kept. read_image N CAP bytes.now ≡ Ok kept.machine) }
    ensures header { IfSome (header_fault N CAP bytes.now) (λ fault. IsErrOf result fault) }
    ensures refused { IfErr result (λ fault. fault ≢ ImageFault.Memory → image_fault N CAP bytes.now ≡ Some fault) }
    ensures otherwise { image_fault N CAP bytes.now ≡ None → IsOkUnless result ImageFault.Memory }
{
    load_of(alloc, N, CAP, bytes)
}

/// The same, of a machine of 2^`n` chips whose routers have room for `cap` messages each.
pub fn load_of<S: Sizes>(
    alloc: Global,
    n: usize,
    cap: usize,
    bytes: &[u8],
) -> Result<MachineOf<S>, ImageFault>
    requires n { n ≡ S.n }
    requires cap { cap ≡ S.cap }
    ensures value { IfOk result (λ kept. read_image S.n S.cap bytes.now ≡ Ok kept.machine) }
    ensures header { IfSome (header_fault S.n S.cap bytes.now) (λ fault. IsErrOf result fault) }
    ensures refused { IfErr result (λ fault. fault ≢ ImageFault.Memory → image_fault S.n S.cap bytes.now ≡ Some fault) }
    ensures otherwise { image_fault S.n S.cap bytes.now ≡ None → IsOkUnless result ImageFault.Memory }
{
    match Loading::begin(alloc, n, cap, bytes) {
        Ok((loading, chips)) => loading.finish(0, chips),
        Err(fault) => Err(fault),
    }
}

/// A machine that is read of an image: what was put into it, the chips that wait, and how the image began.
#[derive(Drop)]
pub(crate) struct Loading<S: Sizes> {
    pub(crate) builder: BuilderOf<S>,
    pub(crate) waiting: WaitingChips,
    pub(crate) header: Header,
}

impl<S: Sizes> Loading<S> {
    /// Begins with the header and the cut wires at the front of bytes, and gives the bytes after them.
    pub(crate) fn begin(
        alloc: Global,
        n: usize,
        cap: usize,
        bytes: &[u8],
    ) -> Result<(Loading<S>, &[u8]), ImageFault>
        requires n { n ≡ S.n }
        requires cap { cap ≡ S.cap }
        ensures begun { IfOk result (λ x. IsBegun S.n S.cap (header_of S.n S.cap x.0.header) bytes.now x.1.now
            x.0.builder) }
        ensures none { IfOk result (λ x. x.0.waiting ≡ []) }
        ensures dimension { IsOk result → S.n ≤ 12 }
        ensures header { IfSome (header_fault S.n S.cap bytes.now) (λ fault. IsErrOf result fault) }
        ensures refused { IfErr result (λ fault. fault ≢ ImageFault.Memory
            → image_fault S.n S.cap bytes.now ≡ Some fault) }
        ensures otherwise { image_fault S.n S.cap bytes.now ≡ None → IsOkUnless result ImageFault.Memory }
    {
        let (header, behind) = take_header::<S>(n, cap, bytes)?;
        let Ok(waiting) = WaitingChips::new(alloc) else {
            return Err(ImageFault::Memory);
        };
        // The header has this machine's sizes, so that only memory can be wanting.
        let Ok(mut builder) = BuilderOf::start_of(alloc, n, cap, header.clock) else {
            return Err(ImageFault::Memory);
        };
        match take_routing(&mut builder, header, behind) {
            Ok(chips) => {
                let loading = Loading {
                    builder,
                    waiting,
                    header,
                };
                Ok((loading, chips))
            }
            Err(fault) => Err(fault),
        }
    }

    /// The machine of an image whose chips are put in, or wait, up to this one, and are in these bytes from it on.
    pub(crate) fn finish(mut self, first: u16, bytes: &[u8]) -> Result<MachineOf<S>, ImageFault>
        requires dimension { S.n ≤ 12 }
        requires first { first ≤ 2 ^ S.n }
        requires waiting { length self.waiting ≤ first }
        requires blank { IsBlankFrom S.n first (with_waiting first self.builder self.waiting) }
        requires clock { self.builder.clock ≡ self.header.clock }
        ensures value { IfOk result (λ kept. (whole : List ℕ) → IsReadTo S.n S.cap
            (header_of S.n S.cap self.header) first (with_waiting first self.builder self.waiting) bytes.now whole
            → read_image S.n S.cap whole ≡ Ok kept.machine) }
        ensures refused { IfErr result (λ fault. fault ≢ ImageFault.Memory → (whole : List ℕ) → IsReadTo S.n S.cap
            (header_of S.n S.cap self.header) first (with_waiting first self.builder self.waiting) bytes.now whole
            → read_image S.n S.cap whole ≡ Err fault) }
        ensures otherwise { (whole : List ℕ) → IsReadTo S.n S.cap (header_of S.n S.cap self.header) first
            (with_waiting first self.builder self.waiting) bytes.now whole → image_fault S.n S.cap whole ≡ None
            → IsOkUnless result ImageFault.Memory }
    {
        let clock = self.header.clock;
        match take_chips(&mut self.builder, &mut self.waiting, first, clock, bytes) {
            Ok(rest) => finished(self.builder, rest),
            Err(fault) => Err(fault),
        }
    }
}

/// The machine that was built of all chips of an image, behind which these bytes are left: no two of its messages may
/// have one tag, and no byte may be left.
fn finished<S: Sizes>(builder: BuilderOf<S>, rest: &[u8]) -> Result<MachineOf<S>, ImageFault>
    ensures value { IfOk result (λ kept. ended_with builder rest.now ≡ Ok kept.machine) }
    ensures refused { IfErr result (λ fault. fault ≢ ImageFault.Memory → ended_with builder rest.now ≡ Err fault) }
    ensures otherwise { fault_in (ended_with builder rest.now) ≡ None → IsOkUnless result ImageFault.Memory }
{
    match builder.done() {
        Ok(machine) => {
            if rest.is_empty() {
                Ok(machine)
            } else {
                Err(ImageFault::Extra)
            }
        }
        Err(BuildFault::TagTwice) => Err(ImageFault::TagTwice),
        Err(BuildFault::Memory) => Err(ImageFault::Memory),
    }
}
