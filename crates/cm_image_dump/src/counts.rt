//! Which memory planes an image lists: at which addresses, and how many of each chip.

ghost use Rattle.std.specs.Prelude.{◌≡◌, ℕ, ◌+◌, ◌^◌, ◌<◌, ◌≤◌, ◌==◌, IfOk, OnOk, length, slice_index};
ghost use Rattle.std.specs.Prelude.{if◌then◌else◌};
ghost use Rattle.cm_model.specs.Array.{chip_at};
ghost use Rattle.cm_image_format.specs.Whole.{memory_plane_of};
ghost use Rattle.cm_image_dump.specs.Planes.{AreCounted, AreInUse};

use cm_array::{MachineOf, Sizes};
use cm_bits::{ADDRESSES, Addr, NoMemory, Plane};
use std::alloc::Global;

/// The addresses at which memory has rows, rising: at the others no plane is listed.
pub(crate) fn addresses_in_use<S: Sizes>(
    alloc: Global,
    machine: &MachineOf<S>,
) -> Result<Vec<u16>, NoMemory>
    ensures value { IfOk result (λ used. AreInUse (2 ^ S.n) machine.now.machine.chips 4096 used.items) }
{
    let mut used = Vec::new(alloc);
    for at in 0..ADDRESSES {
        push_in_use(&mut used, machine, at)?;
    }
    Ok(used)
}

/// One more address, if memory has a row there.
fn push_in_use<S: Sizes>(
    used: &mut Vec<u16>,
    machine: &MachineOf<S>,
    at: u16,
) -> Result<(), NoMemory>
    requires at { at < 4096 }
    requires in_use { AreInUse (2 ^ S.n) machine.now.machine.chips at used.old.items }
    ensures ok { OnOk result (AreInUse (2 ^ S.n) machine.now.machine.chips (at + 1) used.new.items) }
{
    if !machine.is_in_use(Addr::new(at).unwrap()) {
        return Ok(());
    }
    let Ok(()) = used.push(at) else {
        return Err(NoMemory);
    };
    Ok(())
}

/// By chip, how many memory planes are not 0: they are counted address by address, since the planes of an
/// address lie side by side.
pub(crate) fn listed_planes<S: Sizes>(
    alloc: Global,
    machine: &MachineOf<S>,
) -> Result<Vec<u16>, NoMemory>
    requires dimension { S.n ≤ 12 }
    ensures value { IfOk result (λ counts. AreCounted (2 ^ S.n) machine.now.machine.chips 4096 counts.items) }
{
    let chips = usize::from(machine.chip_count());
    let Ok(mut counts) = vec![in alloc; 0; chips] else {
        return Err(NoMemory);
    };
    for at in 0..ADDRESSES {
        count_planes(&mut counts, machine, at);
    }
    Ok(counts)
}

/// One more for each chip whose plane at an address is not 0.
fn count_planes<S: Sizes>(counts: &mut [u16], machine: &MachineOf<S>, at: u16)
    requires at { at < 4096 }
    requires count { length counts.old ≡ 2 ^ S.n }
    requires few { (c : ℕ) → c < length counts.old → slice_index counts.old c < 4096 }
    ensures value { (c : ℕ) → c < 2 ^ S.n → slice_index counts.new c ≡ slice_index counts.old c
        + (if memory_plane_of (chip_at machine.now.machine.chips c) at == 0 then 0 else 1) }
{
    let address = Addr::new(at).unwrap();
    if !machine.is_in_use(address) {
        return;
    }
    count_row(counts, machine.plane_row(address));
}

/// One more for each chip whose plane is not 0.
fn count_row(counts: &mut [u16], row: &[Plane])
    requires row { length row.now ≡ length counts.old }
    requires few { (c : ℕ) → c < length counts.old → slice_index counts.old c < 4096 }
    ensures value { (c : ℕ) → c < length counts.old
        → slice_index counts.new c ≡ slice_index counts.old c + (if slice_index row.now c == 0 then 0 else 1) }
    ensures words { (c : ℕ) → slice_index row.now c < 2 ^ 16 }
{
    for c in 0..counts.len() {
        counts[c] += count_listings(row[c]);
    }
}

/// Whether a plane is listed, as a number.
fn count_listings(plane: Plane) -> u16
    ensures value { result ≡ (if plane == 0 then 0 else 1) }
    ensures within { result ≤ 1 }
{
    if plane == 0 { 0 } else { 1 }
}
