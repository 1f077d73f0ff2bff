//! A machine copied by its blocks.

ghost use Rattle.std.specs.Prelude.{◌≡◌, ◌-◌, ◌/◌, ◌<◌, ◌↔◌, IsErrOf, OnOk, OnErr};

use crate::block::{SplitFault, join, split};
use cm_array::{MachineOf, Sizes};
use std::alloc::Global;

/// Makes a machine the same as another, by 2^`k` blocks. Too many blocks are refused before memory is asked for.
pub fn copy_by_blocks<S: Sizes>(
    alloc: Global,
    from: &MachineOf<S>,
    k: u8,
    to: &mut MachineOf<S>,
) -> Result<(), SplitFault>
    ensures ok { OnOk result (to.new.machine ≡ from.now.machine) }
    ensures err { OnErr result (to.new ≡ to.old) }
    ensures split { IsErrOf result SplitFault.Split ↔ (S.n - S.n / 2 < k) }
{
    // For the prover alone: a call brings in what holds of every machine.
    let _clock = from.clock();
    let blocks = split(alloc, from, k, 0)?;
    join(blocks, to);
    Ok(())
}
