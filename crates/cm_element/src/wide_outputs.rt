//! What the processors of all chips of a run compute of one instruction.

ghost use Rattle.std.specs.Prelude.{◌≡◌, length, replicate, IfOk};
ghost use Rattle.cm_element.specs.WideOutputs.{HaveRoomFor};

use cm_bits::{NoMemory, Plane};
use std::alloc::Global;

/// The two outputs of an instruction in each processor of each chip of a run, and where its condition
/// holds: a plane for each chip in each list.
#[derive(Drop)]
pub struct WideOutputs {
    pub mem: Vec<Plane>,
    pub flag: Vec<Plane>,
    pub holds: Vec<Plane>,
}

impl WideOutputs {
    /// Room for so many chips, all planes 0.
    pub fn blank(alloc: Global, chips: u16) -> Result<WideOutputs, NoMemory>
        ensures room { IfOk result (λ outputs. HaveRoomFor chips outputs) }
        ensures mem { IfOk result (λ outputs. outputs.mem.items ≡ replicate chips 0) }
        ensures flag { IfOk result (λ outputs. outputs.flag.items ≡ replicate chips 0) }
        ensures holds { IfOk result (λ outputs. outputs.holds.items ≡ replicate chips 0) }
    {
        Ok(WideOutputs {
            mem: blank_row(alloc, chips)?,
            flag: blank_row(alloc, chips)?,
            holds: blank_row(alloc, chips)?,
        })
    }
}

fn blank_row(alloc: Global, chips: u16) -> Result<Vec<Plane>, NoMemory>
    ensures count { IfOk result (λ row. length row.items ≡ chips) }
    ensures value { IfOk result (λ row. row.items ≡ replicate chips 0) }
{
    let Ok(row) = vec![in alloc; 0; usize::from(chips)] else {
        return Err(NoMemory);
    };
    Ok(row)
}
