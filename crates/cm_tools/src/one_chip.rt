//! A machine of one chip, whose grid is a torus of four by four processors.

ghost use Rattle.std.specs.Prelude.{◌≡◌, length, IfOk};
ghost use Rattle.cm_model.specs.Array.{chip_at};
ghost use Rattle.cm_tools.specs.Session.{chip_left};

use cm_array::step;
use cm_bits::{NoMemory, Plane};
use cm_element::Run;
use cm_model::Nano;
use std::alloc::Global;

/// The chip of a blank machine of one after a list of instructions.
pub fn run_chip(alloc: Global, nanos: &[Nano]) -> Result<Run, NoMemory>
    ensures value { IfOk result (λ run. chip_at run 0 ≡ chip_left nanos.now) }
    ensures count { IfOk result (λ run. length run ≡ 1) }
{
    let mut run = Run::blank(alloc, 1)?;
    let mut sent: [Plane; 1] = [0];
    let mut incoming: [Plane; 1] = [0];
    for nano in nanos {
        step(0, &mut run, nano, &mut sent, &mut incoming);
    }
    Ok(run)
}
