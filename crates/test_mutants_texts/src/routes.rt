//! A call of lab_route_plot.

ghost use Rattle.std.specs.Prelude.{◌≡◌, ◌≢◌, Ok, Err, IfOk, IfErr};
ghost use Rattle.lab_route_plot.specs.Drawing.{route_or_table_picture};

use lab_plot::PlotFault;
use lab_route_plot::Cycles;
use std::alloc::Global;

/// What `lab_route_plot::plot` promises, word for word.
pub fn plot_route(alloc: Global, text: &[u8], cycles: Cycles) -> Result<Vec<u8>, PlotFault>
    ensures value { IfOk result (λ picture. route_or_table_picture cycles text.now ≡ Ok picture.items) }
    ensures refused { IfErr result (λ fault. fault ≢ PlotFault.Memory
        → route_or_table_picture cycles text.now ≡ Err fault) }
{
    lab_route_plot::plot(alloc, text, cycles)
}
