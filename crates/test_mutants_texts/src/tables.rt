//! A call of lab_plot.

ghost use Rattle.std.specs.Prelude.{◌≡◌, ◌≢◌, Ok, Err, IfOk, IfErr};
ghost use Rattle.lab_plot.specs.Pictures.{table_picture};

use lab_plot::PlotFault;
use std::alloc::Global;

/// What `lab_plot::plot` promises, word for word.
pub fn plot(alloc: Global, text: &[u8]) -> Result<Vec<u8>, PlotFault>
    ensures value { IfOk result (λ picture. table_picture text.now ≡ Ok picture.items) }
    ensures refused { IfErr result (λ fault. fault ≢ PlotFault.Memory → table_picture text.now ≡ Err fault) }
{
    lab_plot::plot(alloc, text)
}
