//! Why a text has no picture.

use cm_bits::NoMemory;
use thiserror::Error;

/// Why a text has no picture. Lines, blank ones too, and columns are counted from 1.
#[derive(Clone, Copy, Debug, PartialEq, Eq, Error)]
pub enum PlotFault {
    #[error("nothing to plot: all lines are blank")]
    Empty,
    /// The first line that is not blank.
    #[error("line {0}: no table of cm1lab study or load, no route of cm1lab route, nor a line that begins with rate")]
    Unknown(u64),
    /// A first line of rates or latencies, and how many columns it has.
    #[error("line {0}: {1} names, where the first and at most nine more are drawn")]
    Wide(u64, usize),
    /// A line that has so many cells, and how many columns the table has.
    #[error("line {0}: as many cells as in the first line are wanted, {2}, not {1}")]
    Width(u64, usize, usize),
    /// A line and a column.
    #[error("line {0}, column {1}: no number, as 12 or 0.5")]
    Cell(u64, usize),
    /// A line and a column too.
    #[error("line {0}, column {1}: a number that is not below 9223372036854775.808")]
    Large(u64, usize),
    /// A line that is none of a route.
    #[error("line {0}: no line of a route, which begins with cycle and a number below 2^50, or with stands at")]
    Route(u64),
    #[error("nothing to plot: no line behind the first has two numbers")]
    NoPoint,
    #[error("nothing to plot: no message was delivered")]
    NoDelivery,
    #[error("nothing to plot: the route has no petit cycle")]
    NoCycle,
    /// Petit cycles of a table that is no route.
    #[error("no route, of which alone --from and --to draw a part")]
    NoRoute,
    #[error("out of memory")]
    Memory,
}

impl From<NoMemory> for PlotFault {
    ghost use Rattle.std.specs.Prelude.{◌≡◌};
    ghost use Rattle.lab_plot.specs.declared.fault.PlotFault.TheVariants.{Memory};

    ghost from_gives = { λ _ fault. fault ≡ Memory };

    fn from(_: NoMemory) -> PlotFault {
        PlotFault::Memory
    }
}
