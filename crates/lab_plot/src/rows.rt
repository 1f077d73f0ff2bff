//! The rows of a table, and what is wrong with a line that is none.

ghost use Rattle.std.specs.Prelude.{◌≡◌};
ghost use Rattle.lab_plot.specs.Rows.{cell_fault, fault_from, has_names, row_fault};

use crate::cells::{cell, is_cell, is_written, width};
use crate::fault::PlotFault;

/// Whether a line has the names of another in its columns, whatever blanks stand around them.
pub(crate) fn has_names(line: &[u8], other: &[u8]) -> bool
    ensures value { result ≡ has_names line.now other.now }
{
    let columns = width(other);
    width(line) == columns && (0..columns).all(|column| cell(line, column) == cell(other, column))
}

/// The first fault of a line of this number, where a table has so many columns.
pub(crate) fn row_fault(columns: usize, number: u64, line: &[u8]) -> Option<PlotFault>
    ensures value { result ≡ row_fault columns number line.now }
{
    let width = width(line);
    if width == columns {
        first_fault(columns, number, line)
    } else {
        Some(PlotFault::Width(number, width, columns))
    }
}

/// The first fault of so many cells.
fn first_fault(columns: usize, number: u64, line: &[u8]) -> Option<PlotFault>
    ensures value { result ≡ fault_from number line.now 0 columns }
{
    for column in 0..columns {
        let bytes = cell(line, column);
        if !is_cell(bytes) {
            return Some(cell_fault(number, column + 1, bytes));
        }
    }
    None
}

/// What is wrong with a cell that has neither nothing nor a number.
fn cell_fault(number: u64, column: usize, bytes: &[u8]) -> PlotFault
    ensures value { result ≡ cell_fault number column bytes.now }
{
    if is_written(bytes) {
        PlotFault::Large(number, column)
    } else {
        PlotFault::Cell(number, column)
    }
}
