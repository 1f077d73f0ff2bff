//! Numbers as texts, with a point where they are not whole.

ghost use Rattle.std.specs.Prelude.{◌≡◌, ◌++◌, OnOk};
ghost use Rattle.lab_plot.specs.Pieces.{number_text, part_text};

use cm_bits::NoMemory;
use lab_digits::push_piece;

/// A number of so many thousandths.
pub(crate) fn push_thousandths(text: &mut Vec<u8>, thousandths: u128) -> Result<(), NoMemory>
    ensures ok { OnOk result (text.new.items ≡ text.old.items ++ number_text thousandths) }
{
    push_piece(text, b"", thousandths / 1000)?;
    push_part(text, thousandths)
}

/// The digits behind the point of so many thousandths, without zeros at the end.
fn push_part(text: &mut Vec<u8>, thousandths: u128) -> Result<(), NoMemory>
    ensures ok { OnOk result (text.new.items ≡ text.old.items ++ part_text thousandths) }
{
    if thousandths % 1000 == 0 {
        return Ok(());
    }
    push_piece(text, b".", thousandths / 100 % 10)?;
    if thousandths % 100 == 0 {
        return Ok(());
    }
    push_piece(text, b"", thousandths / 10 % 10)?;
    if thousandths % 10 == 0 {
        return Ok(());
    }
    push_piece(text, b"", thousandths % 10)
}
