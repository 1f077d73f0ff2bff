//! In which order the numbers of all processors stand in a text or a picture.

ghost use Rattle.std.specs.Prelude.{◌≡◌, ◌*◌, ◌^◌, ◌<◌, ◌≤◌};
ghost use Rattle.cm_model.specs.Laws.{IsPlace};
ghost use Rattle.cm_model.specs.Place.{rows, columns, chip_columns, row_of, column_of, place_at};
ghost use Rattle.lab_data.specs.Data.{processors, place_in, index_in, width_in};
ghost use Rattle.lab_data.specs.Pictures.{chip_rows};

use cm_array::Sizes;
use cm_bits::{Place, Proc};

/// In which order the processors come.
#[derive(Clone, Copy, Debug, PartialEq, Eq)]
pub enum Order {
    /// Chip by chip, each from its processor 0 on.
    Chips,
    /// Row by row of the grid, north row first, each from the west on.
    Rows,
}

impl Order {
    /// The place of the processor that stands at an index.
    pub(crate) fn place_in<S: Sizes>(self, n: u8, index: usize) -> Place
        requires n { n ≡ S.n }
        requires dimension { S.n ≤ 12 }
        requires index { index < processors S.n }
        ensures value { result ≡ place_in S.n self index }
        ensures there { IsPlace S.n result }
    {
        match self {
            Order::Chips => Place {
                chip: (index / 16) as u16,
                proc: Proc::new((index % 16) as u8).unwrap(),
            },
            Order::Rows => {
                let columns = columns::<S>(n);
                place_at::<S>(n, index / columns, index % columns)
            }
        }
    }

    /// The index at which the processor of a place stands.
    pub(crate) fn index_in<S: Sizes>(self, n: u8, place: Place) -> usize
        requires n { n ≡ S.n }
        requires dimension { S.n ≤ 12 }
        requires chip { place.chip < 2 ^ S.n }
        ensures value { result ≡ index_in S.n self place }
        ensures within { result < processors S.n }
    {
        let chip = usize::from(place.chip);
        let proc = usize::from(place.proc.get());
        match self {
            Order::Chips => chip * 16 + proc,
            Order::Rows => {
                let chip_columns = chip_columns::<S>(n);
                let row = 4 * (chip / chip_columns) + proc / 4;
                let column = 4 * (chip % chip_columns) + proc % 4;
                row * (4 * chip_columns) + column
            }
        }
    }

    /// How many numbers stand in a line: those of a chip, or of a row of the grid.
    pub(crate) fn width<S: Sizes>(self, n: u8) -> usize
        requires n { n ≡ S.n }
        requires dimension { S.n ≤ 12 }
        ensures value { result ≡ width_in S.n self }
        ensures some { 0 < result }
    {
        match self {
            Order::Chips => 16,
            Order::Rows => columns::<S>(n),
        }
    }
}

/// How many processors a machine has.
pub(crate) fn processors<S: Sizes>(n: u8) -> usize
    requires n { n ≡ S.n }
    requires dimension { S.n ≤ 12 }
    ensures value { result ≡ processors S.n }
    ensures within { result ≤ 65536 }
{
    16 << n
}

/// How many columns its grid has.
pub(crate) fn columns<S: Sizes>(n: u8) -> usize
    requires n { n ≡ S.n }
    requires dimension { S.n ≤ 12 }
    ensures value { result ≡ columns S.n }
    ensures some { 0 < result }
    ensures within { result ≤ 256 }
{
    4 * chip_columns::<S>(n)
}

/// How many rows its grid has.
pub(crate) fn rows<S: Sizes>(n: u8) -> usize
    requires n { n ≡ S.n }
    requires dimension { S.n ≤ 12 }
    ensures value { result ≡ rows S.n }
    ensures within { result ≤ 256 }
{
    4 * chip_rows::<S>(n)
}

/// How many chips stand in a row of chips.
pub(crate) fn chip_columns<S: Sizes>(n: u8) -> usize
    requires n { n ≡ S.n }
    requires dimension { S.n ≤ 12 }
    ensures value { result ≡ chip_columns S.n }
    ensures some { 0 < result }
    ensures within { result ≤ 64 }
{
    1 << (n / 2)
}

/// How many rows of chips there are.
pub(crate) fn chip_rows<S: Sizes>(n: u8) -> usize
    requires n { n ≡ S.n }
    requires dimension { S.n ≤ 12 }
    ensures value { result ≡ chip_rows S.n }
    ensures within { result ≤ 64 }
{
    1 << (n - n / 2)
}

/// The place in a row and a column.
fn place_at<S: Sizes>(n: u8, row: usize, column: usize) -> Place
    requires n { n ≡ S.n }
    requires dimension { S.n ≤ 12 }
    requires row { row < rows S.n }
    requires column { column < columns S.n }
    ensures value { result ≡ place_at S.n row column }
    ensures there { IsPlace S.n result }
{
    let chip = row / 4 * chip_columns::<S>(n) + column / 4;
    let proc = 4 * (row % 4) + column % 4;
    Place {
        chip: chip as u16,
        proc: Proc::new(proc as u8).unwrap(),
    }
}
