//! The NEWS grid, place by place: a plain program of neighbours.

ghost use Rattle.std.specs.Prelude.{◌≡◌, ℕ, ◌+◌, ◌*◌, ◌-◌, ◌/◌, ◌%◌, ◌^◌, ◌<◌, ◌≤◌};
ghost use Rattle.cm_model.specs.Place.{rows, columns, chip_columns, row_of, column_of, place_at, neighbour, opposite};

use cm_bits::{Dir, Place, Proc};

/// The grid of a cube of `N` dimensions, a torus of `4 * 2^(N - N/2)` rows and `4 * 2^(N/2)` columns
/// (Hillis 1985; the numbering is ours).
pub struct PlainGrid<const N: usize>;

impl<const N: usize> PlainGrid<N> {
    /// The place one step on in a direction, round the torus.
    pub fn neighbour(place: Place, dir: Dir) -> Place
        requires dimension { N ≤ 12 }
        requires chip { place.chip < 2 ^ N }
        ensures value { result ≡ neighbour N dir place }
        ensures within { result.chip < 2 ^ N }
    {
        let row = Self::row_of(&place);
        let column = Self::column_of(&place);
        let rows = Self::rows();
        let columns = Self::columns();
        match dir {
            Dir::North => Self::place_at((row + rows - 1) % rows, column),
            Dir::South => Self::place_at((row + 1) % rows, column),
            Dir::West => Self::place_at(row, (column + columns - 1) % columns),
            Dir::East => Self::place_at(row, (column + 1) % columns),
        }
    }

    fn rows() -> u16
        requires dimension { N ≤ 12 }
        ensures value { result ≡ rows N }
    {
        4 << (N - N / 2)
    }

    fn columns() -> u16
        requires dimension { N ≤ 12 }
        ensures value { result ≡ columns N }
    {
        4 * Self::chip_columns()
    }

    fn chip_columns() -> u16
        requires dimension { N ≤ 12 }
        ensures value { result ≡ chip_columns N }
        ensures within { result ≤ 64 }
    {
        1 << (N / 2)
    }

    fn row_of(place: &Place) -> u16
        requires dimension { N ≤ 12 }
        requires chip { place.now.chip < 2 ^ N }
        ensures value { result ≡ row_of N place.now }
        ensures within { result < rows N }
    {
        4 * (place.chip / Self::chip_columns()) + u16::from(place.proc.get() / 4)
    }

    fn column_of(place: &Place) -> u16
        requires dimension { N ≤ 12 }
        requires chip { place.now.chip < 2 ^ N }
        ensures value { result ≡ column_of N place.now }
        ensures within { result < columns N }
    {
        4 * (place.chip % Self::chip_columns()) + u16::from(place.proc.get() % 4)
    }

    fn place_at(row: u16, column: u16) -> Place
        requires dimension { N ≤ 12 }
        requires row { row < rows N }
        requires column { column < columns N }
        ensures value { result ≡ place_at N row column }
        ensures within { result.chip < 2 ^ N }
    {
        let proc = 4 * (row % 4) + column % 4;
        Place {
            chip: row / 4 * Self::chip_columns() + column / 4,
            proc: Proc::new(proc as u8).unwrap(),
        }
    }
}

/// The direction back.
pub fn opposite(dir: Dir) -> Dir
    ensures value { result ≡ opposite dir }
{
    match dir {
        Dir::North => Dir::South,
        Dir::South => Dir::North,
        Dir::West => Dir::East,
        Dir::East => Dir::West,
    }
}
