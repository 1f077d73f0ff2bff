//! Planes of sixteen bits, and the directions of the grid.

/// One bit of each processor of a chip: bit p is that of processor p.
pub type Plane = u16;

/// A direction on the NEWS grid: north is the lower row, west the lower column.
#[derive(Clone, Copy, Debug, PartialEq, Eq)]
pub enum Dir {
    North,
    East,
    West,
    South,
}
