//! Where the rows of an instruction begin.

/// The first words of the rows that an instruction reads and writes: `a` and `b` among those of
/// memory, the others among those of the flags.
#[derive(Clone, Copy)]
pub struct Places {
    pub a: usize,
    pub b: usize,
    pub read: usize,
    pub write: usize,
    pub cond: usize,
}
