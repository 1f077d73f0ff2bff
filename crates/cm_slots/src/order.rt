//! Which tickets of a chip go before others.

/// Who goes first of those that have to cross, and who goes last of all (ours).
#[derive(Clone, Copy)]
pub(crate) enum Order {
    /// Who came first; who came last.
    Arrival,
    /// The lowest number; the highest.
    Number,
}
