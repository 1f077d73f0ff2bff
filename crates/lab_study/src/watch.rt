//! Who looks on while a program runs.

ghost use Rattle.std.specs.Prelude.{ℕ};

/// Is told how far a program is. Whatever it does, the answer is the same.
pub trait Watch {
    // What it may be once it is told this: what it was, how many acts were done, of how many in all, what it is then.
    ghost sees: { Self → ℕ → ℕ → Self → Type 0 } = { λ before done all after. Unit {0} };

    /// Told after each act: so many were done, of so many in all.
    fn see(&mut self, done: usize, all: usize)
        ensures sees { sees self.old done all self.new };
}

/// Nobody looks on.
#[derive(Clone, Copy, Debug, PartialEq, Eq)]
pub struct Unwatched;

impl Watch for Unwatched {
    fn see(&mut self, _done: usize, _all: usize) {}
}
