//! Phrases.

use cm_bits::{Dir, Field, FlagNo};

/// What a phrase does in each selected processor. Right sides are over old values.
#[derive(Clone, Copy, Debug, PartialEq, Eq)]
pub enum Phrase {
    /// d := s of the neighbour from which one place in the direction leads here; flag NEWS := the top bit of that.
    News(Field, Field, Dir),
    /// d := s of the processor before on the chip, 0 where there is none; flag DAISY := the top bit of that.
    Chain(Field, Field),
    /// d := d and s, bit by bit.
    And(Field, Field),
    /// d := d or s, bit by bit.
    Or(Field, Field),
    /// d := 1 where d and s differ, else 0, bit by bit.
    Xor(Field, Field),
    /// d := not d, bit by bit.
    Not(Field),
    /// d := d + the number, cut to the bits of d; flag 7 := the carry out.
    AddNumber(Field, u64),
    /// flag := 1 where s is not 0, else 0.
    Test(FlagNo, Field),
    /// d := 1 where the flag is 1, else 0.
    Keep(Field, FlagNo),
}
