//! Macros, and the contexts that they stand under.

use cm_bits::{Field, FlagNo};

/// What a macro does in each selected processor, in whole numbers. Right sides are over old values.
#[derive(Clone, Copy)]
pub enum Macro {
    /// d := d + s, cut to the bits of d; flag 7 := the carry out.
    Add(Field, Field),
    /// d := d - s, cut to the bits of d; flag 7 := 1 where d was at least s.
    Sub(Field, Field),
    /// Flag 7 := 1 where x is less than y, else 0.
    Less(Field, Field),
    /// Flag 7 := 1 where x equals y, else 0.
    Equal(Field, Field),
    /// d := s.
    Move(Field, Field),
    /// d := s where the flag is 1.
    Select(Field, Field, FlagNo),
    /// d := the number.
    Const(Field, u64),
    /// d := twice d, cut to the bits of d; flag 7 := the old top bit.
    Shift(Field),
    /// d := x times y, cut to the bits of d; flags 6 and 7 := 0.
    Mul(Field, Field, Field),
    /// The flag := 1.
    Set(FlagNo),
    /// The flag := 0.
    Clear(FlagNo),
}

/// Which processors a macro is carried out in.
#[derive(Clone, Copy)]
pub enum Context {
    /// All.
    Always,
    /// Those where the flag is 1.
    On(FlagNo),
    /// Those where it is 0.
    Off(FlagNo),
}
