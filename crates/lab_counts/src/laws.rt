//! Laws over the definitions.

ghost use Rattle.std.specs.Prelude.{◌≡◌, ◌-◌, ◌≤◌, ◌^◌, ℕ, List, [], ◌∷◌, codes, length};
ghost use Rattle.cm_model.specs.Machine.{Machine};
ghost use Rattle.lab_counts.specs.declared.crossings.Crossings.{Crossings};
ghost use Rattle.lab_counts.specs.Chips.{chips_through};
ghost use Rattle.lab_counts.specs.Crossings.{crossings_through, in_all, no_crossings, with_crossings};
ghost use Rattle.lab_counts.specs.Tables.{counted_lines};

/// What is known by chip and what is known by dimension are the same, each together: where they were before a petit
/// cycle, they are after it.
pub fn chips_add_up()
    ensures after_a_cycle { (n cap : ℕ) (machine : Machine) (dims chips : List Crossings) → n ≤ length dims
        → 2 ^ n ≤ length chips → in_all chips ≡ in_all dims
        → in_all (chips_through n cap machine chips n) ≡ in_all (crossings_through n cap machine dims n) }
{}

/// Counts of two chips, of which one has more: its numbers end at the greatest of 64 bits; and the lines that tell it.
pub fn counts_are_told_so()
    ensures added { with_crossings (no_crossings ∷ record { crossed = 7; referred = 2 ^ 64 - 2; refused = 5 } ∷ []) 1
        (record { crossed = 1; referred = 4; refused = 0 })
        ≡ no_crossings ∷ record { crossed = 8; referred = 2 ^ 64 - 1; refused = 5 } ∷ [] }
    ensures lines { counted_lines 105 0 (no_crossings ∷ record { crossed = 8; referred = 1; refused = 25 } ∷ [])
        ≡ codes "1.05,0,0,0,0\n1.05,1,8,1,25\n" }
{}
