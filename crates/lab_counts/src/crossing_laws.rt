//! Worked crossings: values that are known from elsewhere, so that a wrong rule is not proved.

ghost use Rattle.std.specs.Prelude.{◌≡◌, [], ◌∷◌, true};
ghost use Rattle.cm_model.specs.Wiring.{plain_way};
ghost use Rattle.lab_counts.specs.CrossingLaws.{example_message};
ghost use Rattle.lab_counts.specs.Crossings.{crossings_at, in_all};

/// So many of a chip's messages cross dimension 0, are referred over it and are refused by it: at a chip with room,
/// at a full chip, and at one whose wire is cut. The sum over two dimensions.
pub fn crossings_are_told_so()
    ensures one_goes { crossings_at plain_way 4 0 (example_message 2 ∷ example_message 1 ∷ example_message 3 ∷ [])
        ≡ record { crossed = 1; referred = 0; refused = 1 } }
    ensures one_is_referred { crossings_at plain_way 2 0 (example_message 2 ∷ example_message 2 ∷ [])
        ≡ record { crossed = 1; referred = 1; refused = 0 } }
    ensures none_goes { crossings_at plain_way 3 0 (example_message 2 ∷ example_message 2 ∷ [])
        ≡ record { crossed = 0; referred = 0; refused = 0 } }
    ensures cut { crossings_at (record plain_way { cut = true }) 2 0 (example_message 1 ∷ example_message 3 ∷ [])
        ≡ record { crossed = 0; referred = 0; refused = 2 } }
    ensures all { in_all (record { crossed = 3; referred = 1; refused = 2 }
        ∷ record { crossed = 4; referred = 0; refused = 5 } ∷ [])
        ≡ record { crossed = 7; referred = 1; refused = 7 } }
{}
