//! Laws of pictures that are looked at: some worked out.

ghost use Rattle.lab_figures.specs.Laws.{ColoursAreSo, PicturesAreLookedAtSo};

/// A law: these pictures are enlarged so, and have these greatest numbers.
#[tactic(auto, unfolding(crate::specs::Looks::wider_row))]
pub fn pictures_are_looked_at_so()
    ensures { PicturesAreLookedAtSo }
{}

/// A law: these are colours of palettes, and these bytes name those of a row.
#[tactic(auto, unfolding(crate::specs::Palettes::colour_of, crate::specs::Palettes::colour_row))]
pub fn colours_are_so()
    ensures { ColoursAreSo }
{}
