//! Laws over the definitions: values that are known from elsewhere, so that a wrong rule is not proved.

ghost use Rattle.lab_fresh.specs.Laws.{DrawsArePublishedOnes, WiresAreDrawnSo};

/// The first draws of two seeds are those that are published of SplitMix64.
pub fn draws_are_published_ones()
    ensures { DrawsArePublishedOnes }
{}

/// A cube of eight chips has twelve wires: the first over each dimension, the last, and one in between.
pub fn wires_are_drawn_so()
    ensures { WiresAreDrawnSo }
{}
