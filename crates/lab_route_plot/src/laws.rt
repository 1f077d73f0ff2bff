//! A law of pictures of routes: what some lines tell, and where it stands.

ghost use Rattle.lab_route_plot.specs.Laws.{RoutesAreDrawnSo};

/// A law: these lines tell these legs, and these legs stand in these rows and places.
#[tactic(auto, unfolding(crate::specs::Legs::legs_from, lab_plot::specs::Cells::trimmed))]
pub fn routes_are_drawn_so()
    ensures { RoutesAreDrawnSo }
{}
