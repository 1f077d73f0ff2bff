//! Of which machine chips are, and how much stands at one.

ghost use Rattle.cm_model.specs.Keeping.{AreSizes};

/// The machine that a run of chips belongs to, as far as its router has to know it (ours).
#[derive(Clone, Copy)]
pub struct Shape {
    /// Dimensions of the cube of all chips.
    pub dims: u8,
    /// How many messages the router of one chip has room for.
    pub room: u8,
    pub ghost bounds: { AreSizes dims room },
}
