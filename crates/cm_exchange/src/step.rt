//! What a block can do in the exchange.

ghost use Rattle.std.specs.Prelude.{◌≡◌, ◌<◌};
ghost use Rattle.cm_exchange.specs.Steps.{block_of, stage_of, step_at};

/// A step of an exchange: what a block does with a lane, its own or that of the block from which it gets (ours).
#[derive(Clone, Copy, PartialEq, Eq)]
pub enum Step {
    /// The block takes its own lane, which is empty.
    Grip(u16),
    /// It puts what it sends into it, and lets it go.
    File(u16),
    /// It takes the lane that comes to it, which is full.
    Draw(u16),
    /// It takes in what is there, lets the lane go, and goes on by itself until its next round.
    Clear(u16),
}

impl Step {
    /// The step of block `b` that it may take at a stage.
    pub fn at(b: u16, stage: u8) -> Step
        ensures value { result ≡ step_at b stage }
    {
        match stage {
            0 => Step::Grip(b),
            1 => Step::File(b),
            2 => Step::Draw(b),
            _ => Step::Clear(b),
        }
    }

    /// The number of its block.
    pub fn block(self) -> u16
        ensures value { result ≡ block_of self }
    {
        match self {
            Step::Grip(b) => b,
            Step::File(b) => b,
            Step::Draw(b) => b,
            Step::Clear(b) => b,
        }
    }

    /// The stage at which it is taken.
    pub fn stage(self) -> u8
        ensures value { result ≡ stage_of self }
    {
        match self {
            Step::Grip(_b) => 0,
            Step::File(_b) => 1,
            Step::Draw(_b) => 2,
            Step::Clear(_b) => 3,
        }
    }
}
