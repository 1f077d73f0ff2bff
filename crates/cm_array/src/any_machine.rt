//! A machine whose sizes are known at run time alone.

ghost use Rattle.std.specs.Prelude.{◌≡◌, ◌≤◌};

use crate::chip_state::ChipState;
use crate::machine::MachineOf;
use crate::sizes::Sizes;
use std::marker::{Model, PhantomData};

/// A machine of any sizes, of which its type tells nothing.
///
/// Contracts see its sizes beside the machine.
#[derive(Drop)]
pub struct AnyMachine {
    state: ChipState,
}

impl Model for AnyMachine {
    ghost use Rattle.cm_array.specs.Parts.{AreParts};
    ghost use Rattle.cm_array.specs.Sizes.{SizedMachine, sized_of};

    ghost Value = { SizedMachine };

    ghost view = { λ any. sized_of any.state };

    ghost invariant = { λ any. AreParts any.state.shape.dims any.state.shape.room any.state };
}

impl AnyMachine {
    /// A machine without its type's sizes.
    pub fn of<S: Sizes>(machine: MachineOf<S>) -> Self
        ensures value { result ≡ record { n = S.n; cap = S.cap; machine = machine.machine } }
    {
        AnyMachine {
            state: machine.state,
        }
    }

    /// The machine as one of these sizes, which are its own.
    pub fn sized<S: Sizes>(self) -> MachineOf<S>
        requires n { self.n ≡ S.n }
        requires cap { self.cap ≡ S.cap }
        ensures value { result.machine ≡ self.machine }
    {
        MachineOf {
            state: self.state,
            sizes: PhantomData,
        }
    }

    /// The dimensions of its cube.
    pub fn dims(&self) -> u8
        ensures value { result ≡ self.now.n }
        ensures most { result ≤ 12 }
    {
        self.state.shape.dims
    }

    /// How many messages the router of a chip has room for.
    pub fn room(&self) -> u8
        ensures value { result ≡ self.now.cap }
    {
        self.state.shape.room
    }
}
