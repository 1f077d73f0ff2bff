//! Where a message is.

use cm_bits::Proc;

/// What is known of the message of a tag.
#[derive(Clone, Copy, PartialEq, Eq)]
pub enum Found {
    /// It stands in the router of this chip.
    Router(u16),
    /// It was delivered to this processor of this chip.
    Delivered(u16, Proc),
    /// No such message is there, nor was one delivered since the machine was made.
    Unknown,
}
