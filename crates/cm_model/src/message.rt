//! Messages of the router, and what its log tells of them.

use cm_bits::Proc;

/// Who sent a message and when: its origin, and its birth in petit cycles (our choice; the router never reads it).
#[derive(Clone, Copy, Debug, Default, PartialEq, Eq)]
pub struct Tag {
    pub chip: u16,
    pub proc: Proc,
    pub birth: u64,
}

/// A message on its way (Hillis 1985, the router).
#[derive(Clone, Copy, Debug, Default, PartialEq, Eq)]
pub struct Message {
    /// The chip it is bound for, as seen from where it stands: bit d is 1 while dimension d is to be crossed.
    pub rel: u16,
    /// The processor of that chip.
    pub proc: Proc,
    pub payload: u32,
    pub tag: Tag,
}

/// What a chip's log tells: a message that its router took in, or one that it delivered.
#[derive(Clone, Copy, PartialEq, Eq)]
pub enum Event {
    Injected(Message),
    Delivered { chip: u16, message: Message },
}
