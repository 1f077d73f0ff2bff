//! Where the records that processors send and receive stand in their memories: ours.

/// The relative address of the message to be sent, of 16 bits.
pub const SENT_REL: u16 = 3968;

/// The processor that it is for, of 4 bits.
pub const SENT_PROC: u16 = 3984;

/// Its payload, of 32 bits.
pub const SENT_PAYLOAD: u16 = 3988;

/// The payload of the message that was received, of 32 bits.
pub const RECEIVED_PAYLOAD: u16 = 4032;
