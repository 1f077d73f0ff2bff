//! Why bytes are no image.

use thiserror::Error;

/// The first fault of bytes that are no image, and want of memory while one is read. Its numbers are 21 to
/// 29, and 33.
#[derive(Clone, Copy, Debug, PartialEq, Eq, Error)]
pub enum ImageFault {
    #[error("the bytes end inside a part")]
    Short,
    #[error("no image")]
    Magic,
    #[error("an unknown version")]
    Version,
    #[error("another dimension or room, or a rule that its version has not")]
    Shape,
    #[error("a plane that is 0, or planes or cut wires out of order")]
    Order,
    #[error("too many planes, messages or cut wires, or no cut wire where there has to be one")]
    Count,
    #[error("a number out of its range")]
    Value,
    #[error("two messages with one tag")]
    TagTwice,
    #[error("bytes after the last chip")]
    Extra,
    #[error("a growth of memory was refused")]
    Memory,
}
