//! Bytes of images, made of other bytes.

use std::alloc::{AllocError, Global};

/// One chip, room for seven messages, counter 1.
pub(crate) static ONE_CHIP: [u8; 51] = [
    0x43, 0x4d, 0x31, 0x49, 1, 0, 7, 0, 0, 0, 0, 0, 0, 0, 0, 1, 0, 0, 0, 0, 0, 0, 0, 0, 0, 0, 0, 0,
    0, 0, 0, 0, 0, 0, 0, 0, 0, 0, 0, 0, 0, 0, 0, 0, 0, 0, 0, 0, 0, 0, 0,
];

/// The bytes with so many from a place on taken out, and others put there.
pub(crate) fn changed(
    alloc: Global,
    bytes: &[u8],
    at: usize,
    out: usize,
    put: &[u8],
) -> Result<Vec<u8>, AllocError> {
    let mut text = Vec::new(alloc);
    text.extend_from_slice(bytes.get(..at).unwrap_or(bytes))?;
    text.extend_from_slice(put)?;
    text.extend_from_slice(bytes.get(at.saturating_add(out)..).unwrap_or(&[]))?;
    Ok(text)
}
