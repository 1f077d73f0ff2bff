//! Memory planes of an image that are passed over.

ghost use Rattle.std.specs.Prelude.{◌≡◌, List, IfSome, Ok};
ghost use Rattle.cm_image_format.specs.Image.{Listed, memory_part};

use crate::numbers::take_u16;
use crate::planes::{LISTING_LEN, take_listed};

/// What stands behind the memory planes that are listed, if these stand at the front of bytes without a fault.
pub fn behind_memory(bytes: &[u8]) -> Option<&[u8]>
    ensures value { IfSome result (λ rest. (listed : List Listed)
        × (memory_part bytes.now ≡ Ok (listed, rest.now))) }
{
    let Ok((count, mut rest)) = take_u16(bytes) else {
        return None;
    };
    if count > 4096 || rest.len() < usize::from(count) * LISTING_LEN {
        return None;
    }
    let mut least = 0;
    for i in 0..usize::from(count) {
        let Ok((at, _, after)) = take_listed(least, rest) else {
            return None;
        };
        least = at + 1;
        rest = after;
    }
    Some(rest)
}
