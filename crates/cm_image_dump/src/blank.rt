//! The image of a blank machine, of which nothing is known but its sizes and how it routes.

ghost use Rattle.std.specs.Prelude.{◌≡◌, IfOk};
ghost use Rattle.cm_model.specs.Keeping.{AreSizes};
ghost use Rattle.cm_model.specs.Machine.{blank_machine};
ghost use Rattle.cm_router.specs.Routes.{routing_of};
ghost use Rattle.cm_image_format.specs.Whole.{text_of};

use cm_bits::NoMemory;
use cm_image_fields::{BLANK_CHIP_LEN, push_cuts, push_head, push_u64, push_zeros, version_of};
use cm_model::cuts_are_few;
use cm_router::Routing;
use std::alloc::Global;

/// The image of a blank machine of 2^n chips with room for so many messages in each router, which routes so. No machine
/// is made for it: a blank chip is 35 zero bytes.
pub fn blank_image(alloc: Global, n: u8, room: u8, routing: &Routing) -> Result<Vec<u8>, NoMemory>
    requires sizes { AreSizes n room }
    requires cube { routing.now.cuts.dims ≡ n }
    ensures value { IfOk result (λ text. text.items
        ≡ text_of n room (record (blank_machine n) { routing = routing_of routing.now })) }
{
    let cuts = routing.cuts.edges();
    let version = version_of(routing.rule, cuts);
    cuts_are_few();
    let mut text = Vec::new(alloc);
    push_head(
        &mut text,
        version,
        usize::from(n),
        usize::from(room),
        routing.rule,
    )?;
    push_u64(&mut text, 0)?;
    push_cuts(&mut text, version, cuts)?;
    push_zeros(&mut text, BLANK_CHIP_LEN << n)?;
    Ok(text)
}
