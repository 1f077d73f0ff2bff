//! Laws over images of the programs' own machines.

ghost use Rattle.cm_sizes.specs.Laws.{ImagesAreShortEnough};

use cm_image_dump::texts_are_short;

/// What a program leaves of a machine it takes again: no image is longer than a file of one may be.
pub fn images_are_short_enough()
    ensures { ImagesAreShortEnough }
{
    texts_are_short();
}
