//! Black data units, of MCUs that are not decoded.

ghost use Rattle.std.specs.Prelude.{◌≡◌, ◌<◌, None};
ghost use Rattle.jr_head.specs.Geometry.{blocks_of};
ghost use Rattle.jr_rows.specs.Bands.{unit_shown_of};

use jr_head::Head;
use jr_picture::blank_sample;

/// Data unit j of a blank MCU: black.
pub(crate) fn blank_unit(head: &Head, j: usize) -> [u8; 64]
    requires { j < blocks_of head.now }
    ensures { result ≡ unit_shown_of head.now j None 0 }
{
    let component = head.order()[j];
    [blank_sample(head.kind(), u32::from(component)); 64]
}
