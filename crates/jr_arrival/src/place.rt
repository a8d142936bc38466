//! A position between two rows of MCUs.

ghost use Rattle.std.specs.Prelude.{◌≡◌, true, false};
ghost use Rattle.jr_arrival.specs.Places.{IsPlaceOf};

use jr_head::Head;

/// A position between two rows of MCUs of a file's image, and where in the file the next one's bits begin. All 0 is the
/// top.
#[repr(C)]
#[derive(Clone, Copy, Debug, PartialEq, Eq)]
pub struct RowPlace {
    /// The offset in the file of the byte that has the next bit. Smaller offsets mean the scan's first byte.
    pub at: u64,
    /// Number of bits of that byte that are used, 0 to 7.
    pub bit: u32,
    /// Number of rows of MCUs before it.
    pub row: u32,
    /// The restart interval that it is in.
    pub interval: u32,
    /// Number of MCUs of that interval before it.
    pub mcu: u32,
    /// The prediction of each component's DC coefficient.
    pub predictions: [i32; 3],
    /// 0: the interval continues; 1: no further MCU of it is whole; 2: the scan has ended, and no further interval has
    /// data.
    pub state: u32,
}

/// Returns whether a position has numbers of an image with this header: a row, and the interval and MCU that begin it.
pub fn is_position(head: &Head, place: &RowPlace) -> bool
    ensures there { result ≡ true → IsPlaceOf head.now place.now }
    ensures not_there { result ≡ false → IsPlaceOf head.now place.now → ⊥ }
{
    if place.interval >= head.intervals() || place.row > head.mcus_down() {
        return false;
    }
    let mcu = u64::from(place.interval) * u64::from(head.restart()) + u64::from(place.mcu);
    place.mcu <= head.mcus_in(place.interval)
        && mcu == u64::from(place.row) * u64::from(head.mcus_across())
}
