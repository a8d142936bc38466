//! The bits that a speculative read covers.

ghost use Rattle.std.specs.Prelude.{◌≡◌};

use jr_scan::Scan;

/// Some bits of an interval's data.
#[derive(Clone, Copy)]
pub(crate) struct BitWindow {
    /// The interval's number.
    pub(crate) number: u32,
    pub(crate) from: u64,
    pub(crate) to: u64,
}

impl BitWindow {
    /// Returns a window of no bits.
    pub(crate) fn none() -> BitWindow {
        BitWindow {
            number: 0,
            from: 0,
            to: 0,
        }
    }

    /// Returns whether it has this bit of an interval.
    pub(crate) fn has(&self, number: u32, bit: u64) -> bool {
        self.number == number && self.from <= bit && bit < self.to
    }

    /// Returns whether all of it lies before a bit of an interval.
    pub(crate) fn is_before(&self, number: u32, bit: u64) -> bool {
        self.number < number || (self.number == number && self.to <= bit)
    }
}

/// Returns the number of bits of an interval's data, 0 if the scan has no such interval.
pub(crate) fn bits_of(scan: &Scan, number: u32) -> u64 {
    if number >= scan.intervals() {
        return 0;
    }
    8 * scan.interval_ref(number).bytes().len() as u64
}
