//! The part of a scan that is decoded: its first intervals, or all.

ghost use Rattle.std.specs.Prelude.{◌≡◌, ◌≤◌, length};
ghost use Rattle.jr_scan.specs.FirstIntervalsValue.{FirstIntervalsValue, least};

use crate::scan::Scan;
use std::marker::Model;

/// A scan, of which the first intervals are decoded; the others are blank.
#[derive(Drop)]
pub struct FirstIntervals<'a> {
    scan: &'a Scan,
    limit: u32,
}

impl<'a> Model for FirstIntervals<'a> {
    ghost use Rattle.std.specs.Prelude.{◌≤◌, length};
    ghost use Rattle.jr_scan.specs.FirstIntervalsValue.{FirstIntervalsValue};

    ghost Value = { FirstIntervalsValue };

    ghost view = { λ p. record { scan = p.scan.now; limit = p.limit } };

    ghost invariant = { λ p. p.limit ≤ length p.scan.now.intervals };
}

impl<'a> FirstIntervals<'a> {
    /// Returns the first intervals of a scan, or all.
    pub fn of(scan: &'a Scan, first: Option<u32>) -> FirstIntervals<'a>
        ensures { result ≡ record { scan = scan.now; limit = least first (length scan.now.intervals) } }
    {
        let all = scan.intervals();
        let limit = match first {
            Some(first) => first.min(all),
            None => all,
        };
        FirstIntervals { scan, limit }
    }

    /// Returns the scan.
    pub fn scan(&self) -> &'a Scan
        ensures { result.now ≡ self.now.scan }
    {
        self.scan
    }

    /// Returns the number of intervals that are decoded.
    pub fn limit(&self) -> u32
        ensures value { result ≡ self.now.limit }
        ensures few { self.now.limit ≤ length self.now.scan.intervals }
    {
        self.limit
    }
}
