//! The part of a scan that is decoded, as a type.

ghost use Rattle.std.specs.Prelude.{Option, None};
ghost use Rattle.jr_scan.specs.FirstIntervalsValue.{FirstIntervalsValue};

use std::marker::Brand;

/// A brand that names a scan and the number of its intervals that are decoded: a contract knows the contents of a lock
/// only by type.
pub trait OneScan {
    ghost part: { Option FirstIntervalsValue };
}

impl OneScan for Brand {
    ghost part = { None };
}
