//! The start and the end of a run of MCUs.

ghost use Rattle.std.specs.Prelude.{◌≡◌};
ghost use Rattle.jr_scan.specs.Run.{start_of_interval};

/// A position between two MCUs of an interval: the number of bits of its data before it, and the prediction of each
/// component's DC coefficient there.
#[derive(Clone, Copy, PartialEq, Eq)]
pub struct Place {
    pub bit: u64,
    pub predictions: [i32; 3],
}

impl Place {
    /// Returns the start of an interval, where each component is predicted to be 0 (T.81, F.1.1.5.1).
    pub fn start() -> Place
        ensures { result ≡ start_of_interval }
    {
        Place {
            bit: 0,
            predictions: [0; 3],
        }
    }
}

/// Why a run of MCUs ends.
#[derive(Clone, Copy)]
pub enum RunEnd {
    /// The run has the maximum number of MCUs.
    AllRead,
    /// No further MCU follows.
    NoMcu,
}
