//! The numbers of sound and damaged intervals.

ghost use Rattle.std.specs.Prelude.{◌≡◌, ◌+◌, ◌<◌, ◌^◌, cond};

/// The numbers of sound and of damaged intervals of a part of a scan.
#[derive(Clone, Copy)]
pub struct Marked {
    /// Number of sound intervals.
    pub sound: u32,
    /// Number of damaged intervals.
    pub damaged: u32,
}

impl Marked {
    /// Returns the counts of no interval.
    pub fn none() -> Marked
        ensures sound { result.sound ≡ 0 }
        ensures damaged { result.damaged ≡ 0 }
    {
        Marked {
            sound: 0,
            damaged: 0,
        }
    }

    /// One interval.
    pub fn one(is_sound: bool) -> Marked
        ensures sound { result.sound ≡ cond is_sound 1 0 }
        ensures damaged { result.damaged ≡ cond is_sound 0 1 }
    {
        Marked {
            sound: u32::from(is_sound),
            damaged: u32::from(!is_sound),
        }
    }

    /// Those of two parts.
    pub fn with(self, more: Marked) -> Marked
        requires { self.sound + self.damaged + (more.sound + more.damaged) < 2 ^ 32 }
        ensures sound { result.sound ≡ self.sound + more.sound }
        ensures damaged { result.damaged ≡ self.damaged + more.damaged }
    {
        Marked {
            sound: self.sound + more.sound,
            damaged: self.damaged + more.damaged,
        }
    }
}
