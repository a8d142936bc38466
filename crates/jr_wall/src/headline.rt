//! The headline: what every board shows, whenever a thread looks.

ghost use Rattle.std.specs.Prelude.{ℕ, List};
ghost use Rattle.jr_scan.specs.ScanValue.{IsSameScan, ScanValue};
ghost use Rattle.jr_picture.specs.declared.mark.Mark.{Mark};
ghost use Rattle.jr_picture.specs.DecodedScan.{marks_of};
ghost use Rattle.jr_picture.specs.Headline.{IsPicture, AreCounts};
ghost use Rattle.jr_picture.specs.Samples.{samples_of};

use crate::board::Board;
use jr_paint::Samples;
use jr_picture::Counts;

impl Board {
    /// States the headline of this very board: for every component, column and line, an interval marked sound shows the
    /// samples that T.81 gives for it; one marked damaged has no decoding, and shows its longest decodable prefix of
    /// whole MCUs and then grey; every other is blank. The counts equal the marks.
    pub fn headline(&self) -> Counts
        ensures picture { IsPicture self.now.scan (marks_of self.now) (samples_of self.now) }
        ensures counts { AreCounts (marks_of self.now) result.sound result.damaged result.blank }
    {
        self.assert_invariant();
        // By its contract a header is valid.
        let _valid = self.head();
        Counts {
            sound: self.sound(),
            damaged: self.damaged(),
            blank: self.blank(),
        }
    }
}

/// States that an image of a scan is one of each scan with the same header and intervals: so the board that
/// `decode_all` makes of a scan has the image of that very scan.
pub fn same_scan_has_the_picture()
    ensures { (s t : ScanValue) (marks : List Mark) (f : ℕ → ℕ → ℕ → ℕ) → IsSameScan s t → IsPicture s marks f → IsPicture t marks f }
{}
