//! What the bytes so far of a file make final in every file that they can become.

ghost use Rattle.std.specs.Prelude.{◌≡◌, ◌≢◌, ℕ, ℤ, ◌*◌, ◌≤◌, List, ◌++◌, length};
ghost use Rattle.jr_segments.specs.declared.refusal.Refusal.{Refusal};
ghost use Rattle.jr_segments.specs.declared.refusal.Refusal.TheVariants.{TooLong};
ghost use Rattle.jr_head.specs.HeadValue.{HeadValue};
ghost use Rattle.jr_head.specs.Heads.{HeadOf, RefusalOf};
ghost use Rattle.jr_scan.specs.declared.place.Place.{Place};
ghost use Rattle.jr_scan.specs.declared.place.RunEnd.TheVariants.{AllRead};
ghost use Rattle.jr_cut.specs.declared.scan_end.ScanEnd.TheVariants.{EndOfFile};
ghost use Rattle.jr_cut.specs.Cut.{Cutting};
ghost use Rattle.jr_scan.specs.IntervalValue.{IntervalValue};
ghost use Rattle.jr_scan.specs.ScanValue.{ScanValue};
ghost use Rattle.jr_scan.specs.Mcus.{Front};
ghost use Rattle.jr_scan.specs.Run.{RunOf, IsRun};
ghost use Rattle.jr_picture.specs.declared.mark.Mark.{Mark};
ghost use Rattle.jr_picture.specs.Headline.{ShowsFirst, mark_in};
ghost use Rattle.jr_arrival.specs.More.{run_with_more, with_more};
ghost use Rattle.jr_arrival.specs.Arrival.{CanBecome, IsFinalFault};
ghost use Rattle.jr_arrival.specs.LongerFile.{GrowsTo, HasScan, HasEndedAt, KeepsScan, RowIsSettled, lines_of_row};

/// States that a header that is accepted of the bytes so far is the header of every file that they can become (T.81,
/// B.2).
pub fn head_is_final()
    ensures { (bytes file : List ℕ) (h : HeadValue) → CanBecome bytes file → HeadOf bytes h → HeadOf file h }
{}

/// States that a refusal that does not report missing bytes is that of every file that the bytes so far can become.
pub fn fault_is_final()
    ensures { (bytes file : List ℕ) (f : Refusal) → CanBecome bytes file → IsFinalFault bytes f → RefusalOf bytes f → RefusalOf file f }
{}

/// States that a file that is too long stays too long.
pub fn too_long_is_final()
    ensures { (bytes more : List ℕ) → RefusalOf bytes TooLong → RefusalOf (bytes ++ more) TooLong }
{}

/// States that more bytes never change a segment that has ended, and only append to the last. If a marker has ended the
/// scan, nothing is appended (T.81, B.1.1.5).
pub fn cut_is_final()
    ensures { (n at : ℕ) (bytes more : List ℕ) (a : Cutting n at bytes) (b : Cutting n at (bytes ++ more)) → GrowsTo a.datas b.datas × (a.end ≢ EndOfFile → (b.datas ≡ a.datas) × (b.end ≡ a.end)) }
{}

/// States that every file that the bytes so far can become keeps the intervals of their scan: those that have ended
/// unchanged, and of each other one the data so far (T.81, E.1.4).
pub fn scan_is_final()
    ensures { (bytes file : List ℕ) (s t : ScanValue) → CanBecome bytes file → HasScan bytes s → HasScan file t → KeepsScan bytes s t }
{}

/// States that whole MCUs that an interval's data so far begin with are its first MCUs, whatever data follow (T.81,
/// A.2.3).
pub fn front_is_final()
    ensures { (i : IntervalValue) (more : List ℕ) (k : ℕ) (blocks : List (List ℤ)) → Front i k blocks → Front (with_more i more) k blocks }
{}

/// States that a run of whole MCUs starting at a position of the data so far is that run whatever data follow, and ends
/// at the same position.
pub fn run_is_final()
    ensures { (r : RunOf) (more : List ℕ) (blocks : List (List ℤ)) (to : Place) → r.from.bit ≤ 8 * length r.interval.bytes
        → IsRun r blocks to AllRead → IsRun (run_with_more r more) blocks to AllRead }
{}

/// States that the lines of a row of MCUs that the bytes so far make final are those of the image of every file that
/// they can become.
pub fn lines_are_final()
    ensures { (bytes file : List ℕ) (s t : ScanValue) (row n : ℕ) (k m : List Mark) (f g : ℕ → ℕ → ℕ → ℕ) → CanBecome bytes file
        → HasScan bytes s → HasScan file t → RowIsSettled bytes s row → ShowsFirst s n k f → ShowsFirst t n m g → lines_of_row s.head f row ≡ lines_of_row t.head g row }
{}

/// States that the mark of an interval that has ended is its mark in the image of every file that the bytes so far can
/// become.
pub fn mark_is_final()
    ensures { (bytes file : List ℕ) (s t : ScanValue) (i n : ℕ) (k m : List Mark) (f g : ℕ → ℕ → ℕ → ℕ) → CanBecome bytes file
        → HasScan bytes s → HasScan file t → HasEndedAt bytes s i → ShowsFirst s n k f → ShowsFirst t n m g → mark_in k i ≡ mark_in m i }
{}
