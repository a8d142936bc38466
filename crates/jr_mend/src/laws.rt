//! What holds of every file that is written of coded intervals, and of every scan that is resynchronised.

ghost use Rattle.std.specs.Prelude.{◌≡◌, ◌<◌, [], ◌≤◌, ◌++◌, ◌⊎◌, ℕ, List, length, take, drop, true};
ghost use Rattle.std.specs.List.{All, AllZip};
ghost use Rattle.jr_base.specs.declared.limits.TheConstants.{MAX_FILE_BYTES};
ghost use Rattle.jr_cut.specs.declared.scan_end.ScanEnd.{ScanEnd};
ghost use Rattle.jr_cut.specs.declared.scan_end.ScanEnd.TheVariants.{EndOfImage};
ghost use Rattle.jr_cut.specs.Cut.{IsCut, IsRaw};
ghost use Rattle.jr_head.specs.HeadValue.{HeadValue};
ghost use Rattle.jr_head.specs.Heads.{HeadOf};
ghost use Rattle.jr_mend.specs.declared.resync.Resynced.{Resynced};
ghost use Rattle.jr_mend.specs.Markers.{is_over, markers_in};
ghost use Rattle.jr_mend.specs.Reading.{Becomes, IsFileInStep, IsResynced};
ghost use Rattle.jr_mend.specs.Resync.{IsInStep, IsResync, Resync};
ghost use Rattle.jr_mend.specs.Splice.{coded_intervals, spliced};
ghost use Rattle.jr_scan.specs.ScanValue.{IsSameScan, IsScanOf, ScanValue, intervals_of, scan_of_segments};

/// States that coded intervals, at most n of them, are cut into what each spells, and that EOI ends them.
pub fn intervals_are_cut()
    ensures { (n at : ℕ) (raws datas : List (List ℕ)) → AllZip IsRaw raws datas → 0 < length raws → length raws ≤ n → IsCut n at (coded_intervals raws) datas EndOfImage }
{}

/// States that a file keeps its header if other bytes replace those after the scan header.
pub fn header_stays()
    ensures { (file more : List ℕ) (h : HeadValue) → HeadOf file h → length (take h.scan_at file ++ more) ≤ MAX_FILE_BYTES → HeadOf (take h.scan_at file ++ more) h }
{}

/// States that a file with other coded intervals has its header, and the scan of what each interval spells.
pub fn spliced_has_its_scan()
    ensures head { (file : List ℕ) (h : HeadValue) (raws : List (List ℕ)) → HeadOf file h → length (spliced file h raws) ≤ MAX_FILE_BYTES → HeadOf (spliced file h raws) h }
    ensures scan { (file : List ℕ) (h : HeadValue) (raws datas : List (List ℕ)) → HeadOf file h → AllZip IsRaw raws datas → 0 < length raws → length raws ≤ intervals_of h → IsScanOf (spliced file h raws) (scan_of_segments h datas EndOfImage) }
    ensures whole { (h : HeadValue) (raws datas : List (List ℕ)) → AllZip IsRaw raws datas → length raws ≡ intervals_of h → (scan_of_segments h datas EndOfImage).intervals ≡ datas }
{}

/// States that the bytes of a scan, the first of which is at an offset of the file, are resynchronised in one way.
pub fn one_resync()
    ensures { (n at : ℕ) (bytes : List ℕ) (a b : Resync) → IsResync n at bytes a → IsResync n at bytes b → a ≡ b }
{}

/// States that a scan whose restart markers are in step is resynchronised to the segments that it is cut into, if it has all
/// of them or does not continue after an EOI.
pub fn in_step_stays()
    ensures { (n at : ℕ) (bytes : List ℕ) (datas : List (List ℕ)) (end : ScanEnd) (r : Resync) → IsCut n at bytes datas end → IsInStep end → (length datas ≡ n) ⊎ ((k : ℕ) → is_over n (markers_in 0 (drop k bytes)) ≡ true) → IsResync n at bytes r → (r.datas ≡ datas) × (r.breaks ≡ []) × (r.end ≡ end) }
{}

/// States that the bytes of each scan can be resynchronised, whatever they are, if it has intervals.
pub fn each_scan_resyncs()
    ensures { (n at : ℕ) (bytes : List ℕ) → 0 < n → All (λ b. b < 256) bytes → (r : Resync) × IsResync n at bytes r }
{}

/// States that a file whose restart markers are in step, and whose scan continues after no EOI, has once it is resynchronised
/// the data that it had in each interval.
pub fn file_in_step_stays()
    ensures { (file : List ℕ) (h : HeadValue) (r : Resynced) (s t : ScanValue) → IsResynced file h r → s.head ≡ h → t.head ≡ h → IsScanOf file s → IsInStep s.ended → ((k : ℕ) → is_over (intervals_of h) (markers_in 0 (drop k (drop h.scan_at file))) ≡ true) → IsScanOf r.file.items t → IsSameScan s t }
{}

/// States that a file with all its intervals in step, and EOI, becomes one with its own scan, without breaks.
pub fn file_in_step_is_resynced()
    ensures { (file : List ℕ) (s : ScanValue) → HeadOf file s.head → IsScanOf file s → IsFileInStep file s.head → (new : List ℕ) × Becomes file s.head new [] EndOfImage × IsScanOf new s }
{}

/// States that bytes after EOI change nothing, unless the scan continues in them: a scan that EOI ends, and a file, are
/// resynchronised as without them.
pub fn bytes_after_image_are_ignored()
    ensures scan { (n at : ℕ) (bytes more : List ℕ) (r : Resync) (is : IsResync n at bytes r) → r.end ≡ EndOfImage → is_over n (markers_in 0 is.parts.tail) ≡ true → is_over n (markers_in 0 (is.parts.tail ++ more)) ≡ true → IsResync n at (bytes ++ more) r }
    ensures file { (file more : List ℕ) (h : HeadValue) (r : Resynced) → HeadOf file h → (made : IsResynced file h r) → r.ended ≡ EndOfImage → is_over (intervals_of h) (markers_in 0 made.is.parts.tail) ≡ true → is_over (intervals_of h) (markers_in 0 (made.is.parts.tail ++ more)) ≡ true → IsResynced (file ++ more) h r }
{}
