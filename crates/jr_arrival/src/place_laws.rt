//! What holds for MCUs that are read from a part of their interval's data.

ghost use Rattle.std.specs.Prelude.{Bool, ◌≡◌, ◌≤◌, ◌+◌, ◌*◌, ◌++◌, ◌∷◌, ℕ, ℤ, List, [], length};
ghost use Rattle.jr_cut.specs.Cut.{CutFrom, IsRaw, IsStop};
ghost use Rattle.jr_cut.specs.declared.scan_end.ScanEnd.{ScanEnd};
ghost use Rattle.jr_head.specs.Geometry.{order_of};
ghost use Rattle.jr_scan.specs.IntervalValue.{IntervalValue};
ghost use Rattle.jr_scan.specs.Run.{HasNoMcu, IsRun, left_at, run_from};
ghost use Rattle.jr_scan.specs.declared.place.RunEnd.{RunEnd};
ghost use Rattle.jr_scan.specs.ScanValue.{ScanValue, IsScanOf};
ghost use Rattle.jr_arrival.specs.More.{with_more};
ghost use Rattle.jr_arrival.specs.declared.place.RowPlace.{RowPlace};
ghost use Rattle.jr_head.specs.HeadValue.{HeadValue};
ghost use Rattle.jr_arrival.specs.Meaning.{IsPlaceIn, MayBe, after, offset_in, top, with_before};
ghost use Rattle.jr_arrival.specs.Parts.{FilePart, part_at};

use jr_scan::Place;

/// States that a run of MCUs is that of the interval with other data before it, starting at the bits after that data.
pub fn run_after()
    ensures { (i : IntervalValue) (front : List ℕ) (p : Place) (k : ℕ) (zs : List (List ℤ)) (to : Place) (end : RunEnd) → IsRun (run_from i p k) zs to end
        → IsRun (run_from (with_before i front) (after front p) k) zs (after front to) end }
{}

/// States that if 16,650 bits begin with no whole MCU of at most ten data units, none begins them whatever data follow.
pub fn no_mcu_in_long_data()
    ensures { (i : IntervalValue) (more : List ℕ) (p : Place) → length (order_of i.head) ≤ 10 → p.bit ≤ 8 * length i.bytes → 16650 ≤ length (left_at i p) → HasNoMcu i p
        → HasNoMcu (with_more i more) p }
{}

/// States, of bytes at an offset of the file that are a segment and what follows it: if some of the first of them spell
/// data, that data is a prefix of the segment's, and the bytes after it are the rest of the segment and what follows
/// it; none if the data end there.
pub fn split_segment()
    ensures { (n k at : ℕ) (raw found tail : List ℕ) (datas : List (List ℕ)) (end : ScanEnd) → IsRaw raw found → CutFrom n k at (raw ++ tail) datas end
        → (rest : List ℕ) × (others : List (List ℕ)) × (datas ≡ (found ++ rest) ∷ others) × CutFrom n k (at + length raw) tail (rest ∷ others) end × (IsStop tail → rest ≡ []) }
{}

/// States that the top is a valid position in any part that contains the scan's start.
pub fn top_is_place()
    ensures { (x : FilePart) (whole : List ℕ) (t : ScanValue) → IsScanOf whole t → x.from ≤ t.head.scan_at → t.head.scan_at ≤ x.from + length x.bytes → IsPlaceIn x whole t top }
{}

/// States that a position in a part of a file is one in each part with more bytes after it.
pub fn place_stays()
    ensures { (x : FilePart) (more : List ℕ) (all : Bool) (whole : List ℕ) (t : ScanValue) (p : RowPlace) → IsPlaceIn x whole t p
        → IsPlaceIn (part_at x.from (x.bytes ++ more) all) whole t p }
{}

/// States that a position in a part of a file is one in each part that begins at or before it and ends no earlier.
pub fn place_in_part()
    ensures { (x y : FilePart) (h : HeadValue) (whole : List ℕ) (t : ScanValue) (p : RowPlace) → MayBe x h whole t → MayBe y h whole t → y.from ≤ offset_in t.head p → x.from + length x.bytes ≤ y.from + length y.bytes
        → IsPlaceIn x whole t p → IsPlaceIn y whole t p }
{}
