//! What can be seen of an image so far.

ghost use Rattle.std.specs.Prelude.{◌≡◌, ◌↔◌, IsTrue, ℕ, ◌*◌, ◌+◌, ◌/◌, ◌<◌, ◌≤◌, ◌^◌, length, replicate, slice_index_or, true, false, IfOk};
ghost use Rattle.std.specs.Arc.{arc_value};
ghost use Rattle.jr_head.specs.Geometry.{blocks_of, mcus_across, mcus_down, mcus_of};
ghost use Rattle.jr_piece.specs.Units.{grey_unit};
ghost use Rattle.jr_scan.specs.ScanValue.{HasInterval};
ghost use Rattle.jr_view.specs.Parts.{HasSeenAll, IsPartOfPicture};
ghost use Rattle.jr_view.specs.Views.{IsNotOfPiece, IsNotOfStrip, IsOfPiece, IsOfStrip, IsSameAt, AddsMcu, AddsMcus, ShowsPiece, ShowsStripUnits, has_seen, has_seen_row, sample_in_view, sample_seen, size_of, unit_at, units_shown, whole_rows};

use crate::shown::{GREY, Shown};
use jr_base::Memory;
use jr_head::Head;
use jr_paint::{Samples, Unit, Units, fill_line, sample_of_units};
use jr_piece::{Piece, Strip};
use jr_scan::Scan;
use std::alloc::Global;
use std::marker::Model;
use std::sync::Arc;

/// An image's samples as they were seen; those that were not are mid-grey.
#[derive(Drop)]
pub struct View {
    scan: Arc<Scan>,
    /// The data units of all MCUs, in the order of the scan.
    units: Vec<[u8; 64]>,
    /// For each MCU, whether it was seen.
    seen: Vec<bool>,
    /// Number of rows of MCUs that were seen whole.
    rows: u32,
}

impl Model for View {
    ghost use Rattle.std.specs.Arc.{arc_value};
    ghost use Rattle.jr_view.specs.ViewValue.{ViewValue};
    ghost use Rattle.jr_view.specs.Views.{IsView};

    ghost Value = { ViewValue };

    ghost view = { λ v. record { scan = arc_value v.scan; units = v.units.items; seen = v.seen.items } };

    ghost invariant = { λ v. IsView (record { scan = arc_value v.scan; units = v.units.items; seen = v.seen.items }) v.rows };
}

/// Returns `count` data units, all grey.
fn grey_units(alloc: Global, count: usize) -> Result<Vec<[u8; 64]>, Memory>
    ensures { IfOk result (λ v. v.items ≡ replicate count grey_unit) }
{
    let mut units = Vec::with_capacity(alloc, count)?;
    for _ in 0..count {
        units.push([GREY; 64])?;
    }
    Ok(units)
}

/// Copies the data units of an MCU, `count` starting at `start`.
fn store_mcu(shown: &Shown<'_>, from: u32, units: &mut [[u8; 64]], start: usize, count: usize)
    requires few { from + count < 2 ^ 32 }
    requires space { start + count ≤ length units.old }
    ensures here { (k : ℕ) → k < count → slice_index_or units.new (start + k) grey_unit ≡ slice_index_or (units_shown shown.now) (from + k) grey_unit }
    ensures before { (k : ℕ) → k < start → slice_index_or units.new k grey_unit ≡ slice_index_or units.old k grey_unit }
    ensures after { (k : ℕ) → start + count ≤ k → slice_index_or units.new k grey_unit ≡ slice_index_or units.old k grey_unit }
{
    shown.store(from, &mut units[start..start + count]);
}

/// Returns the number of MCUs of each interval but the last.
fn interval_size(head: &Head) -> usize
    ensures value { result ≡ size_of head.now }
    ensures few { result < 2 ^ 32 }
{
    let restart = head.restart() as usize;
    if restart == 0 {
        head.mcus() as usize
    } else {
        restart
    }
}

/// Returns whether all MCUs of the row of this one were seen.
fn is_row_whole(head: &Head, seen: &[bool], mcu: usize) -> bool
    requires mcu { mcu < mcus_of head.now }
    requires seen { length seen.now ≡ mcus_of head.now }
    ensures value { result ≡ has_seen_row head.now seen.now (mcu / mcus_across head.now) }
    ensures wide { 0 < mcus_across head.now }
{
    let columns = head.mcus_across() as usize;
    let row = mcu / columns;
    seen[row * columns..(row + 1) * columns]
        .iter()
        .all(|is_seen| *is_seen)
}

impl View {
    /// Makes a view of a scan's image of which nothing was seen. It allocates its memory at once, for each pixel that
    /// the header claims. `Err` if allocation fails.
    pub fn of(alloc: Global, scan: &Arc<Scan>) -> Result<View, Memory>
        ensures scan { IfOk result (λ v. v.scan ≡ arc_value scan.now) }
        ensures unseen { IfOk result (λ v. (mcu : ℕ) → has_seen v mcu ≡ false) }
        ensures grey { IfOk result (λ v. (mcu k : ℕ) → unit_at v mcu k ≡ grey_unit) }
        ensures samples { IfOk result (λ v. (c x y : ℕ) → sample_in_view v c x y ≡ 128) }
        ensures part { IfOk result IsPartOfPicture }
    {
        let mcus = scan.head().mcus() as usize;
        let count = mcus * scan.head().order().len();
        // By its contract a scan has the number of intervals that its header says.
        let _intervals = scan.intervals();
        Ok(View {
            scan: Arc::try_clone(scan)?,
            units: grey_units(alloc, count)?,
            seen: vec![in alloc; false; mcus]?,
            rows: 0,
        })
    }

    /// Returns the number of rows of MCUs that were seen whole.
    pub fn rows(&self) -> u32
        ensures { result ≡ whole_rows self.now }
    {
        self.rows
    }

    /// Returns the number of rows of MCUs of the image.
    pub fn mcu_rows(&self) -> u32
        ensures value { result ≡ mcus_down self.now.scan.head }
        ensures some { 0 < result }
    {
        self.scan.head().mcus_down()
    }

    /// Returns whether each MCU was seen.
    pub fn is_whole(&self) -> bool
        ensures rows { IsTrue result ↔ (whole_rows self.now ≡ mcus_down self.now.scan.head) }
        ensures all { IsTrue result → HasSeenAll self.now }
    {
        self.rows == self.scan.head().mcus_down()
    }

    /// Returns whether an MCU was seen.
    pub fn has_seen(&self, mcu: u32) -> bool
        ensures { result ≡ has_seen self.now mcu }
    {
        match self.seen.get(mcu as usize) {
            Some(is_seen) => *is_seen,
            None => false,
        }
    }

    /// Shows a strip, as far as the image has its MCUs. Those that were seen before are unchanged. A view stays a part
    /// of its image if the strip is one of its own scan.
    pub fn show_strip(&mut self, strip: &Strip)
        ensures scan { self.new.scan ≡ self.old.scan }
        ensures seen { (mcu : ℕ) → IsOfStrip self.old strip.now mcu → has_seen self.new mcu ≡ true }
        ensures shown { (mcu : ℕ) → IsOfStrip self.old strip.now mcu → has_seen self.old mcu ≡ false → ShowsStripUnits self.new strip.now mcu }
        ensures kept { (mcu : ℕ) → has_seen self.old mcu ≡ true → IsSameAt self.old self.new mcu }
        ensures others { (mcu : ℕ) → IsNotOfStrip self.old strip.now mcu → IsSameAt self.old self.new mcu }
        ensures part { IsPartOfPicture self.old → HasInterval self.old.scan strip.now.interval → IsPartOfPicture self.new }
    {
        strip.assert_invariant();
        let restart = self.scan.head().restart() as usize;
        let first = strip.number() as usize * restart + strip.first() as usize;
        self.show(first, strip.mcus() as usize, &Shown::OfStrip(strip));
    }

    /// Shows a piece: all MCUs of its interval are seen then, and those after its longest prefix are grey. Those that
    /// were seen before are unchanged. A view stays a part of its image if the piece is one of its own scan.
    pub fn show_piece(&mut self, piece: &Piece)
        ensures scan { self.new.scan ≡ self.old.scan }
        ensures seen { (mcu : ℕ) → IsOfPiece self.old piece.now mcu → has_seen self.new mcu ≡ true }
        ensures shown { (mcu : ℕ) → IsOfPiece self.old piece.now mcu → has_seen self.old mcu ≡ false → ShowsPiece self.new piece.now mcu }
        ensures kept { (mcu : ℕ) → has_seen self.old mcu ≡ true → IsSameAt self.old self.new mcu }
        ensures others { (mcu : ℕ) → IsNotOfPiece self.old piece.now mcu → IsSameAt self.old self.new mcu }
        ensures part { IsPartOfPicture self.old → HasInterval self.old.scan piece.now.interval → IsPartOfPicture self.new }
    {
        piece.assert_invariant();
        let first = piece.number() as usize * self.scan.head().restart() as usize;
        let count = interval_size(self.scan.head());
        self.show(first, count, &Shown::OfPiece(piece));
    }

    /// Shows `count` MCUs starting at `first`, those that the image has and that were not seen.
    fn show(&mut self, first: usize, count: usize, shown: &Shown<'_>)
        requires first { first < 2 ^ 60 }
        requires count { count < 2 ^ 32 }
        ensures { AddsMcus self.old first count (units_shown shown.now) self.new }
    {
        let per_mcu = self.scan.head().order().len();
        let left = (self.scan.head().mcus() as usize).saturating_sub(first);
        for j in 0..count.min(left) {
            self.show_mcu(first + j, shown, j * per_mcu);
        }
    }

    /// Shows an MCU that was not seen, by data units starting at this one.
    fn show_mcu(&mut self, mcu: usize, shown: &Shown<'_>, from: usize)
        requires mcu { mcu < mcus_of self.old.scan.head }
        requires from { from < 2 ^ 31 }
        ensures kept { has_seen self.old mcu ≡ true → self.new ≡ self.old }
        ensures shown { has_seen self.old mcu ≡ false → AddsMcu self.old mcu (units_shown shown.now) from self.new }
    {
        if self.seen[mcu] {
            return;
        }
        let head = self.scan.head();
        let per_mcu = head.order().len();
        store_mcu(shown, from as u32, &mut self.units, mcu * per_mcu, per_mcu);
        self.seen[mcu] = true;
        // By its contract the number of rows fits.
        let _rows = head.mcus_down();
        self.rows += u32::from(is_row_whole(head, &self.seen, mcu));
    }
}

impl Units for View {
    ghost head_of = { λ v. v.scan.head };

    ghost shown_in = { sample_seen };

    fn unit(&self, _c: u32, mcu: u32, block: u32) -> Unit<'_> {
        let number = mcu as usize * self.scan.head().order().len() + block as usize;
        Unit::Of(&self.units[number])
    }
}

impl Samples for View {
    ghost head_of = { λ v. v.scan.head };

    ghost shown = { sample_in_view };

    fn head(&self) -> &Head {
        self.scan.head()
    }

    fn sample(&self, c: u32, x: u32, y: u32) -> u8 {
        sample_of_units(self.scan.head(), self, c, x, y)
    }

    fn line<'a>(&'a self, c: u32, y: u32, count: usize, space: &'a mut [u8]) -> &'a [u8] {
        let line = &mut space[..count];
        fill_line(self.scan.head(), self, c, y, line);
        line
    }
}
