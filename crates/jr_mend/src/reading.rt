//! A file that is read marker by marker, and written anew as it is resynchronised.

ghost use Rattle.std.specs.Prelude.{◌≡◌, ℕ, suc, ◌+◌, ◌<◌, ◌≤◌, ◌^◌, ◌++◌, ◌∷◌, [], List, length, drop, replicate, IfOk, IfSome};
ghost use Rattle.jr_base.specs.declared.limits.TheConstants.{MAX_FILE_BYTES};
ghost use Rattle.jr_head.specs.HeadValue.{HeadValue};
ghost use Rattle.jr_head.specs.Heads.{HeadOf};
ghost use Rattle.jr_mend.specs.Reading.{HasResyncedTo, Meets};
ghost use Rattle.jr_mend.specs.Resync.{EndsResync, break_at, new_segments, number_after, since_after};
ghost use Rattle.jr_mend.specs.Splice.{joined_intervals};
ghost use Rattle.jr_scan.specs.ScanValue.{intervals_of};

use crate::following::{FoundMarker, following_at};
use crate::outlook::Outlook;
use crate::splice::{write_header, write_interval};
use jr_base::Memory;
use jr_cut::{Break, ScanEnd, segment_length};
use jr_head::Head;
use std::alloc::Global;

/// Appends intervals without bytes after interval k, and then one of these bytes. On `Err`, part of them may be appended.
fn write_after(bytes: &mut Vec<u8>, k: u32, missing: u32, raw: &[u8]) -> Result<(), Memory>
    requires { k + missing + 1 < 2 ^ 32 }
    ensures { IfOk result (λ _. (front : List ℕ) (raws : List (List ℕ)) → length raws ≡ suc k → bytes.old.items ≡ front ++ joined_intervals 0 raws → bytes.new.items ≡ front ++ joined_intervals 0 (raws ++ (replicate missing [] ++ raw.now ∷ []))) }
{
    for i in 0..missing {
        write_interval(bytes, k + 1 + i, &[])?;
    }
    write_interval(bytes, k + 1 + missing, raw)
}

/// Returns the number of bytes between the marker before the last interval that has begun and the next marker, after a
/// marker that is read with the bytes after it, `part` in all.
fn since_after(since: usize, missing: Option<u32>, part: usize) -> usize
    requires { since + part < 2 ^ 64 }
    ensures { result ≡ since_after since missing part }
{
    match missing {
        Some(_) => part,
        None => since + part,
    }
}

/// A file that is written, and how far the damaged one is read.
#[derive(Drop)]
pub(crate) struct Reading {
    pub bytes: Vec<u8>,
    pub breaks: Vec<Break>,
    /// The number of the last interval that has begun.
    pub k: u32,
    /// The number of bytes between its marker and the next one.
    pub since: usize,
    /// The counts of the markers ahead, starting at the next one.
    pub outlook: Outlook,
    /// Offset in the damaged file of what is read next: a marker, or the end.
    pub at: usize,
}

impl Reading {
    /// Reads the bytes of the first interval.
    pub(crate) fn of(alloc: Global, head: &Head, file: &[u8]) -> Result<Reading, Memory>
        requires { HeadOf file.now head.now }
        ensures { IfOk result (λ w. HasResyncedTo file.now head.now w) }
    {
        // A header has at least one interval.
        let _some = head.intervals();
        let mut bytes = write_header(alloc, head, file)?;
        let start = head.scan_at() as usize;
        let end = start + segment_length(&file[start..]);
        bytes.reserve(file.len() - start + 2)?;
        write_interval(&mut bytes, 0, &file[start..end])?;
        Ok(Reading {
            bytes,
            breaks: Vec::new(alloc),
            k: 0,
            since: end - start,
            outlook: Outlook::of(&file[start..], head.intervals()),
            at: end,
        })
    }

    /// Records a marker, unless it is the one that is due.
    fn note(&mut self, marker: FoundMarker) -> Result<(), Memory>
        ensures breaks { IfOk result (λ _. self.new.breaks.items ≡ self.old.breaks.items ++ break_at self.old.at self.old.k marker.code marker.missing) }
        ensures same { (self.new.bytes ≡ self.old.bytes) × (self.new.k ≡ self.old.k) × (self.new.since ≡ self.old.since) × (self.new.outlook ≡ self.old.outlook) × (self.new.at ≡ self.old.at) }
    {
        let skipped = match marker.missing {
            Some(0) => return Ok(()),
            Some(missing) => missing,
            None => 0,
        };
        self.breaks.push(Break {
            at: self.at as u64,
            code: marker.code,
            due: (self.k % 8) as u8,
            skipped,
        })?;
        Ok(())
    }

    /// Writes the bytes after a marker as those of the next interval, unless the marker is passed over.
    fn begin_next(&mut self, missing: Option<u32>, raw: &[u8]) -> Result<(), Memory>
        requires { IfSome missing (λ d. self.old.k + d + 1 < 2 ^ 32) }
        ensures number { IfOk result (λ _. self.new.k ≡ number_after self.old.k missing) }
        ensures written { IfOk result (λ _. (front : List ℕ) (raws : List (List ℕ)) → length raws ≡ suc self.old.k → self.old.bytes.items ≡ front ++ joined_intervals 0 raws → self.new.bytes.items ≡ front ++ joined_intervals 0 (raws ++ new_segments missing raw.now)) }
        ensures same { (self.new.breaks ≡ self.old.breaks) × (self.new.at ≡ self.old.at) × (self.new.since ≡ self.old.since) × (self.new.outlook ≡ self.old.outlook) }
    {
        let Some(missing) = missing else {
            return Ok(());
        };
        write_after(&mut self.bytes, self.k, missing, raw)?;
        self.k += missing + 1;
        Ok(())
    }

    /// Reads a marker and the bytes up to the next one, and writes these if they are an interval's.
    fn take(&mut self, file: &[u8], marker: FoundMarker) -> Result<(), Memory>
        requires within { self.old.at + marker.length ≤ length file.now }
        requires few { IfSome marker.missing (λ d. self.old.k + d + 1 < 2 ^ 32) }
        requires near { self.old.since ≤ self.old.at }
        ensures further { IfOk result (λ _. self.old.at + marker.length ≤ self.new.at) }
        ensures read { IfOk result (λ _. (h : HeadValue) → HasResyncedTo file.now h self.old → Meets (intervals_of h) self.old.outlook.size self.old.since self.old.k (drop self.old.at file.now) marker → HasResyncedTo file.now h self.new) }
    {
        self.note(marker)?;
        let start = self.at + marker.length;
        let end = start + segment_length(&file[start..]);
        self.begin_next(marker.missing, &file[start..end])?;
        self.since = since_after(self.since, marker.missing, end - self.at);
        self.outlook = self.outlook.after(marker.code);
        self.at = end;
        Ok(())
    }

    /// Reads up to the end of the scan, and returns what ends it.
    pub(crate) fn read_on(&mut self, head: &Head, file: &[u8]) -> Result<ScanEnd, Memory>
        requires read { HasResyncedTo file.now head.now self.old }
        requires short { length file.now ≤ MAX_FILE_BYTES }
        ensures read { IfOk result (λ _. HasResyncedTo file.now head.now self.new) }
        ensures ends { IfOk result (λ end. EndsResync (intervals_of head.now) self.new.k self.new.at (drop self.new.at file.now) end) }
    {
        let intervals = head.intervals();
        'markers: loop {
            let tail = &file[self.at..];
            match following_at(
                tail,
                self.at as u64,
                self.k,
                intervals,
                self.since,
                self.outlook,
            ) {
                Err(ended) => return Ok(ended),
                Ok(marker) => self.take(file, marker)?,
            }
        }
    }
}
