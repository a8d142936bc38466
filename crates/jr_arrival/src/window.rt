//! A window of a file's bytes, and the data in it. Its offsets count from the first of the bytes that are there.

ghost use Rattle.std.specs.Prelude.{◌≡◌, ◌≢◌, ◌⊎◌, ◌≤◌, ◌<◌, ◌+◌, ◌-◌, ◌*◌, ◌/◌, ◌%◌, ◌^◌, ℕ, List, [], ◌++◌, length, replicate, take, drop, true, false, Option, None, IfOk, IfSome};
ghost use Rattle.jr_base.specs.declared.marker.TheConstants.{PREFIX};
ghost use Rattle.jr_cut.specs.Cut.{IsRaw, IsStop};
ghost use Rattle.jr_cut.specs.PartialSegments.{IsStopOf};
ghost use Rattle.jr_head.specs.Intervals.{intervals_of};
ghost use Rattle.jr_cut.specs.declared.scan_end.ScanEnd.TheVariants.{EndOfFile};
ghost use Rattle.jr_arrival.specs.FileSources.{IsOffset, IsWindow, to_read, trimmed};
ghost use Rattle.jr_arrival.specs.Meaning.{HasBits};

use crate::file_bytes::FileBytes;
use jr_base::Memory;
use jr_base::marker::fill_count;
use jr_cut::{ScanEnd, Stop, segment_length, spelled_length, stop_at, unstuff_some};
use jr_head::Head;
use std::alloc::Global;

/// Maximum number of data bytes in a window: some rows of a small image, and many times the longest MCU, which has
/// 2082.
pub(crate) const WINDOW: usize = 16384;

/// Number of file bytes that a window reads at first. A byte of data takes at most two without fill bytes, so only fill bytes
/// end a window here, and a caller that asks for one row at a time reads no more of them.
const REACH: usize = 2 * WINDOW;

/// Maximum number of bits of an MCU (T.81, F.1.2): if this many begin with no whole MCU, none does with more data.
pub(crate) const MCU_BITS: u64 = 16650;

/// A window of a file's bytes.
#[derive(Drop)]
pub(crate) struct Window<'a> {
    pub file: FileBytes<'a>,
    /// Its bytes of data are `space[from..found]`.
    pub space: Vec<u8>,
    pub from: usize,
    pub found: usize,
    /// Offset in the file's bytes of the first byte of data; after the interval's data if none follow.
    pub at: usize,
    /// Offset in the file's bytes before which the data were read.
    pub reach: usize,
    /// Whether the interval's data end with the window's.
    pub ends: bool,
}

/// Returns how far a window that begins at an offset may reach: twice as far if it began there before.
fn next_reach(at: usize, reach: usize, passed: usize) -> usize
    ensures on { reach ≤ result }
    ensures further { passed ≡ 0 → reach + 1 < 2 ^ 64 → reach < result }
{
    if passed > 0 {
        return reach;
    }
    reach.saturating_add(reach.saturating_sub(at).max(1))
}

impl<'a> Window<'a> {
    /// Returns a window that is not filled yet. It allocates.
    pub(crate) fn empty(alloc: Global, file: FileBytes<'a>) -> Result<Window<'a>, Memory>
        ensures space { IfOk result (λ w. length w.space.items ≡ WINDOW) }
        ensures file { IfOk result (λ w. w.file ≡ file.entry) }
    {
        Ok(Window {
            file,
            space: vec![in alloc; 0; WINDOW]?,
            from: 0,
            found: 0,
            at: 0,
            reach: 0,
            ends: false,
        })
    }

    /// Fills the window starting at an offset of the file's bytes, where `bit` bits of the first byte of data are used.
    /// Returns where they end in it.
    pub(crate) fn fill(&mut self, at: usize, bit: u64) -> u64
        requires space { length self.old.space.items ≡ WINDOW }
        requires at { at ≤ length self.old.file.bytes.now }
        ensures window { IsWindow self.new }
        ensures file { self.new.file ≡ self.old.file }
        ensures at { self.new.at ≡ at }
        ensures from { self.new.from ≡ 0 }
        ensures reach { self.old.reach ≤ self.new.reach }
        ensures within { result ≤ 8 * (self.new.found - self.new.from) }
        ensures bit { HasBits self.old.file.bytes.now at bit → bit < 8 → result ≡ bit }
    {
        let raw = &self.file.bytes[at..];
        let least = spelled_length(raw, bit.min(1) as usize);
        let most = self.reach.saturating_sub(at).max(REACH).max(least);
        let part = unstuff_some(raw, most, &mut self.space);
        self.at = at;
        self.reach = at.saturating_add(most);
        self.from = 0;
        self.found = part.found;
        self.ends = part.ends;
        bit.min(8 * part.found as u64)
    }

    /// Returns the offset in the file's bytes of a byte of the window's data.
    fn offset(&self, byte: usize) -> usize
        requires window { IsWindow self.now }
        requires byte { byte ≤ self.now.found - self.now.from }
        ensures { IsOffset self.now byte result }
    {
        self.at + spelled_length(&self.file.bytes[self.at..], byte)
    }

    /// Drops the window's bytes before the byte of a bit, so that no later step reads them again. Returns the bit's
    /// number in that byte.
    pub(crate) fn trim(&mut self, bit: u64) -> u64
        requires window { IsWindow self.old }
        requires bit { bit ≤ 8 * (self.old.found - self.old.from) }
        ensures at { IsOffset self.old (bit / 8) self.new.at }
        ensures is { self.new ≡ trimmed self.old (bit / 8) self.new.at }
        ensures bit { result ≡ bit % 8 }
    {
        let byte = (bit / 8) as usize;
        self.at = self.offset(byte);
        self.from += byte;
        bit % 8
    }

    /// Moves the window to the byte of a bit, or makes it reach further if it begins there, and returns the bit's number
    /// in it. Returns `None`, and does nothing, if no whole MCU can follow the bit if the window has none.
    pub(crate) fn slide(&mut self, bit: u64) -> Option<u64>
        requires window { IsWindow self.old }
        requires bit { bit ≤ 8 * (self.old.found - self.old.from) }
        ensures window { IsWindow self.new }
        ensures file { self.new.file ≡ self.old.file }
        ensures at { IfSome result (λ b. IsOffset self.old (bit / 8) self.new.at × (b ≡ bit % 8) × (b ≤ 8 * (self.new.found - self.new.from))) }
        ensures nearer { IfSome result (λ b. to_read self.new < to_read self.old) }
        ensures kept { result ≡ None → (self.new ≡ self.old) × ((self.old.ends ≡ true) ⊎ (MCU_BITS + bit ≤ 8 * (self.old.found - self.old.from))) }
    {
        let bits = 8 * (self.found - self.from) as u64 - bit;
        if self.ends || bits >= MCU_BITS {
            return None;
        }
        let left = self.trim(bit);
        self.reach = next_reach(self.at, self.reach, self.from);
        Some(self.fill(self.at, left))
    }

    /// Returns the offset in the file's bytes after the interval's data.
    pub(crate) fn end_of_data(&self) -> usize
        requires { IsWindow self.now }
        ensures within { result ≤ length self.now.file.bytes.now }
        ensures spells { (read : ℕ) × (found : List ℕ) × (result ≡ self.now.at + read) × IsRaw (take read (drop self.now.at self.now.file.bytes.now)) found }
        ensures stop { IsStop (drop result self.now.file.bytes.now) }
    {
        self.at + segment_length(&self.file.bytes[self.at..])
    }

    /// Moves to an offset of the file's bytes after the interval's data.
    pub(crate) fn leave(&mut self, at: usize)
        requires window { IsWindow self.old }
        requires at { at ≤ length self.old.file.bytes.now }
        requires stop { IsStop (drop at self.old.file.bytes.now) }
        ensures window { IsWindow self.new }
        ensures file { self.new.file ≡ self.old.file }
        ensures at { self.new.at ≡ at }
    {
        self.at = at;
        self.from = 0;
        self.found = 0;
        self.ends = true;
    }

    /// Returns whether the data end there whatever follows the bytes: whether the marker is there, or nothing follows.
    fn ends_at(&self, end: usize) -> bool
        requires within { end ≤ length self.now.file.bytes.now }
        requires stop { IsStop (drop end self.now.file.bytes.now) }
        ensures ends { result ≡ true → (more : List ℕ) → (self.now.file.are_all ≡ true → more ≡ []) → IsStop (drop end (self.now.file.bytes.now ++ more)) }
        ensures goes_on { result ≡ false → self.now.file.are_all ≡ false }
        ensures fill { result ≡ false → (fill : ℕ) × (drop end self.now.file.bytes.now ≡ replicate fill PREFIX) }
    {
        let fill = fill_count(&self.file.bytes[end..]);
        if end + fill < self.file.bytes.len() {
            return true;
        }
        self.file.are_all
    }

    /// Returns whether the MCU at a bit, not whole in the window, never becomes so: the window has the maximum number of
    /// bits of an MCU left, or the interval's data end at `end` whatever follows the bytes.
    pub(crate) fn is_stuck_at(&self, end: usize, bit: u64) -> bool
        requires window { IsWindow self.now }
        requires bit { bit ≤ 8 * (self.now.found - self.now.from) }
        requires within { end ≤ length self.now.file.bytes.now }
        requires stop { IsStop (drop end self.now.file.bytes.now) }
        ensures never { result ≡ true → (more : List ℕ) → (self.now.file.are_all ≡ true → more ≡ []) → IsStop (drop end (self.now.file.bytes.now ++ more)) ⊎ (MCU_BITS + bit ≤ 8 * (self.now.found - self.now.from)) }
        ensures goes_on { result ≡ false → self.now.file.are_all ≡ false }
        ensures fill { result ≡ false → (fill : ℕ) × (drop end self.now.file.bytes.now ≡ replicate fill PREFIX) }
        ensures short { result ≡ false → 8 * (self.now.found - self.now.from) < MCU_BITS + bit }
    {
        let bits = 8 * (self.found - self.from) as u64 - bit;
        bits >= MCU_BITS || self.ends_at(end)
    }

    /// Returns what follows the data of interval `number`, which end there; its offset is that in the file's bytes.
    pub(crate) fn stop_after(&self, head: &Head, number: u32, end: usize) -> Stop
        requires number { number < intervals_of head.now }
        requires within { end ≤ length self.now.file.bytes.now }
        requires stop { IsStop (drop end self.now.file.bytes.now) }
        ensures is { IsStopOf (intervals_of head.now) number end (drop end self.now.file.bytes.now) result }
        ensures long { length self.now.file.bytes.now < 2 ^ 64 }
    {
        let tail = &self.file.bytes[end..];
        let fill = fill_count(tail);
        stop_at(tail, fill, end as u64, number, head.intervals())
    }

    /// Returns whether what ends the scan ends it whatever follows the bytes.
    pub(crate) fn is_final(&self, ended: ScanEnd) -> bool
        ensures ends { result ≡ true → (more : List ℕ) → (self.now.file.are_all ≡ true → more ≡ []) → (ended ≢ EndOfFile) ⊎ (more ≡ []) }
        ensures goes_on { result ≡ false → self.now.file.are_all ≡ false }
        ensures waits { result ≡ false → ended ≡ EndOfFile }
    {
        match ended {
            ScanEnd::EndOfFile => self.file.are_all,
            ScanEnd::EndOfImage
            | ScanEnd::OtherMarker(..)
            | ScanEnd::OutOfStep { .. }
            | ScanEnd::ExtraRestart(..) => true,
        }
    }
}
