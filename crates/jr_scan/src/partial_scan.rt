//! A scan whose file is still arriving.

ghost use Rattle.std.specs.Prelude.{◌≡◌, ◌+◌, ◌<◌, ◌≤◌, ◌^◌, ◌++◌, ℕ, List, length, IfOk, IfErr};
ghost use Rattle.jr_head.specs.Geometry.{IsValid};
ghost use Rattle.jr_scan.specs.PartialScan.{HasCome};
ghost use Rattle.jr_scan.specs.ScanValue.{intervals_of, interval_of};

use crate::interval_ref::IntervalRef;
use crate::scan::Scan;
use jr_base::Memory;
use jr_cut::{PartialCut, ScanEnd, Unstuffing};
use jr_head::Head;
use std::alloc::Global;
use std::marker::Model;

/// A scan whose file is still arriving: what its bytes so far are cut into. More bytes are cut starting where the cut
/// is.
#[derive(Drop)]
pub struct PartialScan {
    head: Head,
    cut: PartialCut,
}

impl Model for PartialScan {
    ghost use Rattle.std.specs.Prelude.{◌≡◌, ◌+◌, ◌<◌, ◌≤◌, ◌^◌, length};
    ghost use Rattle.jr_scan.specs.PartialScan.{PartialScanValue, partial_scan};
    ghost use Rattle.jr_scan.specs.ScanValue.{intervals_of};

    ghost Value = { PartialScanValue };

    ghost view = { λ g. partial_scan g.head g.cut };

    ghost invariant = { λ g. (g.cut.intervals ≡ intervals_of g.head) × (length g.cut.segments ≤ g.cut.intervals) × (length g.cut.unstuffed ≤ g.cut.at) × (g.cut.at + length g.cut.rest < 2 ^ 61) };
}

impl PartialScan {
    /// Cuts the scan of the bytes so far of a file with this header, in their memory.
    pub fn of(alloc: Global, head: Head, bytes: Vec<u8>) -> Result<PartialScan, Memory>
        requires few { length bytes.items < 2 ^ 61 }
        requires starts { head.scan_at ≤ length bytes.items }
        ensures head { IfOk result (λ s. s.scan.head ≡ head) }
        ensures come { IfOk result (λ s. HasCome s bytes.items) }
    {
        let start = head.scan_at();
        let scan = Unstuffing::of(bytes, start);
        let cut = PartialCut::of(alloc, head.intervals(), start, scan)?;
        Ok(PartialScan { head, cut })
    }

    /// Appends bytes of the file. On `Err`, none is taken.
    pub fn push(&mut self, more: &[u8]) -> Result<(), Memory>
        requires few { self.old.come + length more.now < 2 ^ 61 }
        ensures head { self.new.scan.head ≡ self.old.scan.head }
        ensures pushed { IfOk result (λ _. (bytes : List ℕ) → HasCome self.old bytes → HasCome self.new (bytes ++ more.now)) }
        ensures memory { IfErr result (λ _. self.new ≡ self.old) }
    {
        self.cut.push(more)
    }

    /// Returns the header of the file.
    pub fn head(&self) -> &Head
        ensures value { result.now ≡ self.now.scan.head }
        ensures valid { IsValid result.now }
    {
        self.head.assert_invariant();
        &self.head
    }

    /// Returns the number of restart intervals.
    pub fn intervals(&self) -> u32
        ensures value { result ≡ length self.now.scan.intervals }
        ensures count { result ≡ intervals_of self.now.scan.head }
        ensures some { 0 < result }
    {
        self.cut.intervals()
    }

    /// Returns what has ended the scan: the end of the bytes while no marker has.
    pub fn ended(&self) -> ScanEnd
        ensures { result ≡ self.now.scan.ended }
    {
        self.cut.ended()
    }

    /// Returns the number of the last interval that has begun, to which the next data belong while no marker has ended the scan.
    pub fn last_begun(&self) -> u32
        ensures last { result + 1 ≡ self.now.segments }
        ensures inside { result < length self.now.scan.intervals }
    {
        self.cut.last_begun()
    }

    /// Returns interval i, as far as its data have come.
    pub fn interval_ref(&self, i: u32) -> IntervalRef<'_>
        requires { i < length self.now.scan.intervals }
        ensures { result ≡ interval_of self.now.scan i }
    {
        IntervalRef::of(&self.head, self.cut.data(i), i, self.head.mcus_in(i))
    }

    /// Ends the scan, and returns it.
    pub fn into_scan(self, alloc: Global) -> Result<Scan, Memory>
        ensures { IfOk result (λ s. s ≡ self.scan) }
    {
        let PartialScan { head, cut } = self;
        Scan::of_segments(alloc, head, cut.into_segments()?)
    }
}
