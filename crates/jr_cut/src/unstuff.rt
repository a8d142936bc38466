//! Data bytes without their stuffing, in the memory of what spells them (T.81, B.1.1.5 and F.1.2.3).

ghost use Rattle.std.specs.Prelude.{◌≡◌, ◌≢◌, ℕ, ◌<◌, ◌≤◌, ◌++◌, ◌∷◌, [], length, take, drop, replicate, slice_index, IfOk, IfErr};
ghost use Rattle.jr_base.specs.declared.marker.TheConstants.{PREFIX};
ghost use Rattle.jr_cut.specs.Cut.{IsStop};
ghost use Rattle.jr_cut.specs.Spans.{Unstuffs};

use crate::front::plain_count;
use jr_base::Memory;
use jr_base::marker::{PREFIX, fill_count};
use std::alloc::Global;
use std::marker::Model;

/// Returns an offset, or the end of the bytes if that is earlier.
pub fn offset_in(bytes: &[u8], offset: u64) -> usize
    ensures within { result ≤ length bytes.now }
    ensures there { offset ≤ length bytes.now → result ≡ offset }
    ensures same { drop result bytes.now ≡ drop offset bytes.now }
{
    if offset < bytes.len() as u64 {
        offset as usize
    } else {
        bytes.len()
    }
}

/// Bytes of a scan that are read one after the other. The decoded data overwrite the buffer's start; they are never
/// longer than their code.
#[derive(Drop)]
pub struct Unstuffing {
    bytes: Vec<u8>,
    /// Number of bytes of data.
    found: usize,
    /// Start of the bytes that are not read yet.
    at: usize,
    /// Number of FF bytes that these are known to begin with.
    fill: usize,
}

impl Model for Unstuffing {
    ghost use Rattle.std.specs.Prelude.{◌≡◌, ◌+◌, ◌≤◌, length, take, drop, replicate};
    ghost use Rattle.jr_base.specs.declared.marker.TheConstants.{PREFIX};
    ghost use Rattle.jr_cut.specs.UnstuffingValue.{UnstuffingValue};

    ghost Value = { UnstuffingValue };

    ghost view = { λ u. record { unstuffed = take u.found u.bytes.items; rest = drop u.at u.bytes.items } };

    ghost invariant = { λ u. (u.found ≤ u.at) × (u.at + u.fill ≤ length u.bytes.items) × (take u.fill (drop u.at u.bytes.items) ≡ replicate u.fill PREFIX) };
}

impl Unstuffing {
    /// Returns the bytes starting at an offset, none if it is past their end. None of them is read yet.
    pub fn of(bytes: Vec<u8>, offset: u64) -> Unstuffing
        ensures data { result.unstuffed ≡ [] }
        ensures rest { result.rest ≡ drop offset bytes.items }
    {
        let at = offset_in(&bytes, offset);
        Unstuffing {
            bytes,
            found: 0,
            at,
            fill: 0,
        }
    }

    /// Returns a copy of them.
    pub fn copy_of(alloc: Global, bytes: &[u8], offset: u64) -> Result<Unstuffing, Memory>
        ensures data { IfOk result (λ u. u.unstuffed ≡ []) }
        ensures rest { IfOk result (λ u. u.rest ≡ drop offset bytes.now) }
    {
        let copied = bytes[offset_in(bytes, offset)..].to_vec(alloc)?;
        Ok(Unstuffing::of(copied, 0))
    }

    /// Returns the number of bytes of data.
    pub(crate) fn len(&self) -> usize
        ensures { result ≡ length self.now.unstuffed }
    {
        self.found
    }

    /// Returns the bytes that are not read yet.
    pub(crate) fn rest(&self) -> &[u8]
        ensures { result.now ≡ self.now.rest }
    {
        &self.bytes[self.at..]
    }

    /// Returns the number of FF bytes at the start of the unread bytes. It does not count anew those that it counted
    /// before.
    pub(crate) fn fill(&mut self) -> usize
        ensures same { self.new ≡ self.old }
        ensures within { result ≤ length self.old.rest }
        ensures full { take result self.old.rest ≡ replicate result PREFIX }
        ensures next { result < length self.old.rest → slice_index self.old.rest result ≢ PREFIX }
    {
        self.fill += fill_count(&self.bytes[self.at + self.fill..]);
        self.fill
    }

    /// Reads bytes that are data as they are.
    fn keep(&mut self, count: usize)
        requires { count ≤ length self.old.rest }
        ensures data { self.new.unstuffed ≡ self.old.unstuffed ++ take count self.old.rest }
        ensures rest { self.new.rest ≡ drop count self.old.rest }
    {
        if count == 0 {
            return;
        }
        let end = self.at + count;
        self.bytes.copy_within(self.at..end, self.found);
        self.found += count;
        self.at = end;
        self.fill = 0;
    }

    /// Reads bytes that spell one byte.
    fn store(&mut self, count: usize, byte: u8)
        requires some { 0 < count }
        requires within { count ≤ length self.old.rest }
        ensures data { self.new.unstuffed ≡ self.old.unstuffed ++ byte ∷ [] }
        ensures rest { self.new.rest ≡ drop count self.old.rest }
    {
        self.bytes[self.found] = byte;
        self.found += 1;
        self.at += count;
        self.fill = 0;
    }

    /// Reads bytes that are no data.
    pub(crate) fn skip(&mut self, count: usize)
        requires { count ≤ length self.old.rest }
        ensures data { self.new.unstuffed ≡ self.old.unstuffed }
        ensures rest { self.new.rest ≡ drop count self.old.rest }
    {
        self.at += count;
        self.fill = 0;
    }

    /// Reads the bytes that spell data, up to a marker or the end, and returns their number.
    pub(crate) fn unstuff(&mut self) -> usize
        ensures within { result ≤ length self.old.rest }
        ensures data { Unstuffs (take result self.old.rest) self.old.unstuffed self.new.unstuffed }
        ensures rest { self.new.rest ≡ drop result self.old.rest }
        ensures stop { IsStop self.new.rest }
    {
        // A slice is so short that the number of its bytes fits.
        let _whole = self.rest().len();
        let mut at: usize = 0;
        'bytes: loop {
            let count = plain_count(self.rest());
            self.keep(count);
            at += count;
            let next = self.fill();
            if next >= self.rest().len() || self.rest()[next] != 0 {
                return at;
            }
            self.store(next + 1, PREFIX);
            at += next + 1;
        }
    }

    /// Appends bytes to the unread ones. If allocation fails it appends none.
    pub(crate) fn extend(&mut self, more: &[u8]) -> Result<(), Memory>
        ensures data { self.new.unstuffed ≡ self.old.unstuffed }
        ensures rest { IfOk result (λ _. self.new.rest ≡ self.old.rest ++ more.now) }
        ensures memory { IfErr result (λ _. self.new ≡ self.old) }
    {
        self.bytes.extend_from_slice(more)?;
        Ok(())
    }

    /// Returns the data.
    pub(crate) fn data(&self) -> &[u8]
        ensures { result.now ≡ self.now.unstuffed }
    {
        &self.bytes[..self.found]
    }

    /// Returns the data, in the memory of the bytes.
    pub(crate) fn into_data(self) -> Vec<u8>
        ensures { result.items ≡ self.unstuffed }
    {
        let mut bytes = self.bytes;
        bytes.truncate(self.found);
        bytes
    }
}
