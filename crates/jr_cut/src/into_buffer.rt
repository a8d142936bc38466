//! The data that bytes of a scan spell, in a buffer of their own (T.81, B.1.1.5 and F.1.2.3).

ghost use Rattle.std.specs.Prelude.{◌≡◌, ◌≢◌, ◌<◌, ◌≤◌, ◌+◌, ℕ, List, length, take, drop, slice_index, true, false};
ghost use Rattle.std.specs.Vec.{vec_capacity};
ghost use Rattle.jr_base.specs.declared.marker.TheConstants.{PREFIX};
ghost use Rattle.jr_cut.specs.Cut.{IsRaw, IsStop};

use crate::front::plain_count;
use jr_base::marker::{PREFIX, fill_count};

/// Numbers of bytes that are read, and of the bytes of data that they spell.
#[derive(Clone, Copy)]
pub struct Spelled {
    pub read: usize,
    pub found: usize,
}

/// Number of bytes of data that the first bytes of a segment spell, and whether the data end with them.
#[derive(Clone, Copy)]
pub struct UnstuffedPart {
    pub found: usize,
    pub ends: bool,
}

/// Copies the plain bytes at the start of `raw` to that of `buffer`, as many as fit, and returns their number.
fn copy_plain(raw: &[u8], buffer: &mut [u8]) -> usize
    ensures within { result ≤ length raw.now }
    ensures fits { result ≤ length buffer.old }
    ensures long { length buffer.new ≡ length buffer.old }
    ensures copied { take result buffer.new ≡ take result raw.now }
    ensures plain { (k : ℕ) → k < result → slice_index raw.now k ≢ PREFIX }
    ensures next { result < length raw.now → result < length buffer.old → slice_index raw.now result ≡ PREFIX }
{
    let most = raw.len().min(buffer.len());
    let count = plain_count(&raw[..most]);
    buffer[..count].copy_from_slice(&raw[..count]);
    count
}

/// Writes the data that the first bytes of `raw` spell into the first bytes of `buffer`, up to a marker or the end, or until the
/// buffer is full.
pub fn unstuff_into(raw: &[u8], buffer: &mut [u8]) -> Spelled
    ensures within { result.read ≤ length raw.now }
    ensures fits { result.found ≤ length buffer.old }
    ensures long { length buffer.new ≡ length buffer.old }
    ensures spells { IsRaw (take result.read raw.now) (take result.found buffer.new) }
    ensures stop { result.found < length buffer.old → IsStop (drop result.read raw.now) }
{
    let mut read: usize = 0;
    let mut found: usize = 0;
    'bytes: loop {
        let count = copy_plain(&raw[read..], &mut buffer[found..]);
        read += count;
        found += count;
        let next = read + fill_count(&raw[read..]);
        if found == buffer.len() || next >= raw.len() || raw[next] != 0 {
            return Spelled { read, found };
        }
        buffer[found] = PREFIX;
        found += 1;
        read = next + 1;
    }
}

/// Returns whether data that end within the first `most` bytes of `raw` are known to end there in all of it. They are
/// not if these bytes end with fill bytes and are not all.
fn ends_within(raw: &[u8], read: usize, most: usize) -> bool
    requires read { read ≤ most }
    requires most { most ≤ length raw.now }
    requires stop { IsStop (drop read (take most raw.now)) }
    ensures ends { result ≡ true → IsStop (drop read raw.now) }
    ensures all { most ≡ length raw.now → result ≡ true }
{
    let fill = fill_count(&raw[read..most]);
    most == raw.len() || read + fill < most
}

/// Writes the data that the first `most` bytes of `raw` spell into the first bytes of `space`, up to a marker or the end,
/// or until that is full.
pub fn unstuff_some(raw: &[u8], most: usize, space: &mut [u8]) -> UnstuffedPart
    ensures fits { result.found ≤ length space.old }
    ensures long { length space.new ≡ length space.old }
    ensures spells { (read : ℕ) × (read ≤ length raw.now) × IsRaw (take read raw.now) (take result.found space.new) × (result.ends ≡ true → IsStop (drop read raw.now)) }
    ensures whole { length raw.now ≤ most → result.ends ≡ false → result.found ≡ length space.old }
    ensures some { (n : ℕ) (front : List ℕ) → n ≤ most → n ≤ length raw.now → IsRaw (take n raw.now) front → length front ≤ length space.old → length front ≤ result.found }
{
    let end = most.min(raw.len());
    let Spelled { read, found } = unstuff_into(&raw[..end], space);
    if found == space.len() {
        return UnstuffedPart { found, ends: false };
    }
    UnstuffedPart {
        found,
        ends: ends_within(raw, read, end),
    }
}

/// Makes a buffer at least `least` bytes long. Allocates nothing, since its capacity suffices.
fn lengthen(buffer: &mut Vec<u8>, least: usize)
    requires { least ≤ vec_capacity buffer.old }
    ensures long { least ≤ length buffer.new.items }
    ensures capacity { vec_capacity buffer.old ≤ vec_capacity buffer.new }
{
    if buffer.len() < least {
        let _lengthened = buffer.resize(least, 0);
    }
}

/// Writes the data of a segment into the first bytes of `buffer`, whose capacity is more than the segment's length, and returns
/// their number.
pub fn unstuff_segment(raw: &[u8], buffer: &mut Vec<u8>) -> usize
    requires spells { (bytes : List ℕ) × IsRaw raw.now bytes }
    requires capacity { length raw.now < vec_capacity buffer.old }
    ensures data { IsRaw raw.now (take result buffer.new.items) }
    ensures few { result ≤ length raw.now }
    ensures within { result ≤ length buffer.new.items }
    ensures capacity { vec_capacity buffer.old ≤ vec_capacity buffer.new }
{
    lengthen(buffer, raw.len() + 1);
    unstuff_into(raw, buffer).found
}
