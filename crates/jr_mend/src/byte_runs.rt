//! Runs of bytes in which copies of a file differ.

ghost use Rattle.std.specs.Prelude.{◌<◌, ◌≤◌, All, IfSome, length};

use crate::file_copy::FileCopy;

/// The size of a sector in bytes. A run lies in one sector of a file, since damage often begins and ends with a sector.
pub const SECTOR_BYTES: usize = 512;

/// A run ends before this number of bytes in which all copies agree.
pub const MIN_GAP: usize = 16;

/// Bytes that are taken from one copy.
#[derive(Clone, Copy, Debug, PartialEq, Eq)]
pub struct ByteRun {
    /// Offset of the first byte.
    pub start: usize,
    /// Offset after the last byte.
    pub end: usize,
    /// The number of the copy, from 0.
    pub copy: u32,
}

/// Bytes in which copies differ.
#[derive(Clone, Copy)]
pub(crate) struct Difference {
    pub start: usize,
    pub end: usize,
}

/// Returns whether two copies have different bytes at an offset.
fn differ_at(copies: &[FileCopy], at: usize) -> bool
    requires { All (λ c. at < length c.file) copies.now }
{
    for k in 1..copies.len() {
        if copies[k].file()[at] != copies[k - 1].file()[at] {
            return true;
        }
    }
    false
}

/// Returns the first offset in a range at which copies differ.
fn first_difference(copies: &[FileCopy], from: usize, to: usize) -> Option<usize>
    requires { All (λ c. to ≤ length c.file) copies.now }
    ensures { IfSome result (λ at. (from ≤ at) × (at < to)) }
{
    for at in from..to {
        if differ_at(copies, at) {
            return Some(at);
        }
    }
    None
}

/// Returns where bytes end in which copies differ, that begin at `start`, at the latest at `to`.
fn difference_end(copies: &[FileCopy], start: usize, to: usize) -> usize
    requires within { start < to }
    requires long { All (λ c. to ≤ length c.file) copies.now }
    ensures some { start < result }
    ensures within { result ≤ to }
{
    let mut end = start + 1;
    for at in start + 1..to {
        if differ_at(copies, at) {
            end = at + 1;
        } else if at.saturating_sub(end) >= MIN_GAP {
            break;
        }
    }
    end
}

/// Returns the first bytes in a range in which copies differ, up to the end of their sector.
pub(crate) fn next_difference(copies: &[FileCopy], from: usize, to: usize) -> Option<Difference>
    requires { All (λ c. to ≤ length c.file) copies.now }
    ensures from { IfSome result (λ d. from ≤ d.start) }
    ensures some { IfSome result (λ d. d.start < d.end) }
    ensures within { IfSome result (λ d. d.end ≤ to) }
{
    let start = first_difference(copies, from, to)?;
    let sector_end = (start / SECTOR_BYTES + 1).saturating_mul(SECTOR_BYTES);
    Some(Difference {
        start,
        end: difference_end(copies, start, sector_end.min(to).max(start + 1)),
    })
}
