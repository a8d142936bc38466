//! The start of coded bytes: bytes that are data as they are, or an entropy-coded segment (T.81, B.1.1.5).

ghost use Rattle.std.specs.Prelude.{◌≡◌, ◌≢◌, ℕ, ◌<◌, ◌≤◌, List, length, take, drop, replicate, slice_index};
ghost use Rattle.jr_base.specs.declared.marker.TheConstants.{PREFIX};
ghost use Rattle.jr_cut.specs.Cut.{IsRaw, IsStop};

use jr_base::marker::{PREFIX, fill_count};
use memchr::memchr;

/// Returns the number of bytes at the start that are not FF.
pub fn plain_count(bytes: &[u8]) -> usize
    ensures within { result ≤ length bytes.now }
    ensures plain { (k : ℕ) → k < result → slice_index bytes.now k ≢ PREFIX }
    ensures next { result < length bytes.now → slice_index bytes.now result ≡ PREFIX }
{
    match memchr(PREFIX, bytes) {
        Some(at) => at,
        None => bytes.len(),
    }
}

/// Returns the number of bytes at the start that are not FF, at most `most`.
fn plain_within(bytes: &[u8], most: usize) -> usize
    ensures within { result ≤ length bytes.now }
    ensures few { result ≤ most }
    ensures plain { (k : ℕ) → k < result → slice_index bytes.now k ≢ PREFIX }
    ensures next { result < length bytes.now → result < most → slice_index bytes.now result ≡ PREFIX }
{
    let most = bytes.len().min(most);
    plain_count(&bytes[..most])
}

/// Returns the length of the prefix that encodes `count` data bytes, or of the longest prefix before a marker or the
/// end.
pub fn spelled_length(bytes: &[u8], count: usize) -> usize
    ensures within { result ≤ length bytes.now }
    ensures spells { (found : List ℕ) × IsRaw (take result bytes.now) found × (length found ≤ count) × (length found < count → IsStop (drop result bytes.now)) }
{
    let mut at: usize = 0;
    let mut found: usize = 0;
    'bytes: loop {
        let plain = plain_within(&bytes[at..], count - found);
        let end = at + plain;
        found += plain;
        if found == count {
            return end;
        }
        let next = end + fill_count(&bytes[end..]);
        if next >= bytes.len() || bytes[next] != 0 {
            return end;
        }
        found += 1;
        at = next + 1;
    }
}

/// Returns the number of bytes at the start that spell data, up to a marker or the end.
pub fn segment_length(bytes: &[u8]) -> usize
    ensures within { result ≤ length bytes.now }
    ensures data { (spelled : List ℕ) × IsRaw (take result bytes.now) spelled }
    ensures stop { IsStop (drop result bytes.now) }
{
    spelled_length(bytes, bytes.len())
}
