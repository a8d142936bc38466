//! What a reader looks up, filled in by going over the codes of a code table.

ghost use Rattle.std.specs.Prelude.{◌≡◌, ◌≢◌, ◌<◌, ◌≤◌, ◌+◌, ◌-◌, ◌*◌, ◌/◌, ◌%◌, ◌^◌, ℕ, List, Bool, Some, None, slice_get, slice_index_or, length, IfSome, IfNone, take, sum, pos, negsuc, ◌≤ℤ◌};
ghost use Rattle.jr_code.specs.Bits.{bits_of, number};
ghost use Rattle.jr_code.specs.Code.{Table, IsWord, HasShortWordsOnly, AreEntries, AreEntriesTo, ArePairs, IsPair, AreLong, extent, space, lengths};

use crate::bits::extend;
use crate::packed::{LOOKED_UP, Packed, WINDOWS, places_of};
use crate::table::CodeTable;

/// A code and its additional bits.
#[derive(Clone, Copy)]
pub(crate) struct Extended {
    pub(crate) symbol: u8,
    /// Value of the additional bits.
    pub(crate) value: i16,
    /// Number of bits of both.
    pub(crate) long: u8,
}

impl CodeTable {
    /// Returns for each byte the symbol and length of the code of at most eight bits that it begins with.
    pub(crate) fn entries(&self) -> [Option<(u8, u8)>; 256]
        ensures { AreEntries self.now result }
    {
        let mut entries = [None; 256];
        for i in 0..8u8 {
            self.enter_words(&mut entries, i);
        }
        entries
    }

    /// Enters the codes of i + 1 bits.
    fn enter_words(&self, entries: &mut [Option<(u8, u8)>; 256], i: u8)
        requires short { i < 8 }
        requires entered { AreEntriesTo self.now i entries.old }
        ensures { AreEntriesTo self.now (i + 1) entries.new }
    {
        let (first, symbols) = self.words_of(i as usize);
        for k in 0..symbols.len() {
            enter_word(entries, first as usize + k, symbols[k], i + 1);
        }
    }

    /// Returns for each eleven bits the code that they begin with and its additional bits, if they hold both.
    pub(crate) fn pairs(&self) -> [Packed; WINDOWS]
        ensures { ArePairs self.now result }
    {
        let mut pairs = [Packed::NONE; WINDOWS];
        for i in 0..LOOKED_UP {
            self.enter_pairs(&mut pairs, i);
        }
        pairs
    }

    /// Enters the codes of i + 1 bits, each with all values of its additional bits.
    fn enter_pairs(&self, pairs: &mut [Packed; WINDOWS], i: u8)
        requires short { i < LOOKED_UP }
        requires entered { ArePairs self.now pairs.old }
        ensures { ArePairs self.now pairs.new }
    {
        let (first, symbols) = self.words_of(i as usize);
        for k in 0..symbols.len() {
            enter_pair(pairs, first as usize + k, symbols[k], i + 1);
        }
    }

    /// Returns the codes of i + 1 bits: the number of the first, which the others count on from, and the symbols of
    /// all.
    fn words_of(&self, i: usize) -> (u32, &[u8])
        requires { i < 16 }
        ensures each { (k s : ℕ) → slice_get result.1.now k ≡ Some s → IsWord self.now (bits_of (i + 1) (result.0 + k)) s }
        ensures all { (word : List Bool) (s : ℕ) → IsWord self.now word s → length word ≡ i + 1 → (k : ℕ) × (k < length result.1.now) × (number word ≡ result.0 + k) }
        ensures fit { result.0 + length result.1.now ≤ 2 ^ (i + 1) }
    {
        let (end, shorter) = self.up_to(i);
        let from = shorter as usize;
        let count = usize::from(self.counts[i]);
        (2 * end, &self.symbols[from..from + count])
    }

    /// Returns the code of nine bits or more that sixteen bits begin with.
    #[inline(always)]
    pub(crate) fn long_word(&self, long: &[(u32, u32); 8], window: u16) -> Option<(u8, u8)>
        requires { AreLong self.now long.now }
        ensures found { IfSome result (λ f. (f.1 ≤ 16) × IsWord self.now (take f.1 (bits_of 16 window)) f.0) }
        ensures none { IfNone result (HasShortWordsOnly self.now (bits_of 16 window)) }
    {
        for k in 0..8usize {
            let code = u32::from(window) >> (7 - k);
            let (first, shorter) = long[k];
            if code >= first && code - first < u32::from(self.counts[k + 8]) {
                let place = (shorter + (code - first)) as usize;
                return Some((self.symbols[place], k as u8 + 9));
            }
        }
        None
    }

    /// For each length from nine to sixteen bits: the least code, and the number of shorter codes.
    pub(crate) fn long(&self) -> [(u32, u32); 8]
        ensures { AreLong self.now result }
    {
        let mut long = [(0, 0); 8];
        for k in 0..8usize {
            let (end, shorter) = self.up_to(k + 8);
            long[k] = (2 * end, shorter);
        }
        long
    }

    /// Returns what follows the greatest code of that length, and the number of codes that are not longer.
    fn up_to(&self, length: usize) -> (u32, u32)
        requires { length ≤ 16 }
        ensures end { result.0 * extent length ≡ space (lengths (take length self.now.counts)) }
        ensures words { result.1 ≡ sum (take length self.now.counts) }
        ensures small { result.0 ≤ 65536 }
    {
        let mut end: u32 = 0;
        let mut words: u32 = 0;
        for i in 0..length {
            let count = u32::from(self.counts[i]);
            end = 2 * end + count;
            words += count;
        }
        (end, words)
    }
}

/// Enters a code: the bytes that begin with it look up its symbol and length.
fn enter_word(entries: &mut [Option<(u8, u8)>; 256], code: usize, symbol: u8, long: u8)
    requires short { long ≤ 8 }
    requires fits { code < 2 ^ long }
    ensures inside { (byte : ℕ) → byte / 2 ^ (8 - long) ≡ code → slice_index_or entries.new byte None ≡ Some (symbol, long) }
    ensures outside { (byte : ℕ) → byte / 2 ^ (8 - long) ≢ code → slice_index_or entries.new byte None ≡ slice_index_or entries.old byte None }
{
    let each = 256usize >> long;
    let first = code * each;
    for byte in first..first + each {
        entries[byte] = Some((symbol, long));
    }
}

/// Enters the code of an AC symbol: the eleven bits that begin with it look it up, and its additional bits if they fit.
fn enter_pair(pairs: &mut [Packed; WINDOWS], code: usize, symbol: u8, long: u8)
    requires short { long ≤ LOOKED_UP }
    requires fits { code < 2 ^ long }
    ensures { (t : Table) → IsWord t (bits_of long code) symbol → ArePairs t pairs.old → ArePairs t pairs.new }
{
    if long + symbol % 16 > LOOKED_UP {
        return;
    }
    let Some(places) = places_of(symbol) else {
        return;
    };
    let each = WINDOWS >> long;
    let first = code * each;
    for window in first..first + each {
        pairs[window] = Packed::of(pair(window as u64, symbol, long), places);
    }
}

/// Returns the code of that symbol and length that eleven bits begin with, and its additional bits.
#[inline(always)]
fn pair(window: u64, symbol: u8, long: u8) -> Extended
    requires held { long + symbol % 16 ≤ LOOKED_UP }
    requires extra { symbol % 16 ≤ 10 }
    requires few { window < WINDOWS }
    ensures least { negsuc 1023 ≤ℤ result.value }
    ensures greatest { result.value ≤ℤ pos 1023 }
    ensures both { result.symbol ≡ symbol }
    ensures pair { (t : Table) → IsWord t (take long (bits_of LOOKED_UP window)) symbol → IsPair t window result }
{
    let size = symbol % 16;
    let both = long + size;
    let extra = (window >> (LOOKED_UP - both)) & ((1u64 << size) - 1);
    Extended {
        symbol,
        value: extend(u32::from(size), extra as u32) as i16,
        long: both,
    }
}
