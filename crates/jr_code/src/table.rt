//! Code tables as a file defines them.

ghost use Rattle.std.specs.Prelude.{◌≡◌, ◌≢◌, ◌≤◌, ◌↔◌, IsTrue, length, IfOk, OnOk, sum};
ghost use Rattle.jr_code.specs.Code.{same_table, IsValidTable, IsOverfull, space, lengths};

use crate::book::CodeBook;
use crate::word_book::WordBook;
use jr_base::Memory;
use std::alloc::Global;
use std::marker::Model;
use thiserror::Error;

/// The reason why counts and symbols are not a code table, or that allocation failed.
#[derive(Debug, Drop, PartialEq, Eq, Error)]
pub enum CodeFault {
    /// The counts add up to over 256, or not to the number of symbols.
    #[error("too many words, or not one symbol for each")]
    TooMany,
    /// The sum of `2 ^ (16 - length)` over all codes is over 65536.
    #[error("the words have no room")]
    Overfull,
    /// Allocation failed.
    #[error("out of memory")]
    Memory,
}

/// A code table (T.81, Annex C) as it is defined: counts of codes by length, and a symbol for each code. Decoding uses
/// a book of it, which takes a hundred times longer to make.
#[derive(Drop)]
pub struct CodeTable {
    pub(crate) counts: [u8; 16],
    pub(crate) symbols: Vec<u8>,
}

impl Model for CodeTable {
    ghost use Rattle.jr_code.specs.Code.{Table, IsValidTable};

    ghost Value = { Table };

    ghost view = { λ b. record { counts = b.counts; symbols = b.symbols.items } };

    ghost invariant = { λ b. IsValidTable b.counts b.symbols.items };
}

impl CodeTable {
    /// Returns the table of these counts, `counts[i]` of codes of i + 1 bits, and of one symbol for each code in order
    /// (T.81, B.2.4.2 and Annex C), for callers that have added up the counts.
    pub fn with_symbols(
        alloc: Global,
        counts: &[u8; 16],
        symbols: &[u8],
    ) -> Result<CodeTable, CodeFault>
        requires each { sum counts.now ≡ length symbols.now }
        requires few { length symbols.now ≤ 256 }
        ensures table { IfOk result (λ t. t ≡ record { counts = counts.now; symbols = symbols.now }) }
        ensures valid { OnOk result (IsValidTable counts.now symbols.now) }
        ensures enough { result ≢ Err CodeFault.TooMany }
        ensures overfull { (result ≡ Err CodeFault.Overfull) ↔ IsOverfull counts.now }
    {
        let space = space_of(counts);
        if space > 65536 {
            return Err(CodeFault::Overfull);
        }
        let symbols = Vec::from_slice(alloc, symbols).map_err(|_| CodeFault::Memory)?;
        Ok(CodeTable {
            counts: *counts,
            symbols,
        })
    }

    /// Returns the book by which codes of this table are read if they are those of AC coefficients.
    pub fn book(&self) -> Result<CodeBook, Memory>
        ensures { IfOk result (λ b. b ≡ self.now) }
    {
        Ok(CodeBook::of(self.try_clone()?))
    }

    /// Returns the book by which codes of this table are read if they are those of DC coefficients.
    pub fn word_book(&self) -> Result<WordBook, Memory>
        ensures { IfOk result (λ b. b ≡ self.now) }
    {
        Ok(WordBook::of(self.try_clone()?))
    }

    /// Asserts, for callers that rest on it, that the table is valid (T.81, Annex C).
    pub(crate) fn assert_invariant(&self)
        ensures { IsValidTable self.now.counts self.now.symbols }
    {
        let _ = &self.counts;
    }

    /// Returns whether both have the same counts and symbols.
    pub(crate) fn is_same(&self, other: &CodeTable) -> bool
        ensures reports { result ≡ same_table self.now other.now }
        ensures same { IsTrue result ↔ (self.now ≡ other.now) }
    {
        self.counts == other.counts && self.symbols.as_slice() == other.symbols.as_slice()
    }

    /// Returns a copy of the table.
    pub(crate) fn try_clone(&self) -> Result<CodeTable, Memory>
        ensures { IfOk result (λ t. t ≡ self.now) }
    {
        Ok(CodeTable {
            counts: self.counts,
            symbols: self.symbols.clone()?,
        })
    }
}

/// Returns the number of codes, of which `counts[i]` have i + 1 bits.
pub fn word_count(counts: &[u8; 16]) -> u32
    ensures value { result ≡ sum counts.now }
    ensures few { result ≤ 4080 }
{
    let mut total: u32 = 0;
    for count in counts {
        total += u32::from(*count);
    }
    total
}

/// Returns the space of all codes together.
fn space_of(counts: &[u8; 16]) -> u32
    ensures { result ≡ space (lengths counts.now) }
{
    let mut space: u32 = 0;
    for i in 0..16usize {
        let count = u32::from(counts[i]);
        space += count << (15 - i);
    }
    space
}
