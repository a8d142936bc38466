//! Code tables of a JPEG file.

ghost use Rattle.std.specs.Prelude.{◌≡◌, ◌≢◌, ◌<◌, ◌≤◌, ◌-◌, ◌%◌, ◌^◌, ◌↔◌, ◌++◌, ℕ, List, Bool, IsTrue, length, IfSome, IfNone, IfOk, OnOk, sum};
ghost use Rattle.std.proofs.Common.{rules};
ghost use Rattle.std.specs.Cmp.Rules.{comparing};
ghost use Rattle.jr_code.specs.Code.{same_table, Table, IsWord, IsValidTable, HasTooMany, IsOverfull, AreEntries, ArePairs, TakesExtended, HasNoExtended, TakesPlaces, HasNoPlaces, GoesOn, IsInFront, IsPrefixFree, unpacked, places_in};
ghost use Rattle.jr_code.specs.Bits.{upper_bits};
ghost use Rattle.jr_code.specs.Register.{bits_in};

use crate::bits::Bits;
use crate::packed::{LOOKED_UP, Packed, WINDOWS, places_of};
use crate::register::Register;
use crate::table::{CodeFault, CodeTable, word_count};
use crate::word_book::WordBook;
use jr_base::Memory;
use std::alloc::Global;
use std::marker::Model;

/// A code table (T.81, Annex C) by which AC coefficients are read, code and additional bits at once. Two are equal if
/// their counts and symbols are.
#[derive(Drop)]
pub struct CodeBook {
    words: WordBook,
    /// By eleven bits: the code that they begin with and its additional bits, if both are within them.
    pairs: [Packed; WINDOWS],
}

impl Model for CodeBook {
    ghost use Rattle.jr_code.specs.Code.{Table, IsValidTable, ArePairs};

    ghost Value = { Table };

    ghost view = { λ b. b.words };

    ghost invariant = { λ b. ArePairs b.words b.pairs × IsValidTable b.words.counts b.words.symbols };
}

impl PartialEq for CodeBook {
    ghost eq = { same_table };

    ghost laws = { Prim.search (comparing, rules) };

    fn eq(&self, other: &CodeBook) -> bool {
        self.words.is_same(&other.words)
    }
}

impl CodeBook {
    /// Returns whether both have the same counts and symbols.
    pub fn is_same(&self, other: &CodeBook) -> bool
        ensures { IsTrue result ↔ (self.now ≡ other.now) }
    {
        self.words.is_same(&other.words)
    }

    /// Builds the table of these counts, `counts[i]` of codes of i + 1 bits, and of a symbol for each code in order
    /// (T.81, B.2.4.2 and Annex C). A symbol may occur twice, the code of all ones may be assigned, and a table may be
    /// empty.
    pub fn new(alloc: Global, counts: &[u8; 16], symbols: &[u8]) -> Result<CodeBook, CodeFault>
        ensures book { IfOk result (λ b. b ≡ record { counts = counts.now; symbols = symbols.now }) }
        ensures valid { OnOk result (IsValidTable counts.now symbols.now) }
        ensures too_many { (result ≡ Err CodeFault.TooMany) ↔ HasTooMany counts.now symbols.now }
        ensures overfull { (result ≡ Err CodeFault.Overfull) ↔ (IsOverfull counts.now × ¬ HasTooMany counts.now symbols.now) }
    {
        let total = word_count(counts);
        if total > 256 || total as usize != symbols.len() {
            return Err(CodeFault::TooMany);
        }
        CodeBook::with_symbols(alloc, counts, symbols)
    }

    /// Returns the table of these counts and of one symbol for each code, for callers that have added up the counts.
    pub fn with_symbols(
        alloc: Global,
        counts: &[u8; 16],
        symbols: &[u8],
    ) -> Result<CodeBook, CodeFault>
        requires each { sum counts.now ≡ length symbols.now }
        requires few { length symbols.now ≤ 256 }
        ensures book { IfOk result (λ b. b ≡ record { counts = counts.now; symbols = symbols.now }) }
        ensures valid { OnOk result (IsValidTable counts.now symbols.now) }
        ensures enough { result ≢ Err CodeFault.TooMany }
        ensures overfull { (result ≡ Err CodeFault.Overfull) ↔ IsOverfull counts.now }
    {
        Ok(CodeBook::of(CodeTable::with_symbols(alloc, counts, symbols)?))
    }

    /// Asserts, for callers that rest on it, that the book is a valid table (T.81, Annex C).
    pub fn assert_invariant(&self)
        ensures { IsValidTable self.now.counts self.now.symbols }
    {
        let _ = &self.words;
    }

    /// Returns a copy of the table.
    pub fn try_clone(&self) -> Result<CodeBook, Memory>
        ensures { IfOk result (λ b. b ≡ self.now) }
    {
        Ok(CodeBook {
            words: self.words.try_clone()?,
            pairs: self.pairs,
        })
    }

    /// Returns the book of a table.
    pub(crate) fn of(table: CodeTable) -> CodeBook
        ensures { result ≡ table }
    {
        table.assert_invariant();
        let pairs = table.pairs();
        CodeBook {
            words: WordBook::of(table),
            pairs,
        }
    }

    /// For each eight bits the symbol and the length of the code of at most eight bits that begins them; `None` if
    /// there is none.
    pub fn entries(&self) -> &[Option<(u8, u8)>; 256]
        ensures { AreEntries self.now result.now }
    {
        self.words.entries()
    }

    /// Reads a code from the bits and returns its symbol (T.81, F.2.2.3, DECODE). If no code comes next, returns `None`
    /// and reads nothing.
    #[inline(always)]
    pub fn read(&self, bits: &mut Bits) -> Option<u8>
        ensures found { IfSome result (λ s. (word : List Bool) × IsWord self.now word s × (bits.old ≡ word ++ bits.new)) }
        // No code is a prefix of what is left.
        ensures none { IfNone result ((word rest : List Bool) (s : ℕ) → IsWord self.now word s → bits.old ≢ word ++ rest) }
        ensures unmoved { IfNone result (bits.new ≡ bits.old) }
        // Two codes of this table that begin the same bits are one code with one symbol.
        ensures one_word { IsPrefixFree self.now }
    {
        self.words.read(bits)
    }

    /// Reads a code, and the additional bits whose number is the low half of its symbol. Returns the symbol and
    /// the value of these bits (T.81, F.2.2.1 and F.2.2.2). If they do not come next, returns `None` and reads nothing.
    #[inline(always)]
    pub fn read_extended(&self, bits: &mut Bits) -> Option<(u8, i32)>
        ensures found { IfSome result (λ r. TakesExtended self.now r.0 r.1 bits.old bits.new) }
        ensures none { IfNone result (HasNoExtended self.now bits.old) }
        ensures unmoved { IfNone result (bits.new ≡ bits.old) }
    {
        self.words.read_extended(bits)
    }

    /// Reads an AC coefficient, or the end of a block (T.81, F.1.2.2): a code and its additional bits.
    /// If none comes next, returns `None` and reads nothing. It refills only if it must.
    #[inline(always)]
    pub fn read_places(&self, bits: &mut Bits) -> Option<Packed>
        ensures found { IfSome result (λ p. TakesPlaces self.now p bits.old bits.new) }
        ensures none { IfNone result (HasNoPlaces self.now bits.old) }
        ensures unmoved { IfNone result (bits.new ≡ bits.old) }
    {
        let code = self.pair(bits.register);
        if code.long() <= bits.register.count {
            bits.register = bits.register.after(code.long());
            return Some(code);
        }
        let register = bits.register.refilled();
        let code = self.rare_places(register.held, register.count)?;
        bits.register = register.after(code.long());
        Some(code)
    }

    /// Does what `read_places` does, with a refill that overlaps the look-up and suffices for four more coefficients, each
    /// held by a look-up.
    #[inline(always)]
    pub fn read_places_and_refill(&self, bits: &mut Bits) -> Option<Packed>
        ensures found { IfSome result (λ p. TakesPlaces self.now p bits.old bits.new) }
        ensures none { IfNone result (HasNoPlaces self.now bits.old) }
        ensures unmoved { IfNone result (bits.new ≡ bits.old) }
    {
        let next = self.pair(bits.register);
        let register = bits.register.refilled();
        if next.long() <= bits.register.count {
            bits.register = register.after(next.long());
            return Some(next);
        }
        let next = self.rare_places(register.held, register.count)?;
        bits.register = register.after(next.long());
        Some(next)
    }

    /// Looks up the next eleven bits, zeros instead of those that the register lacks. Returns the code that comes next
    /// and its additional bits if the register has them all.
    #[inline(always)]
    fn pair(&self, register: Register) -> Packed
        ensures front { (unpacked result).long ≤ register.entry.count → IsInFront self.now (unpacked result) register.entry.count (bits_in register.entry) }
        ensures goes { (unpacked result).long ≤ register.entry.count → GoesOn (unpacked result).symbol (places_in result) }
    {
        self.pairs[register.upper(LOOKED_UP as u32) as usize]
    }

    /// Reads an AC coefficient, or the end of a block, that one look-up does not hold.
    #[cold]
    #[inline(never)]
    fn rare_places(&self, held: u64, count: u32) -> Option<Packed>
        requires few { count < 64 }
        requires clean { held % 2 ^ (64 - count) ≡ 0 }
        ensures found { IfSome result (λ p. IsInFront self.now (unpacked p) count (upper_bits count held)) }
        ensures goes { IfSome result (λ p. GoesOn (unpacked p).symbol (places_in p)) }
        ensures none { IfNone result (HasNoPlaces self.now (upper_bits count held)) }
    {
        let both = self.words.rare_pair(held, count)?;
        let places = places_of(both.symbol)?;
        Some(Packed::of(both, places))
    }
}
