//! The codes of a code table, read with their additional bits, for functions that are inlined.

ghost use Rattle.std.specs.Prelude.{◌≡◌, ◌≢◌, ◌<◌, ◌≤◌, ◌-◌, ◌%◌, ◌^◌, ◌↔◌, ◌++◌, ℕ, List, Bool, IsTrue, [], IfSome, IfNone, IfOk, take};
ghost use Rattle.std.proofs.Common.{rules};
ghost use Rattle.std.specs.Cmp.Rules.{comparing};
ghost use Rattle.jr_code.specs.Code.{same_table, IsWord, IsValidTable, AreEntries, AreLong, IsFirstWordWhereWhole, HasNoFirstWord, TakesExtended, HasNoExtended, IsInFront, IsPrefixFree};
ghost use Rattle.jr_code.specs.Bits.{upper_bits};
ghost use Rattle.jr_code.specs.Register.{bits_in};

use crate::bits::Bits;
use crate::register::Register;
use crate::table::CodeTable;
use crate::words::Extended;
use jr_base::Memory;
use std::marker::Model;

/// A code table (T.81, Annex C), read by eight bits at once and, for longer codes, by length. DC coefficients are read
/// by it. Two are equal if their counts and symbols are.
#[derive(Drop)]
pub struct WordBook {
    table: CodeTable,
    /// By eight bits: the symbol and length of the code of at most eight bits that they begin with.
    entries: [Option<(u8, u8)>; 256],
    /// For each length from nine to sixteen bits: the least code, and the number of shorter codes.
    long: [(u32, u32); 8],
}

impl Model for WordBook {
    ghost use Rattle.jr_code.specs.Code.{Table, IsValidTable, AreEntries, AreLong};

    ghost Value = { Table };

    ghost view = { λ b. b.table };

    ghost invariant = { λ b. AreEntries b.table b.entries × AreLong b.table b.long × IsValidTable b.table.counts b.table.symbols };
}

impl PartialEq for WordBook {
    ghost eq = { same_table };

    ghost laws = { Prim.search (comparing, rules) };

    fn eq(&self, other: &WordBook) -> bool {
        self.table.is_same(&other.table)
    }
}

impl WordBook {
    /// Returns whether both have the same counts and symbols.
    pub fn is_same(&self, other: &WordBook) -> bool
        ensures reports { result ≡ same_table self.now other.now }
        ensures same { IsTrue result ↔ (self.now ≡ other.now) }
    {
        self.table.is_same(&other.table)
    }

    /// Asserts, for callers that rest on it, that the book is a valid table (T.81, Annex C).
    pub fn assert_invariant(&self)
        ensures { IsValidTable self.now.counts self.now.symbols }
    {
        let _ = &self.table;
    }

    /// Returns a copy of the table.
    pub fn try_clone(&self) -> Result<WordBook, Memory>
        ensures { IfOk result (λ b. b ≡ self.now) }
    {
        Ok(WordBook {
            table: self.table.try_clone()?,
            entries: self.entries,
            long: self.long,
        })
    }

    /// Returns the book of a table.
    pub(crate) fn of(table: CodeTable) -> WordBook
        ensures { result ≡ table }
    {
        table.assert_invariant();
        let entries = table.entries();
        let long = table.long();
        WordBook {
            table,
            entries,
            long,
        }
    }

    /// For each eight bits the symbol and the length of the code of at most eight bits that begins them; `None` if
    /// there is none.
    pub fn entries(&self) -> &[Option<(u8, u8)>; 256]
        ensures { AreEntries self.now result.now }
    {
        &self.entries
    }

    /// Reads a code from the bits and returns its symbol (T.81, F.2.2.3, DECODE). If no code comes next, returns `None`
    /// and reads nothing.
    #[inline(always)]
    pub fn read(&self, bits: &mut Bits) -> Option<u8>
        ensures found { IfSome result (λ s. (word : List Bool) × IsWord self.now word s × (bits.old ≡ word ++ bits.new)) }
        // No code is a prefix of what is left.
        ensures none { IfNone result ((word rest : List Bool) (s : ℕ) → IsWord self.now word s → bits.old ≢ word ++ rest) }
        ensures unmoved { IfNone result (bits.new ≡ bits.old) }
        // Two codes of this table that begin the same bits are one code with one symbol.
        ensures one_word { IsPrefixFree self.now }
    {
        let register = bits.register.refilled();
        if register.count >= 32
            && let Some((symbol, long)) = self.short_word(register)
        {
            bits.register = register.after(u32::from(long));
            return Some(symbol);
        }
        let (symbol, long) = self.rare_word(register.held, register.count)?;
        let count = u32::from(long);
        bits.register = register.after(count);
        Some(symbol)
    }

    /// Reads a code, and the additional bits whose number is the low half of its symbol. Returns the symbol and
    /// the value of these bits (T.81, F.2.2.1 and F.2.2.2). If they do not come next, returns `None` and reads nothing.
    #[inline(always)]
    pub fn read_extended(&self, bits: &mut Bits) -> Option<(u8, i32)>
        ensures found { IfSome result (λ r. TakesExtended self.now r.0 r.1 bits.old bits.new) }
        ensures none { IfNone result (HasNoExtended self.now bits.old) }
        ensures unmoved { IfNone result (bits.new ≡ bits.old) }
    {
        let register = bits.register.refilled();
        if register.count >= 32
            && let Some((symbol, long)) = self.short_word(register)
        {
            let mut rest = Bits {
                register: register.after(u32::from(long)),
            };
            let value = rest.extra(u32::from(symbol % 16))?;
            *bits = rest;
            return Some((symbol, value));
        }
        let both = self.rare_pair(register.held, register.count)?;
        let count = u32::from(both.long);
        let value = i32::from(both.value);
        bits.register = register.after(count);
        Some((both.symbol, value))
    }

    /// Returns the code that the first `count` bits of `held` begin with and its additional bits, long ones or ones
    /// near the end of all bits. By value, so that no address of a reader leaves its loop.
    #[cold]
    #[inline(never)]
    pub(crate) fn rare_pair(&self, held: u64, count: u32) -> Option<Extended>
        requires few { count < 64 }
        requires clean { held % 2 ^ (64 - count) ≡ 0 }
        ensures found { IfSome result (λ e. IsInFront self.now e count (upper_bits count held)) }
        ensures none { IfNone result (HasNoExtended self.now (upper_bits count held)) }
    {
        let (symbol, long) = self.rare_word(held, count)?;
        let register = Register {
            rest: &[],
            held,
            count,
        };
        let mut rest = Bits {
            register: register.after(u32::from(long)),
        };
        let size = symbol % 16;
        let count = u32::from(size);
        let value = rest.extra(count)?;
        Some(Extended {
            symbol,
            value: value as i16,
            long: long + size,
        })
    }

    /// Returns the code of at most eight bits that comes next.
    #[inline(always)]
    fn short_word(&self, register: Register) -> Option<(u8, u8)>
        requires { 32 ≤ register.count }
        ensures { IfSome result (λ f. (f.1 ≤ register.entry.count) × IsWord self.now (take f.1 (bits_in register.entry)) f.0) }
    {
        self.entries[register.first_bits(8) as usize]
    }

    /// Returns the code that the first `count` bits of `held` begin with, a long one or one near the end of all bits.
    /// In line with what it calls, since the results of calls go through memory.
    #[inline(always)]
    fn rare_word(&self, held: u64, count: u32) -> Option<(u8, u8)>
        requires few { count < 64 }
        requires clean { held % 2 ^ (64 - count) ≡ 0 }
        ensures found { IfSome result (λ f. (f.1 ≤ count) × IsWord self.now (take f.1 (upper_bits count held)) f.0) }
        ensures none { IfNone result (HasNoFirstWord self.now (upper_bits count held)) }
    {
        let register = Register {
            rest: &[],
            held,
            count,
        };
        let (symbol, long) = self.first_word(register)?;
        if u32::from(long) > count {
            return None;
        }
        Some((symbol, long))
    }

    /// Returns the code that comes next if there are enough bits; `None` if there are fewer.
    #[inline(always)]
    fn first_word(&self, register: Register) -> Option<(u8, u8)>
        requires { register.rest.now ≡ [] }
        ensures found { IfSome result (λ f. IsFirstWordWhereWhole self.now (bits_in register.entry) f.0 f.1) }
        ensures none { IfNone result (HasNoFirstWord self.now (bits_in register.entry)) }
    {
        match self.entries[register.window(8) as usize] {
            Some(word) => Some(word),
            None => self.table.long_word(&self.long, register.window(16) as u16),
        }
    }
}
