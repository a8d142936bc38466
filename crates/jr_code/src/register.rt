//! The bits of a byte slice, by way of a register that is refilled by whole words.

ghost use Rattle.std.specs.Prelude.{◌≡◌, ◌<◌, ◌≤◌, ◌+◌, ◌-◌, ◌*◌, ◌/◌, ◌%◌, ◌^◌, ◌⊎◌, ◌↔◌, length, IsSome, IfSome, drop, take, [], ◌∷◌, ◌++◌, ℕ};
ghost use Rattle.jr_code.specs.Bits.{bits, bits_of, number, window_of};

/// The first `count` bits of `held`, which has zeros after them, and then those of `rest`.
#[derive(Clone, Copy)]
pub(crate) struct Register<'a> {
    pub(crate) rest: &'a [u8],
    pub(crate) held: u64,
    pub(crate) count: u32,
    ghost few: { count < 64 },
    ghost clean: { held % 2 ^ (64 - count) ≡ 0 },
    ghost within: { 8 * length rest.now + count < 2 ^ 64 },
}

impl<'a> Register<'a> {
    ghost use Rattle.jr_code.specs.Register.{bits_in};

    /// Returns a register of all bits of the bytes.
    pub(crate) fn over(rest: &'a [u8]) -> Register<'a>
        requires { length rest.now < 2 ^ 61 }
        ensures { bits_in result ≡ bits rest.now }
    {
        Register {
            rest,
            held: 0,
            count: 0,
        }
    }

    /// Returns the number of bits left.
    #[inline(always)]
    pub(crate) fn left(self) -> u64
        ensures { result ≡ length (bits_in self.entry) }
    {
        8 * self.rest.len() as u64 + u64::from(self.count)
    }

    /// Returns the same bits with at least 56 of them, or all that are left, in the register, and no fewer than before.
    /// It does not branch on the number of bits in the register, which no processor predicts.
    #[inline(always)]
    pub(crate) fn refilled(self) -> Register<'a>
        ensures same { bits_in result ≡ bits_in self.entry }
        ensures full { (56 ≤ result.count) ⊎ (result.rest.now ≡ []) }
        ensures more { self.entry.count ≤ result.count }
    {
        let Some(word) = first_word(self.rest) else {
            return self.ended();
        };
        let bytes = (63 - self.count) / 8;
        Register {
            rest: &self.rest[bytes as usize..],
            held: with_bytes(self.held, self.count, word),
            count: self.count % 8 + 56,
        }
    }

    /// Returns the same bits with at least 56 of them, or all, in the register: at most seven bytes follow.
    #[inline(always)]
    fn ended(self) -> Register<'a>
        requires { length self.rest.now < 8 }
        ensures same { bits_in result ≡ bits_in self.entry }
        ensures full { (56 ≤ result.count) ⊎ (result.rest.now ≡ []) }
        ensures more { self.entry.count ≤ result.count }
    {
        let bytes = ((63 - self.count) / 8).min(self.rest.len() as u32);
        if bytes == 0 {
            return self;
        }
        let (first, rest) = self.rest.split_at(bytes as usize);
        let count = self.count + 8 * bytes;
        let number = followed(self.held >> 8 >> (56 - self.count), first);
        Register {
            rest,
            held: number << (64 - count),
            count,
        }
    }

    /// Returns the same bits with the next `n` in the register, or `None` if fewer are left.
    #[inline(always)]
    pub(crate) fn with(self, n: u32) -> Option<Register<'a>>
        requires { n ≤ 32 }
        ensures found { IsSome result ↔ (n ≤ length (bits_in self.entry)) }
        ensures same { IfSome result (λ r. bits_in r ≡ bits_in self.entry) }
        ensures held { IfSome result (λ r. n ≤ r.count) }
    {
        if n <= self.count {
            return Some(self);
        }
        let register = self.refilled();
        if n <= register.count {
            Some(register)
        } else {
            None
        }
    }

    /// Returns the number of the first n bits of `held`.
    #[inline(always)]
    pub(crate) fn upper(self, n: u32) -> u64
        requires { n ≤ 16 }
        ensures number { result ≡ self.entry.held / 2 ^ (64 - n) }
        ensures small { result < 2 ^ n }
    {
        self.held >> 32 >> (32 - n)
    }

    /// Returns the number of the next n bits.
    #[inline(always)]
    pub(crate) fn first_bits(self, n: u32) -> u64
        requires short { n ≤ 16 }
        requires held { n ≤ self.count }
        ensures number { result ≡ number (take n (bits_in self.entry)) }
        ensures small { result < 2 ^ n }
    {
        self.upper(n)
    }

    /// Returns the number of the next n bits, with zeros for those that are missing.
    #[inline(always)]
    pub(crate) fn window(self, n: u32) -> u64
        requires short { n ≤ 16 }
        requires all { self.rest.now ≡ [] }
        ensures front { bits_of n result ≡ window_of n (bits_in self.entry) }
        ensures small { result < 2 ^ n }
    {
        self.upper(n)
    }

    /// Returns the bits after the next n.
    #[inline(always)]
    pub(crate) fn after(self, n: u32) -> Register<'a>
        requires { n ≤ self.count }
        ensures { bits_in result ≡ drop n (bits_in self.entry) }
    {
        Register {
            rest: self.rest,
            held: self.held << n,
            count: self.count - n,
        }
    }
}

/// Returns a register's number with the first bytes of a word after its first `count` bits: the whole bytes that fit into
/// 63 bits.
#[inline(always)]
fn with_bytes(held: u64, count: u32, word: u64) -> u64
    requires few { count < 64 }
    requires clean { held % 2 ^ (64 - count) ≡ 0 }
    ensures { result ≡ held + word / 2 ^ (count + (8 - count % 8)) * 2 ^ (8 - count % 8) }
{
    let unused = 8 - count % 8;
    held | word >> count >> unused << unused
}

/// Returns the number of the first eight bytes, the first counting most, or `None` if there are fewer.
#[inline(always)]
fn first_word(bytes: &[u8]) -> Option<u64>
    ensures some { IfSome result (λ word. bits_of 64 word ++ bits (drop 8 bytes.now) ≡ bits bytes.now) }
    ensures long { IsSome result ↔ (8 ≤ length bytes.now) }
{
    let &[a, b, c, d, e, f, g, h, ..] = bytes else {
        return None;
    };
    Some(u64::from_be_bytes([a, b, c, d, e, f, g, h]))
}

/// Returns a number with the last bytes of a slice after it. By value, so that no address of a reader leaves its loop.
#[cold]
#[inline(never)]
fn followed(held: u64, bytes: &[u8]) -> u64
    requires { length bytes.now < 8 }
    ensures { (count : ℕ) → count + 8 * length bytes.now ≤ 64 → bits_of (count + 8 * length bytes.now) result ≡ bits_of count held ++ bits bytes.now }
{
    let mut held = held;
    for &byte in bytes {
        held = (held << 8) | u64::from(byte);
    }
    held
}
