//! An interval whose data are in its scan.

ghost use Rattle.std.specs.Prelude.{◌≡◌, ◌<◌, ◌^◌, length};
ghost use Rattle.jr_head.specs.Geometry.{IsValid};

use jr_head::Head;
use std::marker::Model;

/// A restart interval of which the header and the data are borrowed. It uses no memory of its own.
#[derive(Drop)]
pub struct IntervalRef<'a> {
    head: &'a Head,
    bytes: &'a [u8],
    number: u32,
    mcus: u32,
}

impl<'a> Model for IntervalRef<'a> {
    ghost use Rattle.jr_scan.specs.IntervalValue.{IntervalValue, IsIntervalRef};

    ghost Value = { IntervalValue };

    ghost view = { λ i. record { number = i.number; mcus = i.mcus; bytes = i.bytes.now; head = i.head.now } };

    ghost invariant = { λ i. IsIntervalRef (record { number = i.number; mcus = i.mcus; bytes = i.bytes.now; head = i.head.now }) };
}

impl<'a> IntervalRef<'a> {
    /// Makes interval `number` of a scan with this header, by the number of MCUs that it codes and its data without
    /// stuffing.
    pub fn of(head: &'a Head, bytes: &'a [u8], number: u32, mcus: u32) -> IntervalRef<'a>
        requires { length bytes.now < 2 ^ 61 }
        ensures { result ≡ record { number = number; mcus = mcus; bytes = bytes.now; head = head.now } }
    {
        head.assert_invariant();
        IntervalRef {
            head,
            bytes,
            number,
            mcus,
        }
    }

    /// Returns another reference to the same interval.
    pub fn fork(&self) -> IntervalRef<'a>
        ensures { result ≡ self.now }
    {
        IntervalRef {
            head: self.head,
            bytes: self.bytes,
            number: self.number,
            mcus: self.mcus,
        }
    }

    /// Returns the interval's number in its scan, from 0.
    pub fn number(&self) -> u32
        ensures { result ≡ self.now.number }
    {
        self.number
    }

    /// Returns the number of MCUs that the interval codes.
    pub fn mcus(&self) -> u32
        ensures { result ≡ self.now.mcus }
    {
        self.mcus
    }

    /// Returns the interval's data, without stuffing.
    pub fn bytes(&self) -> &'a [u8]
        ensures bytes { result.now ≡ self.now.bytes }
        ensures few { length result.now < 2 ^ 61 }
    {
        self.bytes
    }

    /// Returns the header by which the interval is read.
    pub fn head(&self) -> &'a Head
        ensures value { result.now ≡ self.now.head }
        ensures valid { IsValid result.now }
    {
        self.head
    }
}
