//! The samples of one interval.

ghost use Rattle.std.specs.Prelude.{◌≡◌, ◌↔◌, IsTrue, IsOk, IfOk, IfErr, slice_get};
ghost use Rattle.std.specs.Option.{option_copied};
ghost use Rattle.jr_scan.specs.ScanValue.{HasInterval};
ghost use Rattle.jr_piece.specs.Outcome.{IsOutcome};
ghost use Rattle.jr_piece.specs.Strips.{AreInOrder, AreOf, ReportsEnd, shared_strips};

use crate::data_units::DataUnits;
use crate::decoded::decode;
use crate::order::{are_in_order, mcus_of_each};
use crate::strip::Strip;
use jr_scan::{Interval, Scan};
use std::alloc::Global;
use std::marker::Model;
use std::sync::Arc;

/// A decoded interval: it, and the samples of its longest decodable prefix of whole MCUs.
#[derive(Drop)]
pub struct Piece {
    interval: Interval,
    is_sound: bool,
    front: u32,
    samples: DataUnits,
}

impl Model for Piece {
    ghost use Rattle.jr_piece.specs.PieceValue.{PieceValue};

    ghost Value = { PieceValue };

    ghost view = { λ p. record { interval = p.interval; is_sound = p.is_sound; front = p.front; samples = p.samples } };

    ghost use Rattle.jr_piece.specs.Outcome.{IsOutcome};

    ghost invariant = { λ p. IsOutcome (record { interval = p.interval; is_sound = p.is_sound; front = p.front; samples = p.samples }) };
}

/// Why strips are not a piece: they are not all strips of their interval in order. They and the interval come back.
#[derive(Drop)]
pub struct OrderError {
    /// The interval.
    pub interval: Interval,
    /// The strips.
    pub strips: Vec<Arc<Strip>>,
}

impl Piece {
    /// Makes the piece of an interval. On `Err` memory ran out, and the interval is returned.
    pub fn make(alloc: Global, interval: Interval) -> Result<Piece, Interval>
        ensures ok { IfOk result (λ p. p.interval ≡ interval) }
        ensures outcome { IfOk result IsOutcome }
        ensures err { IfErr result (λ back. back ≡ interval) }
    {
        match decode(alloc, &interval) {
            Ok(decoded) => Ok(Piece {
                interval,
                is_sound: decoded.is_sound,
                front: decoded.front,
                samples: DataUnits::of_list(decoded.samples),
            }),
            Err(_) => Err(interval),
        }
    }

    /// Makes the piece of an interval that is decoded as strips. It allocates nothing, and copies no sample.
    ///
    /// The strips are in the order of their MCUs; all but the last have equally many, and the last ends at `front`.
    /// `Err` if they are not.
    pub fn of_strips(
        interval: Interval,
        strips: Vec<Arc<Strip>>,
        front: u32,
        is_sound: bool,
    ) -> Result<Piece, OrderError>
        requires of { AreOf interval (shared_strips strips.items) }
        requires reports { ReportsEnd interval front is_sound }
        ensures ok { IfOk result (λ p. p.interval ≡ interval) }
        ensures outcome { IfOk result IsOutcome }
        ensures order { AreInOrder front (shared_strips strips.items) → IsOk result }
        ensures interval { IfErr result (λ back. back.interval ≡ interval) }
        ensures strips { IfErr result (λ back. back.strips ≡ strips) }
    {
        if !are_in_order(strips.as_slice(), front) {
            return Err(OrderError { interval, strips });
        }
        let each = mcus_of_each(strips.as_slice()) as usize * interval.head().order().len();
        Ok(Piece {
            interval,
            is_sound,
            front,
            samples: DataUnits::of_strips(strips, each),
        })
    }

    /// Asserts that the piece has the result that T.81 defines for its interval.
    pub fn assert_invariant(&self)
        ensures { IsOutcome self.now }
    {
        let _ = &self.samples;
    }

    /// Returns the number of its interval.
    pub fn number(&self) -> u32
        ensures { result ≡ self.now.interval.number }
    {
        self.interval.number()
    }

    /// Returns whether its interval has a decoding.
    pub fn is_sound(&self) -> bool
        ensures { result ≡ self.now.is_sound }
    {
        self.is_sound
    }

    /// Returns the number of its whole MCUs.
    pub fn front(&self) -> u32
        ensures { result ≡ self.now.front }
    {
        self.front
    }

    /// Returns the samples of data unit k of the interval, `8 row + column`; `None` past its longest prefix.
    pub fn block(&self, k: u32) -> Option<&[u8; 64]>
        ensures { option_copied result ≡ slice_get self.now.samples k }
    {
        self.samples.get(k)
    }

    /// Returns whether its interval is this scan's interval of its number.
    pub fn is_for(&self, scan: &Scan) -> bool
        ensures { IsTrue result ↔ HasInterval scan.now self.now.interval }
    {
        scan.has(&self.interval)
    }
}
