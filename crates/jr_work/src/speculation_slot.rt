//! A slot for a speculative read in a queue of them.

ghost use Rattle.std.specs.Prelude.{◌≡◌};
ghost use Rattle.jr_work.specs.Speculating.{AreSpeculations};

use crate::one_scan::OneScan;
use crate::scan_speculation::ScanSpeculation;
use crate::window::BitWindow;
use jr_scan::Speculations;
use std::mem::replace;

/// The buffer of a speculative read, and the bits that it covers.
#[derive(Drop)]
pub struct SpeculationSlot<S: OneScan> {
    window: BitWindow,
    /// None while a thread makes it.
    speculation: Option<ScanSpeculation<S>>,
}

impl<S: OneScan> SpeculationSlot<S> {
    /// Returns a slot with this buffer.
    pub(crate) fn of(speculation: ScanSpeculation<S>) -> SpeculationSlot<S> {
        SpeculationSlot {
            window: BitWindow::none(),
            speculation: Some(speculation),
        }
    }

    /// Returns whether another speculative read can be made here, if what lies before this bit of an interval is of no
    /// more use.
    pub(crate) fn is_free(&self, number: u32, bit: u64) -> bool {
        self.window.is_before(number, bit)
            && self
                .speculation
                .as_ref()
                .is_some_and(|speculation| speculation.is_unused())
    }

    /// Returns whether it covers this bit of an interval, and one of its MCUs starts there.
    pub(crate) fn has(&self, number: u32, bit: u64) -> bool {
        self.window.has(number, bit)
            && self
                .speculation
                .as_ref()
                .is_some_and(|speculation| speculation.has(number, bit))
    }

    /// Returns whether it is made, and covers this bit of an interval.
    pub(crate) fn is_ready(&self, number: u32, bit: u64) -> bool {
        self.speculation.is_some() && self.window.has(number, bit)
    }

    /// Returns whether a thread makes it, and it covers this bit of an interval.
    pub(crate) fn is_made(&self, number: u32, bit: u64) -> bool {
        self.speculation.is_none() && self.window.has(number, bit)
    }

    /// Returns whether it covers a bit of an interval in `from..to`.
    pub(crate) fn is_between(&self, number: u32, from: u64, to: u64) -> bool {
        !self.window.is_before(number, from)
            && self.window.number == number
            && self.window.from < to
    }

    /// Takes the buffer for a speculative read of these bits.
    pub(crate) fn take(&mut self, window: BitWindow) -> Option<ScanSpeculation<S>> {
        self.window = window;
        self.speculation.take()
    }

    /// Keeps a speculative read that is made.
    pub(crate) fn store(&mut self, speculation: ScanSpeculation<S>) {
        drop(replace(&mut self.speculation, Some(speculation)));
    }

    /// Adds the speculative read of this slot, if it is of the interval, to those of the interval.
    pub(crate) fn store_into(&self, number: u32, speculations: Speculations) -> Speculations
        requires { AreSpeculations S.part number speculations }
        ensures { AreSpeculations S.part number result }
    {
        match &self.speculation {
            Some(speculation) => speculation.store_into(number, speculations),
            None => speculations,
        }
    }
}
