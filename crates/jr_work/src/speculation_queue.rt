//! Speculative reads ahead of a reader of a scan, and buffers for them.

ghost use Rattle.std.specs.Prelude.{◌≡◌, ◌*◌, ◌/◌, ◌<◌, Some, IfOk, length};
ghost use Rattle.jr_scan.specs.ScanValue.{interval_of};
ghost use Rattle.jr_scan.specs.Speculations.{AreSpeculationsOf};
ghost use Rattle.jr_work.specs.declared.tuning.TheConstants.{MIN_BITS_OF_READ};

use crate::one_scan::OneScan;
use crate::scan_speculation::{BufferSize, ScanSpeculation};
use crate::speculation_slot::SpeculationSlot;
use crate::speculation_task::SpeculationTask;
use crate::tuning::{MIN_BITS_OF_READ, SPARE_PART_OF_STEP};
use crate::window::{BitWindow, bits_of};
use jr_base::Memory;
use jr_scan::{FirstIntervals, Scan, Speculations};
use std::alloc::Global;

/// Returns the number of speculative reads for which an interval's data have bits.
pub fn windows_of(scan: &Scan, number: u32) -> u64
    requires { number < length scan.now.intervals }
    ensures { result ≡ 8 * length (interval_of scan.now number).bytes / MIN_BITS_OF_READ }
{
    scan.interval_ref(number).bytes().len() as u64 * 8 / MIN_BITS_OF_READ
}

/// Returns the number of bits of `mcus` MCUs of an interval, if all have equally many, but at least those of a
/// speculative read.
fn bits_of_step(scan: &Scan, number: u32, mcus: u32) -> u64 {
    if number >= scan.intervals() {
        return MIN_BITS_OF_READ;
    }
    let steps = u64::from(scan.interval_ref(number).mcus() / mcus.max(1));
    (bits_of(scan, number) / steps.max(1)).max(MIN_BITS_OF_READ)
}

/// Speculative reads ahead of a reader that reads the scan's intervals one after the other, some MCUs at a step.
/// Threads make them outside of the lock that guards the queue.
#[derive(Drop)]
pub struct SpeculationQueue<S: OneScan> {
    /// Number of the interval after the last one that is read.
    limit: u32,
    slots: Vec<SpeculationSlot<S>>,
    /// Number of buffers that no thread brings yet.
    lacking: u32,
    /// Size of a buffer.
    size: BufferSize,
    /// Position of the reader: its interval and bit.
    at: (u32, u64),
    /// Start of the next speculative read.
    next: (u32, u64),
    /// Bits of the last step that lay in one interval.
    step_bits: u64,
}

impl<S: OneScan> SpeculationQueue<S> {
    /// Opens a queue of at most `speculations` speculative reads of the intervals starting at `first` and before `limit`, for
    /// which threads bring buffers of this size. The reader is at the start, and its steps are of `step` MCUs. A
    /// speculative read has about the bits of one step, so its buffer holds more.
    ///
    /// # Errors
    ///
    /// `Memory` if allocation fails.
    pub fn open(
        alloc: Global,
        part: &FirstIntervals<'_>,
        first: u32,
        limit: u32,
        speculations: u32,
        step: u32,
        size: BufferSize,
    ) -> Result<SpeculationQueue<S>, Memory>
        ensures { IfOk result (λ q. q.at ≡ (first, 0)) }
    {
        Ok(SpeculationQueue {
            limit,
            slots: Vec::with_capacity(alloc, speculations as usize)?,
            lacking: speculations,
            size,
            at: (first, 0),
            next: (first, 0),
            step_bits: bits_of_step(part.scan(), first, step),
        })
    }

    /// Returns a queue of no speculative reads.
    pub fn none(alloc: Global) -> SpeculationQueue<S>
        ensures { result.at ≡ (0, 0) }
    {
        let start = (0, 0);
        SpeculationQueue {
            limit: 0,
            slots: Vec::new(alloc),
            lacking: 0,
            size: BufferSize::none(),
            at: start,
            next: start,
            step_bits: MIN_BITS_OF_READ,
        }
    }

    /// Returns whether one more buffer is of use: no thread brings one yet, and there are bits to read ahead.
    pub(crate) fn wants_space(&self, part: &FirstIntervals<'_>) -> bool {
        self.lacking > 0 && self.next_window(part).is_some()
    }

    /// Returns the size of a buffer that a thread is to bring; `None` if there are all buffers, or others
    /// bring them.
    pub(crate) fn lacks_space(&mut self) -> Option<BufferSize>
        ensures { self.new.at ≡ self.old.at }
    {
        if self.lacking == 0 {
            return None;
        }
        self.lacking -= 1;
        Some(self.size)
    }

    /// Takes one more buffer, which a thread brings.
    pub(crate) fn bring(&mut self, space: ScanSpeculation<S>)
        ensures { self.new.at ≡ self.old.at }
    {
        drop(self.slots.push(SpeculationSlot::of(space)));
    }

    /// Takes a buffer, once no speculative read is made any more.
    pub(crate) fn spare(&mut self) -> Option<SpeculationSlot<S>>
        ensures { self.new.at ≡ self.old.at }
    {
        self.slots.pop()
    }

    /// Notes that the reader is at this bit of an interval.
    pub fn reach(&mut self, part: &FirstIntervals<'_>, number: u32, bit: u64)
        ensures { self.new.at ≡ (number, bit) }
    {
        let bits = if number == self.at.0 {
            bit.saturating_sub(self.at.1)
        } else if self.at.1 == 0 {
            bits_of(part.scan(), self.at.0)
        } else {
            0
        };
        if bits > 0 {
            self.step_bits = bits.max(MIN_BITS_OF_READ);
        }
        self.at = (number, bit);
    }

    /// Returns the number of the interval in which the reader is.
    pub fn number(&self) -> u32
        ensures { result ≡ self.now.at.0 }
    {
        self.at.0
    }

    /// Returns a bit near the end of the next step, if it is as long as the last one; `None` if the data end before.
    fn next_end(&self, part: &FirstIntervals<'_>) -> Option<u64> {
        let end = self.at.1.saturating_add(self.step_bits);
        if end < bits_of(part.scan(), self.at.0) {
            Some(end)
        } else {
            None
        }
    }

    /// Returns whether a speculative read has an MCU that starts where the reader is, and one covers the end of its
    /// next step: then the step needs no reading.
    pub(crate) fn has_next(&self, part: &FirstIntervals<'_>) -> bool {
        let (number, bit) = self.at;
        let has_end = match self.next_end(part) {
            Some(end) => self.slots.iter().any(|slot| slot.is_ready(number, end)),
            None => true,
        };
        has_end && self.slots.iter().any(|slot| slot.has(number, bit))
    }

    /// Returns whether a thread makes a speculative read that can serve the reader's next step.
    pub fn makes_next(&self, part: &FirstIntervals<'_>) -> bool {
        let (number, bit) = self.at;
        let end = self.next_end(part).unwrap_or(bit);
        self.slots.iter().any(|slot| slot.is_made(number, bit) || slot.is_made(number, end))
    }

    /// Returns a slot that is free for another speculative read.
    fn free_slot(&self) -> Option<usize> {
        let (number, bit) = self.at;
        self.slots.iter().position(|slot| slot.is_free(number, bit))
    }

    /// Returns the bits of the next speculative read: after all other reads and the reader's next step, as long as the
    /// last step, and longer by up to `SPARE_PART_OF_STEP` if the interval ends there.
    fn next_window(&self, part: &FirstIntervals<'_>) -> Option<BitWindow> {
        let (number, bit) = self
            .next
            .max((self.at.0, self.at.1.saturating_add(self.step_bits)));
        let (number, from) = if bit < bits_of(part.scan(), number) {
            (number, bit)
        } else {
            (number.saturating_add(1), 0)
        };
        if number >= self.limit {
            return None;
        }
        let all = bits_of(part.scan(), number);
        let to = from.saturating_add(self.step_bits);
        let is_last = to.saturating_add(self.step_bits / SPARE_PART_OF_STEP) >= all;
        Some(BitWindow {
            number,
            from,
            to: if is_last { all } else { to },
        })
    }

    /// Returns whether another speculative read can be made.
    pub(crate) fn can_speculate(&self, part: &FirstIntervals<'_>) -> bool {
        self.free_slot().is_some() && self.next_window(part).is_some()
    }

    /// Takes the next speculative read, for a thread to make.
    pub fn take(&mut self, part: &FirstIntervals<'_>) -> Option<SpeculationTask<S>>
        ensures { self.new.at ≡ self.old.at }
    {
        let (Some(place), Some(window)) = (self.free_slot(), self.next_window(part)) else {
            return None;
        };
        self.next = (window.number, window.to);
        let Some(slot) = self.slots.get_mut(place) else {
            return None;
        };
        let Some(speculation) = slot.take(window) else {
            return None;
        };
        Some(SpeculationTask {
            place,
            window,
            speculation,
        })
    }

    /// Keeps a speculative read that is made.
    pub(crate) fn store(&mut self, made: SpeculationTask<S>)
        ensures { self.new.at ≡ self.old.at }
    {
        let SpeculationTask {
            place,
            speculation,
            ..
        } = made;
        if let Some(slot) = self.slots.get_mut(place) {
            slot.store(speculation);
        }
    }

    /// Returns the speculative reads for the next step of a reader in interval `number`, if it is longer than the last one
    /// by at most `SPARE_PART_OF_STEP`; none if the reader is not there.
    pub fn for_next(&self, part: &FirstIntervals<'_>, number: u32) -> Speculations
        requires { S.part ≡ Some part.now }
        ensures { AreSpeculationsOf (interval_of part.now.scan number) result }
    {
        let (at, bit) = self.at;
        let to = bit.saturating_add(
            self.step_bits
                .saturating_add(self.step_bits / SPARE_PART_OF_STEP),
        );
        let mut speculations = Speculations::none();
        if at != number {
            return speculations;
        }
        for slot in &self.slots {
            if slot.is_between(number, bit, to) {
                speculations = slot.store_into(number, speculations);
            }
        }
        speculations
    }
}
