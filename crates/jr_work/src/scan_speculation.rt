//! A speculative read of an interval of the scan.

ghost use Rattle.std.specs.Prelude.{◌≡◌, Some};
ghost use Rattle.jr_work.specs.Speculating.{AreSpeculations};

use crate::one_scan::OneScan;
use crate::window::BitWindow;
use jr_base::Memory;
use jr_scan::{FirstIntervals, Speculation, Speculations};
use std::alloc::Global;
use std::marker::{Model, PhantomData};
use std::sync::Arc;

/// The size of a buffer for a speculative read.
#[derive(Clone, Copy)]
pub struct BufferSize {
    /// Maximum number of MCUs.
    pub mcus: u32,
    /// Whether the blocks of MCUs are kept. If not, a reader can skip the MCUs, but not read them.
    pub keeps_blocks: bool,
}

impl BufferSize {
    /// Returns the size of a buffer for nothing.
    pub(crate) fn none() -> BufferSize {
        BufferSize {
            mcus: 0,
            keeps_blocks: false,
        }
    }
}

/// A speculative read of an interval of the scan, or a buffer for one. Several threads may read it.
#[derive(Drop)]
pub struct ScanSpeculation<S: OneScan> {
    speculation: Arc<Speculation>,
    of: PhantomData<S>,
}

impl<S: OneScan> Model for ScanSpeculation<S> {
    ghost use Rattle.std.specs.Arc.{arc_value};
    ghost use Rattle.jr_work.specs.Speculating.{HasSpeculationOf};
    ghost use Rattle.jr_scan.specs.Speculation.{SpeculationValue};

    ghost Value = { SpeculationValue };

    ghost view = { λ g. arc_value g.speculation };

    ghost invariant = { λ g. HasSpeculationOf S.part (arc_value g.speculation) };
}

impl<S: OneScan> ScanSpeculation<S> {
    /// Allocates a buffer of this size.
    pub fn open(
        alloc: Global,
        part: &FirstIntervals<'_>,
        size: BufferSize,
    ) -> Result<ScanSpeculation<S>, Memory>
        requires { S.part ≡ Some part.now }
    {
        let scan = part.scan();
        // By its contract a scan has an interval.
        let _some = scan.intervals();
        let Ok(speculation) = Speculation::open(
            alloc,
            &scan.interval_ref(0),
            size.mcus,
            size.keeps_blocks,
        ) else {
            return Err(Memory);
        };
        let Ok(speculation) = Arc::new(alloc, speculation) else {
            return Err(Memory);
        };
        Ok(ScanSpeculation {
            speculation,
            of: PhantomData,
        })
    }

    /// Returns whether no other thread reads it.
    pub(crate) fn is_unused(&self) -> bool {
        Arc::strong_count(&self.speculation) == 1
    }

    /// Returns whether one of its MCUs starts at this bit of an interval.
    pub(crate) fn has(&self, number: u32, bit: u64) -> bool {
        self.speculation.number() == number && self.speculation.find(bit).is_some()
    }

    /// Makes the speculative read of these bits.
    pub(crate) fn read(self, part: &FirstIntervals<'_>, window: BitWindow) -> ScanSpeculation<S>
        requires { S.part ≡ Some part.now }
    {
        let scan = part.scan();
        let mut speculation = self.speculation;
        if window.number < scan.intervals()
            && let Some(space) = Arc::get_mut(&mut speculation)
        {
            space.read(&scan.interval_ref(window.number), window.from, window.to);
        }
        ScanSpeculation {
            speculation,
            of: PhantomData,
        }
    }

    /// Adds this speculative read, if it is of the interval, to those of the interval.
    pub(crate) fn store_into(&self, number: u32, speculations: Speculations) -> Speculations
        requires { AreSpeculations S.part number speculations }
        ensures { AreSpeculations S.part number result }
    {
        if self.speculation.number() != number {
            return speculations;
        }
        match Arc::try_clone(&self.speculation) {
            Ok(speculation) => speculations.with(speculation),
            Err(_) => speculations,
        }
    }
}
