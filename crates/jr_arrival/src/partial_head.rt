//! The bytes of a file whose header has not arrived whole.

ghost use Rattle.std.specs.Prelude.{◌≡◌, ◌≢◌, ◌++◌, List, [], ℕ, IfOk, IfErr, IfSome, IfNone};
ghost use Rattle.jr_segments.specs.declared.refusal.Refusal.TheVariants as refusal;
ghost use Rattle.jr_head.specs.Heads.{HeadOf, RefusalOf};
ghost use Rattle.jr_arrival.specs.Arrival.{IsFinalFault};
ghost use Rattle.jr_arrival.specs.Settled.{WantsMore};

use crate::head::head_of;
use jr_base::Memory;
use jr_head::{Head, HeadReader};
use jr_segments::Refusal;
use std::alloc::Global;
use std::marker::Model;
use std::mem;

/// The bytes that have arrived of a file, and a reader of its header, which reads each segment once.
#[derive(Drop)]
pub(crate) struct PartialHead {
    bytes: Vec<u8>,
    reader: HeadReader,
}

impl Model for PartialHead {
    ghost use Rattle.std.specs.Prelude.{List, ℕ};
    ghost use Rattle.jr_head.specs.HeadReader.{ReadsHead};

    ghost Value = { List ℕ };

    ghost view = { λ h. h.bytes.items };

    ghost invariant = { λ h. ReadsHead h.bytes.items h.reader };
}

impl PartialHead {
    /// Returns the header of a file of which nothing has arrived.
    pub(crate) fn new(alloc: Global) -> PartialHead
        ensures { result ≡ [] }
    {
        PartialHead {
            bytes: Vec::new(alloc),
            reader: HeadReader::new(),
        }
    }

    /// Appends bytes that have arrived. On `Err` none is taken.
    pub(crate) fn push(&mut self, more: &[u8]) -> Result<(), Memory>
        ensures pushed { IfOk result (λ _. self.new ≡ self.old ++ more.now) }
        ensures memory { IfErr result (λ _. self.new ≡ self.old) }
    {
        self.bytes.extend_from_slice(more)?;
        Ok(())
    }

    /// Returns the bytes that have arrived.
    pub(crate) fn bytes(&self) -> &[u8]
        ensures { result.now ≡ self.now }
    {
        &self.bytes
    }

    /// Reads on, and returns the header of every file that the bytes can become, or `None` if more are needed.
    ///
    /// # Errors
    ///
    /// The refusal of every such file. `Memory` if allocation fails; it says nothing about the bytes.
    pub(crate) fn read(&mut self, alloc: Global) -> Result<Option<Head>, Refusal>
        ensures head { IfOk result (λ o. IfSome o (HeadOf self.old)) }
        ensures wanted { IfOk result (λ o. IfNone o (WantsMore self.old)) }
        ensures refusal { IfErr result (λ f. f ≢ refusal.Memory → RefusalOf self.old f) }
        ensures stays { IfErr result (IsFinalFault self.old) }
        ensures kept { self.new ≡ self.old }
    {
        let reader = mem::replace(&mut self.reader, HeadReader::new());
        let (reader, head) = reader.read_on(alloc, &self.bytes);
        self.reader = reader;
        head_of(&self.bytes, head)
    }
}
