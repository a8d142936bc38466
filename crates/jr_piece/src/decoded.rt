//! The samples of an interval's longest decodable prefix.

ghost use Rattle.std.specs.Prelude.{◌≡◌, ℤ, List, [], IfOk, OnOk};
ghost use Rattle.jr_scan.specs.Speculations.{AreSpeculationsOf};
ghost use Rattle.jr_scan.specs.McuReader.{HasRead, HasEnded};
ghost use Rattle.jr_piece.specs.Outcome.{AreSamples, IsOutcome};

use crate::transforming::transform_blocks;
use jr_base::{Coefficients, Memory};
use jr_scan::{Interval, McuReader, Speculations};
use std::alloc::Global;
use std::array;

/// Number of blocks that are read before they are transformed: those of several MCUs, which are transformed two side by
/// side, and so few that they stay in a processor's own cache.
const BLOCKS: usize = 64;

/// The samples of an interval's longest prefix, and whether the prefix is its decoding.
#[derive(Drop)]
pub(crate) struct Decoded {
    pub is_sound: bool,
    pub front: u32,
    pub samples: Vec<[u8; 64]>,
}

/// Reads the whole MCUs of a run of which none is read, up to its end or to where none follows, and transforms their
/// blocks as they come; what the speculative reads have of them is taken over. `mcus` is about their number.
pub(crate) fn read_samples(
    alloc: Global,
    reader: &mut McuReader<'_>,
    speculations: &Speculations,
    mcus: usize,
) -> Result<Vec<[u8; 64]>, Memory>
    requires none { HasRead reader.old [] }
    requires new { reader.old.mcu ≡ 0 }
    requires same { AreSpeculationsOf reader.old.run.interval speculations.now }
    ensures run { OnOk result (reader.new.run ≡ reader.old.run) }
    ensures read { IfOk result (λ v. (zs : List (List ℤ)) × HasRead reader.new zs × AreSamples reader.new.run.interval.head zs v.items) }
    ensures ended { OnOk result (HasEnded reader.new) }
{
    let head = reader.interval().head();
    let per_mcu = head.order().len();
    let mut samples = Vec::with_capacity(alloc, mcus.saturating_mul(per_mcu))?;
    let mut blocks: [Coefficients; BLOCKS] = array::from_fn(|_| Coefficients::zeros());
    let empty = [[0; 64]; BLOCKS];
    'mcus: loop {
        let first = reader.mcus();
        let count = reader.read_by(speculations, &mut blocks) as usize * per_mcu;
        if count == 0 {
            return Ok(samples);
        }
        samples.extend_from_slice(&empty[..count])?;
        transform_blocks(head, first, &blocks[..count], &mut samples);
    }
}

/// Decodes an interval to the result that T.81 defines for it.
pub(crate) fn decode(alloc: Global, interval: &Interval) -> Result<Decoded, Memory>
    ensures { IfOk result (λ d. IsOutcome (record { interval = interval.now; is_sound = d.is_sound; front = d.front; samples = d.samples.items })) }
{
    let mut reader = McuReader::over(interval.as_ref());
    let samples = read_samples(
        alloc,
        &mut reader,
        &Speculations::none(),
        interval.most_mcus() as usize,
    )?;
    Ok(Decoded {
        is_sound: reader.is_sound(),
        front: reader.mcus(),
        samples,
    })
}
