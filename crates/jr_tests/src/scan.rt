//! Scans: their restart intervals and the blocks of each, compared with a plain reader, and speculative reads.

mod by_definition;
mod speculations;
