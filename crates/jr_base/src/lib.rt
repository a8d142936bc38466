//! What the crates of jri share: out of memory, limits, the codes of markers, readers and writers that note whether they
//! failed, texts for terminals, and the coefficients and quantisers of data units (T.81, A.3.3, A.3.4).
#![tactic(auto)]

mod coefficients;
pub mod limits;
pub mod marker;
mod memory;
mod printable;
mod quantisers;
mod tally;
mod version;
mod writing;
mod zigzag;

pub use coefficients::Coefficients;
pub use memory::Memory;
pub use printable::Printable;
pub use quantisers::{MAX_PRODUCT, Quantisers};
pub use tally::Tally;
pub use version::VERSION;
pub use writing::{WriteFault, write_all};
