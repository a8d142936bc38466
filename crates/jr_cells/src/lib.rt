//! Cells that are set once, by which viewers find finished pieces and strips, and never wait for a decoder; and a desk that hands
//! out the numbers below a limit, each once, to seats that threads own.
//!
//! A look is one atomic load, and a claim one `fetch_add`; `hang` allocates a small box and makes one atomic exchange.
//! There is no lock, and no seat waits for another.
#![tactic(auto)]

mod cells;
mod claims;
mod once;
mod strip_cells;

pub use cells::{Cells, Sight};
pub use claims::{Desk, Drawn, Seat};
pub use strip_cells::{StripCells, StripSight};
