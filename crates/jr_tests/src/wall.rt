//! Tests of cells, boards and views through public calls: what workers leave in them, and what viewers see of them.

mod cells;
mod damage;
mod glances;
mod helping;
mod long_views;
mod shown;
mod views;
mod watched;
