//! Code tables of a JPEG file (T.81, Annex C) and the bits that they read (Annex F).
#![tactic(auto)]

mod bits;
mod book;
mod laws;
mod packed;
mod register;
mod table;
mod word_book;
mod words;

pub use bits::Bits;
pub use book::CodeBook;
pub use jr_base::Memory;
pub use laws::{each_place_has_a_word, one_word, same_table_reads};
pub use packed::Packed;
pub use table::{CodeFault, CodeTable, word_count};
pub use word_book::WordBook;
