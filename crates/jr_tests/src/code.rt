//! Code tables that are copied, which no other crate does.

use jr_code::CodeBook;
use std::test::Fail;

/// The counts of the luminance DC table of T.81, Annex K.3.
const COUNTS: [u8; 16] = [0, 1, 5, 1, 1, 1, 1, 1, 1, 0, 0, 0, 0, 0, 0, 0];

#[test]
fn books_are_copied(rt: HostRuntime) -> Result<(), Fail> {
    let symbols = [0, 1, 2, 3, 4, 5, 6, 7, 8, 9, 10, 11];
    let book = CodeBook::new(rt.alloc(), &COUNTS, &symbols)?;
    assert!(rt; book.try_clone()? == book);
    Ok(())
}
