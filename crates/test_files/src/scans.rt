//! Scans of files.

use crate::files::file;
use jr_head::read_head;
use jr_scan::Scan;
use std::alloc::Global;
use std::sync::Arc;
use std::test::Fail;

/// Returns the scan of a file.
pub fn scan_of(alloc: Global, bytes: &[u8]) -> Result<Scan, Fail> {
    if bytes.len() > 1_000_000 {
        return Err(Fail::from("a file that is too long"));
    }
    let head = read_head(alloc, bytes)?;
    Ok(Scan::cut(alloc, head, bytes)?)
}

/// Returns the scan of a file, which several workers may share.
pub fn shared_scan(alloc: Global, bytes: &[u8]) -> Result<Arc<Scan>, Fail> {
    let scan = scan_of(alloc, bytes)?;
    match Arc::new(alloc, scan) {
        Ok(scan) => Ok(scan),
        Err(_) => Err(Fail::from("out of memory")),
    }
}

/// Returns the scan of a file in the notation of files.
pub fn scan(alloc: Global, words: &str) -> Result<Arc<Scan>, Fail> {
    match file(alloc, words) {
        Ok(bytes) => shared_scan(alloc, bytes.as_slice()),
        Err(_) => Err(Fail::from("a text that is not a file")),
    }
}
