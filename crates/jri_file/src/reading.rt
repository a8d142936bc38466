//! The input, part by part: its bytes, and a scan that is cut while they come.

ghost use Rattle.std.specs.Prelude.{◌≡◌, ◌≢◌, ◌≤◌, ◌<◌, ℕ, List, length, vec_len, IfOk, OnOk, OnErr, IfErr, true, false};
ghost use Rattle.std.specs.Io.{ReadsAtMost};
ghost use Rattle.std.specs.Io.KnownBytes.{Consumes, IsAtEnd, ReadConsumes, prepend_known};
ghost use Rattle.jr_base.specs.Tally.{has_failed, known_in};
ghost use Rattle.jr_scan.specs.PartialScan.{HasCome};
ghost use Rattle.jri_file.specs.Files.{IsUnread};
ghost use Rattle.jri_file.specs.Reading.{CutsOn};

use jr_base::Tally;
use jr_base::limits::MAX_FILE_BYTES;
use jr_picture::Fault;
use jr_scan::PartialScan;
use std::alloc::Global;
use std::io::Read;

/// One byte more than a file may have.
pub(crate) const TOO_MANY: usize = MAX_FILE_BYTES + 1;

/// Number of bytes that are requested of the input at once.
pub(crate) const PART: usize = 65_536;

/// Maximum number of bytes of the first reads: `PART` of them are enough.
pub(crate) const MAX_FIRST: usize = 2 * PART;

/// Reads some bytes of the input. Returns their number, 0 at its end.
fn read_part<R: Read>(input: &mut Tally<R>, part: &mut [u8]) -> Result<usize, Fault>
    requires { has_failed input.old ≡ false }
    ensures within { ReadsAtMost result part.new }
    ensures read { ReadConsumes (known_in R.remaining input.old) (known_in R.remaining input.new) result part.new }
    ensures unfailed { OnOk result (has_failed input.new ≡ false) }
    ensures failed { OnErr result (has_failed input.new ≡ true) }
    ensures fault { IfErr result (λ fault. fault ≡ Fault.Read) }
{
    match input.read(part) {
        Ok(count) => Ok(count),
        Err(_) => Err(Fault::Read),
    }
}

/// Allocates the space for reads of at most `size` bytes.
fn open_space(alloc: Global, size: usize) -> Result<Vec<u8>, Fault>
    ensures size { IfOk result (λ space. length space.items ≡ size) }
    ensures fault { IfErr result (λ fault. fault ≡ Fault.Memory) }
{
    let Ok(space) = vec![in alloc; 0; size] else {
        return Err(Fault::Memory);
    };
    Ok(space)
}

/// Does what `read_more` does, by reads into the space.
fn read_parts<R: Read>(
    input: &mut Tally<R>,
    space: &mut [u8],
    bytes: &mut Vec<u8>,
    enough: usize,
    limit: usize,
) -> Result<(), Fault>
    requires unfailed { has_failed input.old ≡ false }
    requires space { 0 < length space.old }
    requires few { vec_len bytes.old ≤ limit }
    requires within { enough ≤ limit }
    ensures read { IfOk result (λ _. Consumes (prepend_known bytes.old.items (known_in R.remaining input.old)) (known_in R.remaining input.new) bytes.new.items) }
    ensures few { IfOk result (λ _. vec_len bytes.new ≤ limit) }
    ensures end { IfOk result (λ _. vec_len bytes.new < enough → IsAtEnd (known_in R.remaining input.new)) }
    ensures failed { result ≡ Err Fault.Read → has_failed input.new ≡ true }
    ensures unfailed { result ≢ Err Fault.Read → has_failed input.new ≡ false }
    ensures fault { IfErr result IsUnread }
{
    'parts: while bytes.len() < enough {
        let wanted = (limit - bytes.len()).min(space.len());
        let part = &mut space[..wanted];
        let count = read_part(input, part)?;
        if count == 0 {
            return Ok(());
        }
        if bytes.extend_from_slice(&part[..count]).is_err() {
            return Err(Fault::Memory);
        }
    }
    Ok(())
}

/// Appends more of the input to the bytes, to its end or until there are `enough`, and never more than `limit`. Any error ends it,
/// also an interrupted call.
///
/// A read has space for `PART` bytes while the bytes are as far from `limit`: a pipe of packets drops what has no space.
/// That space is on the heap, where what is allocated later uses it again.
pub(crate) fn read_more<R: Read>(
    alloc: Global,
    input: &mut Tally<R>,
    bytes: &mut Vec<u8>,
    enough: usize,
    limit: usize,
) -> Result<(), Fault>
    requires unfailed { has_failed input.old ≡ false }
    requires few { vec_len bytes.old ≤ limit }
    requires within { enough ≤ limit }
    ensures read { IfOk result (λ _. Consumes (prepend_known bytes.old.items (known_in R.remaining input.old)) (known_in R.remaining input.new) bytes.new.items) }
    ensures few { IfOk result (λ _. vec_len bytes.new ≤ limit) }
    ensures end { IfOk result (λ _. vec_len bytes.new < enough → IsAtEnd (known_in R.remaining input.new)) }
    ensures failed { result ≡ Err Fault.Read → has_failed input.new ≡ true }
    ensures unfailed { result ≢ Err Fault.Read → has_failed input.new ≡ false }
    ensures fault { IfErr result IsUnread }
{
    let mut space = open_space(alloc, PART)?;
    read_parts(input, &mut space, bytes, enough, limit)
}

/// Cuts the scan of a file of which `before` bytes have come, while the others are read: to the file's end, or until
/// they are one more than a file may have. Returns the number of bytes that have come. A function of its own, so that
/// only a large file uses the stack for a part.
#[inline(never)]
pub(crate) fn cut_on<R: Read>(
    input: &mut Tally<R>,
    scan: &mut PartialScan,
    before: usize,
) -> Result<usize, Fault>
    requires unfailed { has_failed input.old ≡ false }
    requires few { before ≤ TOO_MANY }
    requires come { (bytes : List ℕ) × HasCome scan.old bytes × (length bytes ≡ before) }
    ensures cut { IfOk result (CutsOn scan.old scan.new (known_in R.remaining input.old) (known_in R.remaining input.new) before) }
    ensures head { scan.new.scan.head ≡ scan.old.scan.head }
    ensures failed { result ≡ Err Fault.Read → has_failed input.new ≡ true }
    ensures unfailed { result ≢ Err Fault.Read → has_failed input.new ≡ false }
    ensures fault { IfErr result IsUnread }
{
    let mut part = [0; PART];
    let mut come = before;
    'parts: while come < TOO_MANY {
        let wanted = (TOO_MANY - come).min(PART);
        let part = &mut part[..wanted];
        let count = read_part(input, part)?;
        if count == 0 {
            return Ok(come);
        }
        let Ok(()) = scan.push(&part[..count]) else {
            return Err(Fault::Memory);
        };
        come += count;
    }
    Ok(come)
}
