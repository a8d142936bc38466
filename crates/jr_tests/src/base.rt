//! A `Tally` passes its calls on to the reader or writer that it holds, and returns its results.

use jr_base::Tally;
use std::io::{Read, Result as IoResult, Write};
use std::test::Fail;

/// A call of a reader or writer, with the length of its buffer.
#[derive(Clone, Copy, PartialEq, Eq)]
enum Call {
    Read(usize),
    Write(usize),
    Flush,
}

/// Notes its calls, and moves all bytes of each.
#[derive(Drop)]
struct Device {
    calls: Vec<Call>,
}

impl Read for Device {
    fn read(&mut self, buf: &mut [u8]) -> IoResult<usize> {
        self.calls.push(Call::Read(buf.len()))?;
        Ok(buf.len())
    }
}

impl Write for Device {
    fn write(&mut self, buf: &[u8]) -> IoResult<usize> {
        self.calls.push(Call::Write(buf.len()))?;
        Ok(buf.len())
    }

    fn flush(&mut self) -> IoResult<()> {
        self.calls.push(Call::Flush)?;
        Ok(())
    }
}

/// Makes a call of each kind, and returns whether each has moved all bytes.
fn has_moved_all(tally: &mut Tally<Device>, bytes: &mut [u8]) -> bool {
    let length = Some(bytes.len());
    tally.read(bytes).ok() == length && tally.write(bytes).ok() == length && tally.flush().is_ok()
}

#[test]
fn passes_calls_on(rt: HostRuntime) -> Result<(), Fail> {
    let calls = Vec::new(rt.alloc());
    let mut tally = Tally::of(Device { calls });
    let mut wanted = Vec::new(rt.alloc());
    for length in [0, 1, 2, 3, 4096, 5000] {
        let mut bytes = vec![in rt.alloc(); 0; length]?;
        assert!(rt; has_moved_all(&mut tally, &mut bytes), "{length} bytes");
        for call in [Call::Read(length), Call::Write(length), Call::Flush] {
            wanted.push(call)?;
        }
    }
    assert!(rt; !tally.failed());
    assert!(rt; tally.into_inner().calls == wanted);
    Ok(())
}
