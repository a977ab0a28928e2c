// Writing all of some bytes to a sink.
ghost use Rattle.std.specs.Prelude.{◌<◌, OnOk};
ghost use Rattle.std.specs.Io.KnownBytes.{Appends};
ghost use Rattle.fm_base.specs.Causes.{HasCause};
ghost use Rattle.fm_base.specs.Parts.{AppendsPrefix};

use crate::{Failed, Sink};

/// Writes all of `bytes`, or fails at the first write that fails; it takes no memory.
///
/// Each write offers all that is left, and takes at least one byte.
pub fn write_all<K: Sink>(sink: &mut K, bytes: &[u8]) -> Result<(), Failed>
    ensures ok { OnOk result (Appends (K.taken sink.old) (K.taken sink.new) bytes.now) }

    // whatever the result
    ensures prefix { AppendsPrefix (K.taken sink.old) (K.taken sink.new) bytes.now }
    ensures cause { HasCause (K.faults sink.old) (K.faults sink.new) result }
{
    let mut at = 0;
    while at < bytes.len() {
        match sink.write(&bytes[at..]) {
            Ok(n) => at += n,
            Err(Failed) => return Err(Failed),
        }
    }
    Ok(())
}

#[cfg(test)]
mod tests {
    use super::*;
    use crate::MemorySink;
    use std::test::Fail;

    // Each write offers all that is left: a sink that takes all of a slice is called once.
    #[test]
    fn offers_all_that_is_left(rt: HostRuntime) -> Result<(), Fail> {
        let text = vec![in rt.alloc(); 7u8; 100_000]?;
        for (failing, whole) in [(1u64, false), (2u64, true)] {
            let numbers = [failing].as_slice().to_vec(rt.alloc())?;
            let mut sink = MemorySink::new(rt.alloc(), 200_000, 200_000, numbers)?;
            assert_eq!(rt; write_all(&mut sink, &text).is_ok(), whole);
        }
        Ok(())
    }

    #[test]
    fn writes_in_pieces_and_stops_at_a_fault(rt: HostRuntime) -> Result<(), Fail> {
        let text = b"report 1\nring 3 x y\n".as_slice();
        let rows: [(usize, &[u64], &[u8], bool); 4] = [
            (100, &[], text, true),
            (100, &[2], b"report 1\nring 3 ", false),
            (20, &[], text, true),
            (19, &[], b"report 1\nring 3 x y", false),
        ];
        for (room, failing, taken, whole) in rows {
            let mut sink = MemorySink::new(rt.alloc(), room, 16, failing.to_vec(rt.alloc())?)?;
            assert_eq!(rt; write_all(&mut sink, text).is_ok(), whole);
            assert_eq!(rt; sink.taken(), taken);
        }
        Ok(())
    }
}
