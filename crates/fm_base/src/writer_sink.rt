// The real sink.
use crate::{Failed, Sink};
use std::io::Write;
use std::marker::Model;

/// A sink over a writer of the system; it tells no content.
///
/// Each call makes one `write` and then one `flush` of the writer. Contracts see the sink as its count of faults, which rises at
/// each `Err` of either and at each `Ok(0)` of the write, and stops at the greatest u64.
#[derive(Drop)]
pub struct WriterSink<W: Write + Drop> {
    writer: W,
    faults: u64,
}

impl<W: Write + Drop> Model for WriterSink<W> {
    ghost use Rattle.std.specs.Prelude.{ℕ};

    ghost Value = { ℕ };

    ghost view = { λ s. s.faults };
}

impl<W: Write + Drop> WriterSink<W> {
    ghost use Rattle.std.specs.Prelude.{◌≡◌};

    pub fn new(writer: W) -> WriterSink<W>
        ensures { result ≡ 0 }
    {
        WriterSink { writer, faults: 0 }
    }
}

impl<W: Write + Drop> Sink for WriterSink<W> {
    ghost use Rattle.std.specs.Prelude.{None};

    ghost taken = { λ _. None };

    ghost faults = { λ s. s };

    fn write(&mut self, bytes: &[u8]) -> Result<usize, Failed> {
        if let Ok(n) = self.writer.write(bytes)
            && n > 0
            && self.writer.flush().is_ok()
        {
            return Ok(n);
        }
        self.faults = self.faults.saturating_add(1);
        Err(Failed)
    }
}

#[cfg(test)]
mod tests {
    use super::*;
    use crate::write_all;
    use std::test::Fail;

    #[test]
    fn writes_through(rt: HostRuntime) -> Result<(), Fail> {
        let mut sink = WriterSink::new(Vec::new(rt.alloc()));
        write_all(&mut sink, b"ring 3 x y\n").ok().ok_or("a fault")?;
        let WriterSink { writer, faults } = sink;
        assert_eq!(rt; writer.as_slice(), b"ring 3 x y\n".as_slice());
        assert_eq!(rt; faults, 0);
        Ok(())
    }
}
