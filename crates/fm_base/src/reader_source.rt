// The real source.
use crate::{Failed, Source};
use std::io::Read;
use std::marker::Model;

/// A source over a reader of the system; it tells no content.
///
/// Contracts see it as its count of faults, which rises at each `Err` of the reader and stops at the greatest u64.
#[derive(Drop)]
pub struct ReaderSource<R: Read + Drop> {
    reader: R,
    faults: u64,
}

impl<R: Read + Drop> Model for ReaderSource<R> {
    ghost use Rattle.std.specs.Prelude.{ℕ};

    ghost Value = { ℕ };

    ghost view = { λ s. s.faults };
}

impl<R: Read + Drop> ReaderSource<R> {
    ghost use Rattle.std.specs.Prelude.{◌≡◌};

    pub fn new(reader: R) -> ReaderSource<R>
        ensures { result ≡ 0 }
    {
        ReaderSource { reader, faults: 0 }
    }
}

impl<R: Read + Drop> Source for ReaderSource<R> {
    ghost use Rattle.std.specs.Prelude.{None};

    ghost left = { λ _. None };

    ghost faults = { λ s. s };

    fn read(&mut self, into: &mut [u8]) -> Result<usize, Failed> {
        match self.reader.read(into) {
            Ok(n) => Ok(n),
            Err(_) => {
                self.faults = self.faults.saturating_add(1);
                Err(Failed)
            }
        }
    }
}

#[cfg(test)]
mod tests {
    use super::*;
    use crate::read_all;
    use std::test::Fail;

    #[test]
    fn reads_through(rt: HostRuntime) -> Result<(), Fail> {
        let mut source = ReaderSource::new(b"ring 3 x y\n".as_slice());
        let bytes = read_all(rt.alloc(), &mut source, 100)?;
        assert_eq!(rt; bytes.as_slice(), b"ring 3 x y\n".as_slice());
        Ok(())
    }
}
