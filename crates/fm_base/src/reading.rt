// Reading a source to its end.
ghost use Rattle.std.specs.Prelude.{◌≡◌, ◌+◌, ◌<◌, ◌≤◌, length, IfOk, IfSome, OnOk, IsErrOf};
ghost use Rattle.std.specs.Io.KnownBytes.{IsAtEnd};
ghost use Rattle.fm_base.specs.Causes.{Rose};
ghost use Rattle.fm_base.specs.Parts.{ConsumesAtMost, ConsumesCount, ConsumesPart};

use crate::{Failed, ReadError, Source};
use std::alloc::Global;

// The bytes that one read may give.
const PIECE: usize = 8192;

/// Reads the source to its end, and refuses an input of more than `limit` bytes.
///
/// Each read offers a slice of 8,192 bytes, or of `limit + 1` less the bytes read where that is less, so that at most
/// `limit + 1` bytes leave the source. Every read but the last moves at least one byte.
pub fn read_all<S: Source>(
    alloc: Global,
    source: &mut S,
    limit: usize,
) -> Result<Vec<u8>, ReadError>
    requires { limit ≤ 268435456 }
    ensures all { IfOk result (λ v. IfSome (S.left source.old) (λ text. v.items ≡ text)) }
    ensures within { IfOk result (λ v. length v.items ≤ limit) }
    ensures end { OnOk result (IsAtEnd (S.left source.new)) }

    // what it gave, whatever the result
    ensures part { ConsumesPart (S.left source.old) (S.left source.new) }

    // the causes
    ensures long { IsErrOf result ReadError.TooLong → ConsumesCount (S.left source.old) (S.left source.new) (limit + 1) }
    ensures fault { IsErrOf result ReadError.ReadFault → Rose (S.faults source.old) (S.faults source.new) }
    ensures early { IsErrOf result ReadError.ReadFault → ConsumesAtMost (S.left source.old) (S.left source.new) limit }
    ensures later { S.faults source.old ≤ S.faults source.new }
{
    let mut bytes = Vec::new(alloc);
    let mut buffer = [0; PIECE];
    'turns: loop {
        let room = PIECE.min(limit + 1 - bytes.len());
        match source.read(&mut buffer[..room]) {
            Err(Failed) => return Err(ReadError::ReadFault),
            Ok(0) => return Ok(bytes),
            Ok(n) => {
                let Ok(()) = bytes.extend_from_slice(&buffer[..n]) else {
                    return Err(ReadError::Memory);
                };
                if bytes.len() > limit {
                    return Err(ReadError::TooLong);
                }
            }
        }
    }
}

#[cfg(test)]
mod tests {
    use super::*;
    use crate::{MemorySource, SteadySource};
    use std::test::Fail;

    fn source(alloc: Global, piece: usize, failing: &[u64]) -> Result<MemorySource, Fail>
        requires { 1 ≤ piece }
    {
        Ok(MemorySource::new(b"x^2*y+1".to_vec(alloc)?, piece, failing.to_vec(alloc)?))
    }

    #[test]
    fn reads_in_pieces(rt: HostRuntime) -> Result<(), Fail> {
        for mut source in [
            source(rt.alloc(), 1, &[])?,
            source(rt.alloc(), 3, &[])?,
            source(rt.alloc(), 7, &[])?,
            source(rt.alloc(), 9, &[4])?,
        ] {
            let bytes = read_all(rt.alloc(), &mut source, 7)?;
            assert_eq!(rt; bytes.as_slice(), b"x^2*y+1".as_slice());
        }
        Ok(())
    }

    #[test]
    fn reads_a_steady_source_of_many_pieces(rt: HostRuntime) -> Result<(), Fail> {
        let text = vec![in rt.alloc(); 7u8; 20000]?;
        let mut source = SteadySource::new(text.as_slice().to_vec(rt.alloc())?);
        let bytes = read_all(rt.alloc(), &mut source, 20000)?;
        assert_eq!(rt; bytes.as_slice(), text.as_slice());
        Ok(())
    }

    // Each read offers 8,192 bytes or what is left up to one byte past the limit; the number of a failing call tells how many
    // reads there were.
    #[test]
    fn reads_slices_of_8192_bytes(rt: HostRuntime) -> Result<(), Fail> {
        let rows: [(usize, usize, u64, bool, bool); 8] = [
            (16_384, 20_000, 3, true, false),
            (16_384, 20_000, 4, false, false),
            (16_385, 20_000, 4, true, false),
            (20_000, 20_000, 5, false, false),
            (20_000, 19_999, 3, true, false),
            (20_000, 19_999, 4, false, true),
            (20_000, 8_191, 1, true, false),
            (20_000, 8_191, 2, false, true),
        ];
        for (length, limit, failing, fault, long) in rows {
            let bytes = vec![in rt.alloc(); 7u8; length]?;
            let numbers = [failing].as_slice().to_vec(rt.alloc())?;
            let mut source = MemorySource::new(bytes, 100_000, numbers);
            let result = read_all(rt.alloc(), &mut source, limit);
            assert_eq!(rt; matches!(result, Err(ReadError::ReadFault)), fault);
            assert_eq!(rt; matches!(result, Err(ReadError::TooLong)), long);
        }
        Ok(())
    }

    #[test]
    fn refuses_by_name(rt: HostRuntime) -> Result<(), Fail> {
        assert!(rt;
            matches!(
                read_all(rt.alloc(), &mut source(rt.alloc(), 9, &[])?, 6),
                Err(ReadError::TooLong)
            )
        );
        assert!(rt;
            matches!(
                read_all(rt.alloc(), &mut source(rt.alloc(), 9, &[2])?, 7),
                Err(ReadError::ReadFault)
            )
        );
        assert!(rt;
            matches!(
                read_all(rt.alloc(), &mut source(rt.alloc(), 3, &[3])?, 7),
                Err(ReadError::ReadFault)
            )
        );
        Ok(())
    }
}
