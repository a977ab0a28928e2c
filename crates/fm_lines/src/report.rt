// The first lines of reports.
ghost use Rattle.std.specs.Prelude.{List, Option, ◌≡◌};
ghost use Rattle.fm_poly.specs.declared.ring.Ring.{Ring};
ghost use Rattle.fm_words.specs.Parts.{Bytes};
ghost use Rattle.fm_problem.specs.declared.query.Query.{Query};
ghost use Rattle.fm_cert.specs.Lines.{line_of};
ghost use Rattle.fm_lines.specs.Versions.{version_in};

use crate::numbers::one_number;
use crate::words::cut;

/// The version of a line `report N`; None where the line is another. No ring need be known to read it.
pub fn read_report(text: &[u8]) -> Option<u64>
    ensures { (r : Ring) (names : List Bytes) (asked : Option Query) → result ≡ version_in (line_of r names asked text.now) }
{
    let (word, rest) = cut(text);
    if word == b"report".as_slice() {
        return one_number(rest);
    }
    None
}
