// The laws of lines.
ghost use Rattle.std.specs.Prelude.{◌≡◌, List, Option, Some, length, nat_eq, not, true};
ghost use Rattle.std.specs.List.{list_all};
ghost use Rattle.fm_cert.specs.Lines.{Line, line_of, line_text};
ghost use Rattle.fm_cert.specs.Writable.{IsWritableLine};
ghost use Rattle.fm_words.specs.Words.{AreNames};
ghost use Rattle.fm_poly.specs.declared.ring.Ring.{Ring};
ghost use Rattle.fm_problem.specs.declared.query.Query.{Query};
ghost use Rattle.fm_words.specs.Parts.{Bytes};

/// A line that can be written is read back as what it says, and it holds no LF.
pub fn printed_lines_are_read_back()
    ensures read { (r : Ring) (names : List Bytes) (asked : Option Query) (l : Line) → AreNames names → length names ≡ r.vars → IsWritableLine r asked l
        → line_of r names asked (line_text names l) ≡ Some l }
    ensures one_line { (r : Ring) (names : List Bytes) (asked : Option Query) (l : Line) → AreNames names → length names ≡ r.vars → IsWritableLine r asked l
        → list_all (λ b. not (nat_eq b 10)) (line_text names l) ≡ true }
{}
