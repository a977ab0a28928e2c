// Laws of the texts of polynomials.
ghost use Rattle.std.specs.Prelude.{All, List, Ok, decimal, length, true, ℕ, ◌<◌, ◌^◌, ◌≡◌};
ghost use Rattle.fm_poly.specs.Bounds.{AreWithinBound};
ghost use Rattle.fm_poly.specs.Polys.{IsCanonical, IsTermOf, PolyValue, meaning, pairs};
ghost use Rattle.fm_poly.specs.declared.ring.Ring.{Ring};
ghost use Rattle.fm_poly.specs.declared.term.Term.{Term};
ghost use Rattle.fm_text.specs.Certificates.{certificate_polynomial};
ghost use Rattle.fm_text.specs.Polynomials.{Rules, spelled_polynomial};
ghost use Rattle.fm_text.specs.SumOfTerms.{IsPolynomialOf, sum_of_terms};
ghost use Rattle.fm_text.specs.Texts.{AllPrintable, ArePrintable, Terms, poly_text, vector_text};
ghost use Rattle.fm_words.specs.Parts.{Bytes};
ghost use Rattle.fm_words.specs.Words.{AreNames, is_exact, is_number, value};

/// A printed polynomial is read back, by the grammar of certificates.
pub fn printed_polynomials_are_read_back()
    ensures { (r : Ring) (names : List Bytes) (ts : List Term) → AreNames names → length names ≡ r.vars → IsCanonical r ts → AreWithinBound (pairs ts)
        → certificate_polynomial r names (poly_text names (pairs ts)) ≡ Ok (record { ring = r; terms = ts }) }
{}

/// A printed number is read back, and has no leading zeros.
pub fn printed_numbers_are_read_back()
    ensures digits { (n : ℕ) → n < 2 ^ 64 → is_number (decimal n) ≡ true }
    ensures exact { (n : ℕ) → n < 2 ^ 64 → is_exact (decimal n) ≡ true }
    ensures value { (n : ℕ) → n < 2 ^ 64 → value (decimal n) ≡ n }
{}

/// No text is printed for two polynomials, and none for two vectors.
pub fn printed_texts_are_unique()
    ensures polynomial { (names : List Bytes) (f g : Terms) → AreNames names → ArePrintable (length names) f → ArePrintable (length names) g
        → poly_text names f ≡ poly_text names g → f ≡ g }
    ensures vector { (names : List Bytes) (v w : List Terms) → AreNames names → AllPrintable (length names) v → AllPrintable (length names) w
        → vector_text names v ≡ vector_text names w → v ≡ w }
{}

/// The sum of written terms, one exponent for each variable and a coefficient below p in each, is a falling list of
/// nonzero terms, and it means the sum of what the terms mean. So it is the only list of terms that a polynomial which
/// the text spells can have.
pub fn sums_of_written_terms()
    ensures falling { (r : Ring) (ts : List Term) → All (IsTermOf r) ts → IsCanonical r (sum_of_terms r ts) }
    ensures meaning { (r : Ring) (ts : List Term) → meaning r (sum_of_terms r ts) ≡ meaning r ts }
{}

/// A polynomial that a text spells is of the ring, in the form that is kept.
pub fn spelled_polynomials_are_of_the_ring()
    ensures { (r : Rules) (text : Bytes) (f : PolyValue) → length r.names ≡ r.ring.vars → spelled_polynomial r text ≡ Ok f → IsPolynomialOf r.ring f }
{}
