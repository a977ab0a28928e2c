// Laws of vectors: what their terms mean, component by component.
ghost use Rattle.std.specs.Prelude.{List, length, map, replicate, ℕ, ◌∷◌, ◌<◌, ◌^◌, ◌≡◌};
ghost use Rattle.fm_gfp.specs.Primes.{prime_value};
ghost use Rattle.fm_algebra.specs.Polynomials.{frobenius_twist, polynomial_product, polynomial_sum, polynomial_term};
ghost use Rattle.fm_poly.specs.Polys.{PolyValue, meaning};
ghost use Rattle.fm_poly.specs.declared.ring.Ring.{Ring};
ghost use Rattle.fm_vec.specs.Components.{AreOver, column_from, column_terms, component_meaning, vector_meaning};
ghost use Rattle.fm_term.specs.Multiples.{multiple, twisted};
ghost use Rattle.fm_vec.specs.Multiples.{cofactor, inverse_of, minus_multiple, monic_of, plus_multiple, s_vector_of};
ghost use Rattle.fm_term.specs.Falling.{AreTerms};
ghost use Rattle.fm_vec.specs.Vectors.{IsVector};
ghost use Rattle.fm_term.specs.declared.vterm.VTerm.{VTerm};

/// Each component of f + d * x^m * g is that of f plus d * x^m times that of g.
pub fn sums_go_by_components()
    ensures { (r : Ring) (k d : ℕ) (m : List ℕ) (g f : List VTerm) → length m ≡ r.vars → AreTerms r.prime r.vars g
        → component_meaning r k (plus_multiple r d m g f)
        ≡ polynomial_sum r.prime r.vars (polynomial_product r.prime r.vars (polynomial_term r.prime r.vars d m) (component_meaning r k g)) (component_meaning r k f) }
{}

/// c * x^m * g and f - c * x^m * g make f, in each component.
pub fn differences_go_by_components()
    ensures { (r : Ring) (k c : ℕ) (m : List ℕ) (g f : List VTerm) → c < prime_value r.prime → length m ≡ r.vars → AreTerms r.prime r.vars g
        → polynomial_sum r.prime r.vars (polynomial_product r.prime r.vars (polynomial_term r.prime r.vars c m) (component_meaning r k g)) (component_meaning r k (minus_multiple r c m g f))
        ≡ component_meaning r k f }
{}

/// Each component of d * x^m * g is d * x^m times that of g.
pub fn multiples_go_by_components()
    ensures { (r : Ring) (k d : ℕ) (m : List ℕ) (g : List VTerm) → length m ≡ r.vars → AreTerms r.prime r.vars g
        → component_meaning r k (multiple r.prime d m g) ≡ polynomial_product r.prime r.vars (polynomial_term r.prime r.vars d m) (component_meaning r k g) }
{}

/// Each component of a vector made monic is that of the vector times the inverse of its leading coefficient.
pub fn monic_vectors_go_by_components()
    ensures { (r : Ring) (k : ℕ) (t : VTerm) (ts : List VTerm) → AreTerms r.prime r.vars (t ∷ ts)
        → component_meaning r k (monic_of r (t ∷ ts))
        ≡ polynomial_product r.prime r.vars (polynomial_term r.prime r.vars (inverse_of r t.coeff) (replicate r.vars 0)) (component_meaning r k (t ∷ ts)) }
{}

/// The S-vector of f and g and the multiple of g make the multiple of f, in each component: the two multiples are those whose heads are the
/// least common multiple of both heads.
pub fn s_vectors_go_by_components()
    ensures { (r : Ring) (n k : ℕ) (t u : VTerm) (ts us : List VTerm) → IsVector r n (t ∷ ts) → IsVector r n (u ∷ us)
        → polynomial_sum r.prime r.vars
        (polynomial_product r.prime r.vars (polynomial_term r.prime r.vars 1 (cofactor u t)) (component_meaning r k (u ∷ us)))
        (component_meaning r k (s_vector_of r (t ∷ ts) (u ∷ us)))
        ≡ polynomial_product r.prime r.vars (polynomial_term r.prime r.vars 1 (cofactor t u)) (component_meaning r k (t ∷ ts)) }
{}

/// A vector has one strictly falling list of nonzero terms: vectors with the same components have the same terms.
pub fn vectors_are_their_components()
    ensures { (r : Ring) (n : ℕ) (ts us : List VTerm) → IsVector r n ts → IsVector r n us → ((k : ℕ) → component_meaning r k ts ≡ component_meaning r k us) → ts ≡ us }
{}

/// Each component of the twist by p^e is the Frobenius twist of the component.
pub fn twists_go_by_components()
    ensures { (r : Ring) (k e : ℕ) (ts : List VTerm) → component_meaning r k (twisted (prime_value r.prime ^ e) ts) ≡ frobenius_twist r.prime r.vars e (component_meaning r k ts) }
{}

/// A vector and the column of its components give each other back.
pub fn columns_and_vectors_are_inverse()
    ensures vector { (r : Ring) (n : ℕ) (ts : List VTerm) → IsVector r n ts → column_terms 1 (column_from r n 1 ts) ≡ ts }
    ensures column { (r : Ring) (fs : List PolyValue) → AreOver r fs → column_from r (length fs) 1 (column_terms 1 fs) ≡ fs }
{}

/// A vector means the list of its components, as they are written out as a column.
pub fn a_vector_means_its_column()
    ensures vector { (r : Ring) (n : ℕ) (ts : List VTerm) → vector_meaning r n ts ≡ map (λ (f : PolyValue). meaning r f.terms) (column_from r n 1 ts) }
    ensures column { (r : Ring) (fs : List PolyValue) → AreOver r fs → vector_meaning r (length fs) (column_terms 1 fs) ≡ map (λ (f : PolyValue). meaning r f.terms) fs }
{}
