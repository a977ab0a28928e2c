// Laws of Gröbner bases, position over term, in each of the three monomial orders.
ghost use Rattle.std.specs.Prelude.{Bool, ◌^◌, ℕ, List, [], ◌∷◌, ◌≡◌, ◌<◌, ◌↔◌, map};
ghost use Rattle.fm_gfp.specs.Primes.{prime_value};
ghost use Rattle.fm_gfp.specs.declared.prime.Prime.{Prime};
ghost use Rattle.fm_mono.specs.declared.order.Order.{Order};
ghost use Rattle.fm_algebra.specs.Polynomials.{Polynomial};
ghost use Rattle.fm_algebra.specs.PolynomialMatrices.{InImage, vector_twist};
ghost use Rattle.fm_term.specs.declared.vterm.VTerm.{VTerm};
ghost use Rattle.fm_term.specs.Falling.{AreFalling, AreMonic, IsFalling};
ghost use Rattle.fm_term.specs.Multiples.{twisted};
ghost use Rattle.fm_term.specs.Meanings.{vector_of, vectors_of};
ghost use Rattle.fm_groebner.specs.Bases.{IsGroebnerBasis, generators};
ghost use Rattle.fm_groebner.specs.Logs.{anything, IsIrreducible, IsNumber, IsSVector, ReducesBy};

/// Every vector reduces to a rest whose head no member's head divides (the division algorithm).
pub fn a_vector_reduces_to_an_irreducible_rest()
    ensures { (p : Prime) (n m : ℕ) (o : Order) (members : List (List VTerm)) (v : List VTerm) → AreFalling p n m o members
        → IsFalling p n m o v
        → (by : List ℕ) × (r : List VTerm) × ReducesBy p n m o anything members by v r × IsIrreducible members r }
{}

/// With a Gröbner basis an irreducible rest is zero exactly where the vector lies in the submodule. The members need not be monic.
pub fn an_irreducible_rest_decides_membership()
    ensures { (p : Prime) (n m : ℕ) (o : Order) (bound : List ℕ → Bool) (members : List (List VTerm))
        (gens : List (List (Polynomial p n))) (by : List ℕ) (v r : List VTerm)
        → IsGroebnerBasis p n m o (vectors_of p n m members) gens
        → AreFalling p n m o members → IsFalling p n m o v → ReducesBy p n m o bound members by v r → IsIrreducible members r
        → InImage p n (generators p n m gens) (vector_of p n m v) ↔ (r ≡ []) }
{}

/// A Gröbner basis of a submodule generates it.
pub fn a_groebner_basis_generates()
    ensures { (p : Prime) (n m : ℕ) (o : Order) (members gens : List (List (Polynomial p n))) → IsGroebnerBasis p n m o members gens
        → (v : List (Polynomial p n)) → InImage p n (generators p n m members) v ↔ InImage p n (generators p n m gens) v }
{}

/// Buchberger's criterion for submodules (Buchberger 1965): monic vectors are a Gröbner basis of what they span exactly where the S-vector of each pair
/// with heads in one component reduces to zero. The product criterion plays no part, since it fails for vectors. Two such vectors always have an S-vector,
/// and with a Gröbner basis each reduction of it that ends in an irreducible rest ends in zero.
pub fn buchbergers_criterion()
    ensures sufficient { (p : Prime) (n m : ℕ) (o : Order) (bound : List ℕ → Bool) (members : List (List VTerm)) → AreMonic p n m o members
        → ((a b : ℕ) (t u : VTerm) (ts us : List VTerm) → a < b → IsNumber members a (t ∷ ts) → IsNumber members b (u ∷ us)
        → t.component ≡ u.component
        → (v : List VTerm) × (by : List ℕ) × IsSVector p n m o bound t u ts us v × ReducesBy p n m o bound members by v [])
        → IsGroebnerBasis p n m o (vectors_of p n m members) (vectors_of p n m members) }
    ensures necessary { (p : Prime) (n m : ℕ) (o : Order) (bound : List ℕ → Bool) (members : List (List VTerm)) → AreMonic p n m o members
        → IsGroebnerBasis p n m o (vectors_of p n m members) (vectors_of p n m members)
        → (a b : ℕ) (t u : VTerm) (ts us v : List VTerm) (by : List ℕ) (r : List VTerm) → IsNumber members a (t ∷ ts)
        → IsNumber members b (u ∷ us)
        → IsSVector p n m o bound t u ts us v → ReducesBy p n m o bound members by v r → IsIrreducible members r → r ≡ [] }
    ensures exists { (p : Prime) (n m : ℕ) (o : Order) (t u : VTerm) (ts us : List VTerm) → IsFalling p n m o (t ∷ ts)
        → IsFalling p n m o (u ∷ us) → t.component ≡ u.component
        → (v : List VTerm) × IsSVector p n m o anything t u ts us v }
{}

/// The twist of a Gröbner basis is a Gröbner basis of the submodule that the twisted generators span, since a < b gives q * a < q * b in each order.
pub fn the_twist_of_a_groebner_basis_is_one()
    ensures vectors { (p : Prime) (n m : ℕ) (o : Order) (e : ℕ) (members gens : List (List (Polynomial p n)))
        → IsGroebnerBasis p n m o members gens
        → IsGroebnerBasis p n m o (map (vector_twist p n e) members) (map (vector_twist p n e) gens) }
    ensures terms { (p : Prime) (n m : ℕ) (o : Order) (e : ℕ) (members gens : List (List VTerm))
        → IsGroebnerBasis p n m o (vectors_of p n m members) (vectors_of p n m gens)
        → IsGroebnerBasis p n m o (vectors_of p n m (map (twisted (prime_value p ^ e)) members))
        (vectors_of p n m (map (twisted (prime_value p ^ e)) gens)) }
{}
