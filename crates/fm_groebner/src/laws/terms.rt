// Laws of lists of terms as vectors of polynomials.
ghost use Rattle.std.specs.Prelude.{◌^◌, ℕ, List, ◌∷◌, ◌++◌, ◌≡◌, ◌<◌, ◌≤◌, length, replicate};
ghost use Rattle.fm_gfp.specs.Primes.{prime_value};
ghost use Rattle.fm_gfp.specs.declared.prime.Prime.{Prime};
ghost use Rattle.fm_mono.specs.declared.order.Order.{Order};
ghost use Rattle.fm_algebra.specs.Polynomials.{Polynomial, polynomial_product, polynomial_sum, polynomial_term};
ghost use Rattle.fm_algebra.specs.PolynomialMatrices.{vector_twist};
ghost use Rattle.fm_term.specs.declared.vterm.VTerm.{VTerm};
ghost use Rattle.fm_term.specs.Falling.{IsFalling};
ghost use Rattle.fm_term.specs.Multiples.{multiple, scaled, twisted};
ghost use Rattle.fm_term.specs.Meanings.{HaveExponents, vector_of};
ghost use Rattle.fm_groebner.specs.Bases.{IsHead, vector_component};

/// A list of terms means a vector of m polynomials, the sum of its terms: a join means the sum, and the lists of multiples mean the products with c * x^a and with c.
pub fn a_list_of_terms_means_a_vector()
    ensures size { (p : Prime) (n m : ℕ) (ts : List VTerm) → length (vector_of p n m ts) ≡ m }
    ensures join { (p : Prime) (n m : ℕ) (ts us : List VTerm) (i : ℕ) → vector_component p n (vector_of p n m (ts ++ us)) i
        ≡ polynomial_sum p n (vector_component p n (vector_of p n m ts) i) (vector_component p n (vector_of p n m us) i) }
    ensures multiple { (p : Prime) (n m c : ℕ) (a : List ℕ) (ts : List VTerm) → length a ≡ n → HaveExponents n ts → (i : ℕ)
        → vector_component p n (vector_of p n m (multiple p c a ts)) i ≡ polynomial_product p n (polynomial_term p n c a)
        (vector_component p n (vector_of p n m ts) i) }
    ensures scaled { (p : Prime) (n m c : ℕ) (ts : List VTerm) → HaveExponents n ts → (i : ℕ)
        → vector_component p n (vector_of p n m (scaled p c ts)) i ≡ polynomial_product p n (polynomial_term p n c (replicate n 0))
        (vector_component p n (vector_of p n m ts) i) }
{}

/// A vector of m polynomials is told by its components.
pub fn a_vector_is_its_components()
    ensures { (p : Prime) (n m : ℕ) (u v : List (Polynomial p n)) → length u ≡ m → length v ≡ m
        → ((i : ℕ) → 0 < i → i ≤ m → vector_component p n u i ≡ vector_component p n v i) → u ≡ v }
{}

/// Each vector of m polynomials is that of one falling list of terms.
pub fn a_vector_has_one_falling_list()
    ensures exists { (p : Prime) (n m : ℕ) (o : Order) (v : List (Polynomial p n)) → length v ≡ m → (ts : List VTerm)
        × IsFalling p n m o ts × (vector_of p n m ts ≡ v) }
    ensures unique { (p : Prime) (n m : ℕ) (o : Order) (ts us : List VTerm) → IsFalling p n m o ts → IsFalling p n m o us
        → vector_of p n m ts ≡ vector_of p n m us → ts ≡ us }
{}

/// The head of a vector is the first term of its falling list, and a vector has no other head.
pub fn the_head_is_the_first_term()
    ensures first { (p : Prime) (n m : ℕ) (o : Order) (t : VTerm) (ts : List VTerm) → IsFalling p n m o (t ∷ ts)
        → IsHead p n o (vector_of p n m (t ∷ ts)) t.component t.mono }
    ensures unique { (p : Prime) (n : ℕ) (o : Order) (v : List (Polynomial p n)) (i j : ℕ) (a b : List ℕ) → IsHead p n o v i a
        → IsHead p n o v j b → (i ≡ j) × (a ≡ b) }
{}

/// The list of the twisted terms falls, and means the Frobenius twist of the vector.
pub fn twisted_terms_mean_the_twist()
    ensures vector { (p : Prime) (n m e : ℕ) (ts : List VTerm) → vector_of p n m (twisted (prime_value p ^ e) ts)
        ≡ vector_twist p n e (vector_of p n m ts) }
    ensures falling { (p : Prime) (n m : ℕ) (o : Order) (e : ℕ) (ts : List VTerm) → IsFalling p n m o ts
        → IsFalling p n m o (twisted (prime_value p ^ e) ts) }
{}
