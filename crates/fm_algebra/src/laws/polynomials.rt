// Laws of the ring of polynomials over GF(p) in n variables.
ghost use Rattle.std.specs.Prelude.{ℕ, suc, List, ◌≡◌, ◌<◌, ◌+◌, ◌-◌, ◌*◌, ◌%◌, ◌⊎◌, length, replicate};
ghost use Rattle.fm_tuple.specs.Tuple.{tuple_sum};
ghost use Rattle.fm_gfp.specs.Primes.{prime_value};
ghost use Rattle.fm_gfp.specs.declared.prime.Prime.{Prime};
ghost use Rattle.fm_algebra.specs.Ring.{IsField, IsRing};
ghost use Rattle.fm_algebra.specs.Splits.{over_splits};
ghost use Rattle.fm_algebra.specs.Gf.{gf};
ghost use Rattle.fm_algebra.specs.Poly.{Among};
ghost use Rattle.fm_algebra.specs.Polynomials.{Polynomial, coefficient, polynomial_difference, polynomial_multiple, polynomial_negative, polynomial_one, polynomial_power, polynomial_product, polynomial_sum, polynomial_term, polynomial_zero, polynomials};

/// The residues modulo a listed prime are a field (Lang, Algebra, chapter II, section 2).
pub fn residues_are_a_field()
    ensures ring { (p : Prime) → IsRing (gf p) }
    ensures field { (p : Prime) → IsField (gf p) }
{}

/// A polynomial is a finite map from tuples of n exponents to residues modulo p: it is told by its coefficients, finitely many of them are not 0,
/// and any such choice of numbers below p is that of a polynomial.
pub fn a_polynomial_is_its_coefficients()
    ensures below { (p : Prime) (n : ℕ) (f : Polynomial p n) (a : List ℕ) → coefficient p n f a < prime_value p }
    ensures other_length { (p : Prime) (n : ℕ) (f : Polynomial p n) (a : List ℕ)
        → ¬ (length a ≡ n) → coefficient p n f a ≡ 0 }
    ensures same { (p : Prime) (n : ℕ) (f g : Polynomial p n)
        → ((a : List ℕ) → length a ≡ n → coefficient p n f a ≡ coefficient p n g a) → f ≡ g }
    ensures finite { (p : Prime) (n : ℕ) (f : Polynomial p n)
        → (ks : List (List ℕ)) × ((a : List ℕ) → ¬ (coefficient p n f a ≡ 0) → Among a ks) }
    ensures any { (p : Prime) (n : ℕ) (h : List ℕ → ℕ) (ks : List (List ℕ)) → ((a : List ℕ) → length a ≡ n → h a < prime_value p)
        → ((a : List ℕ) → length a ≡ n → ¬ (h a ≡ 0) → Among a ks)
        → (f : Polynomial p n) × ((a : List ℕ) → length a ≡ n → coefficient p n f a ≡ h a) }
{}

/// The sum over all b and c with b + c = a goes over just these pairs, and over each once.
pub fn a_sum_over_splits_goes_over_all_pairs()
    ensures only { (a : List ℕ) (F G : List ℕ → List ℕ → ℕ) → ((b c : List ℕ) → length b ≡ length c → tuple_sum b c ≡ a → F b c ≡ G b c)
        → over_splits ◌+◌ a F ≡ over_splits ◌+◌ a G }
    ensures each_once { (b c : List ℕ) (F : List ℕ → List ℕ → ℕ) → length b ≡ length c → ((u v : List ℕ) → ¬ (u ≡ b) → F u v ≡ 0)
        → over_splits ◌+◌ (tuple_sum b c) F ≡ F b c }
    ensures added { (a : List ℕ) (F G : List ℕ → List ℕ → ℕ)
        → over_splits ◌+◌ a (λ b c. F b c + G b c) ≡ over_splits ◌+◌ a F + over_splits ◌+◌ a G }
{}

/// The coefficients of each operation. That of a product at a is the sum of `f_b * g_c` over all b and c with b + c = a.
pub fn operations_go_by_coefficients()
    ensures zero { (p : Prime) (n : ℕ) (a : List ℕ) → coefficient p n (polynomial_zero p n) a ≡ 0 }
    ensures one { (p : Prime) (n : ℕ) → coefficient p n (polynomial_one p n) (replicate n 0) ≡ 1 }
    ensures one_elsewhere { (p : Prime) (n : ℕ) (a : List ℕ)
        → ¬ (a ≡ replicate n 0) → coefficient p n (polynomial_one p n) a ≡ 0 }
    ensures sum { (p : Prime) (n : ℕ) (f g : Polynomial p n) (a : List ℕ)
        → coefficient p n (polynomial_sum p n f g) a ≡ (coefficient p n f a + coefficient p n g a) % prime_value p }
    ensures negative { (p : Prime) (n : ℕ) (f : Polynomial p n) (a : List ℕ)
        → coefficient p n (polynomial_negative p n f) a ≡ (prime_value p - coefficient p n f a) % prime_value p }
    ensures difference { (p : Prime) (n : ℕ) (f g : Polynomial p n) (a : List ℕ)
        → coefficient p n (polynomial_difference p n f g) a ≡ (coefficient p n f a + (prime_value p - coefficient p n g a)) % prime_value p }
    ensures multiple { (p : Prime) (n : ℕ) (c : ℕ) (f : Polynomial p n) (a : List ℕ)
        → coefficient p n (polynomial_multiple p n c f) a ≡ (c * coefficient p n f a) % prime_value p }
    ensures product { (p : Prime) (n : ℕ) (f g : Polynomial p n) (a : List ℕ) → coefficient p n (polynomial_product p n f g) a
        ≡ over_splits ◌+◌ a (λ b c. coefficient p n f b * coefficient p n g c) % prime_value p }
    ensures term { (p : Prime) (n c : ℕ) (a : List ℕ)
        → length a ≡ n → coefficient p n (polynomial_term p n c a) a ≡ c % prime_value p }
    ensures term_elsewhere { (p : Prime) (n c : ℕ) (a b : List ℕ)
        → ¬ (b ≡ a) → coefficient p n (polynomial_term p n c a) b ≡ 0 }
    ensures term_other_length { (p : Prime) (n c : ℕ) (a : List ℕ)
        → ¬ (length a ≡ n) → polynomial_term p n c a ≡ polynomial_zero p n }
{}

/// Polynomials are a commutative ring (Lang, Algebra, chapter II, section 3).
pub fn polynomials_are_a_commutative_ring()
    ensures ring { (p : Prime) (n : ℕ) → IsRing (polynomials p n) }
    ensures sum_associative { (p : Prime) (n : ℕ) (f g h : Polynomial p n)
        → polynomial_sum p n (polynomial_sum p n f g) h ≡ polynomial_sum p n f (polynomial_sum p n g h) }
    ensures sum_commutative { (p : Prime) (n : ℕ) (f g : Polynomial p n)
        → polynomial_sum p n f g ≡ polynomial_sum p n g f }
    ensures zero_neutral { (p : Prime) (n : ℕ) (f : Polynomial p n) → polynomial_sum p n (polynomial_zero p n) f ≡ f }
    ensures negative_cancels { (p : Prime) (n : ℕ) (f : Polynomial p n)
        → polynomial_sum p n (polynomial_negative p n f) f ≡ polynomial_zero p n }
    ensures product_associative { (p : Prime) (n : ℕ) (f g h : Polynomial p n)
        → polynomial_product p n (polynomial_product p n f g) h
        ≡ polynomial_product p n f (polynomial_product p n g h) }
    ensures product_commutative { (p : Prime) (n : ℕ) (f g : Polynomial p n)
        → polynomial_product p n f g ≡ polynomial_product p n g f }
    ensures one_neutral { (p : Prime) (n : ℕ) (f : Polynomial p n)
        → polynomial_product p n (polynomial_one p n) f ≡ f }
    ensures distributive { (p : Prime) (n : ℕ) (f g h : Polynomial p n)
        → polynomial_product p n f (polynomial_sum p n g h)
        ≡ polynomial_sum p n (polynomial_product p n f g) (polynomial_product p n f h) }
    ensures multiple_of_product { (p : Prime) (n c : ℕ) (f g : Polynomial p n)
        → polynomial_multiple p n c (polynomial_product p n f g)
        ≡ polynomial_product p n (polynomial_multiple p n c f) g }
    ensures one_is_a_term { (p : Prime) (n : ℕ) → polynomial_one p n ≡ polynomial_term p n 1 (replicate n 0) }
    ensures multiple_is_a_product { (p : Prime) (n c : ℕ) (f : Polynomial p n)
        → polynomial_multiple p n c f ≡ polynomial_product p n (polynomial_term p n c (replicate n 0)) f }
    ensures power_zero { (p : Prime) (n : ℕ) (f : Polynomial p n) → polynomial_power p n 0 f ≡ polynomial_one p n }
    ensures power_next { (p : Prime) (n k : ℕ) (f : Polynomial p n)
        → polynomial_power p n (suc k) f ≡ polynomial_product p n f (polynomial_power p n k f) }
{}

/// The ring of polynomials over GF(p) is an integral domain (Lang, Algebra, chapters II and IV).
pub fn polynomials_are_an_integral_domain()
    ensures one_differs_from_zero { (p : Prime) (n : ℕ) → ¬ (polynomial_one p n ≡ polynomial_zero p n) }
    ensures no_zero_divisors { (p : Prime) (n : ℕ) (f g : Polynomial p n)
        → polynomial_product p n f g ≡ polynomial_zero p n → (f ≡ polynomial_zero p n) ⊎ (g ≡ polynomial_zero p n) }
    ensures cancellation { (p : Prime) (n : ℕ) (f g h : Polynomial p n)
        → ¬ (f ≡ polynomial_zero p n) → polynomial_product p n f g ≡ polynomial_product p n f h → g ≡ h }
{}
