// Laws of heads, in any order of the exponent tuples that respects sums.
ghost use Rattle.std.specs.Prelude.{ℕ, List, ◌∷◌, ◌≡◌, ◌<◌, ◌*◌, ◌%◌, ◌^◌, ◌⊎◌, ◌↔◌, length};
ghost use Rattle.std.specs.declared.cmp.Ordering.{Ordering};
ghost use Rattle.std.specs.declared.cmp.Ordering.TheVariants.{Greater};
ghost use Rattle.fm_tuple.specs.Tuple.{tuple_multiple, tuple_sum};
ghost use Rattle.fm_gfp.specs.Primes.{prime_value};
ghost use Rattle.fm_gfp.specs.declared.prime.Prime.{Prime};
ghost use Rattle.fm_algebra.specs.Heads.{IsFalling, IsMonomialOrder};
ghost use Rattle.fm_algebra.specs.Polynomials.{AreListedTerms, HasHead, Polynomial, coefficient, frobenius_twist, polynomial_of, polynomial_product, polynomial_zero};

/// The head of a polynomial is the greatest tuple with a coefficient that is not 0. Every polynomial but 0 has one head.
pub fn the_head_is_the_greatest_tuple()
    ensures meaning { (p : Prime) (n : ℕ) (R : List ℕ → List ℕ → Ordering) (f : Polynomial p n) (a : List ℕ) → HasHead p n R f a
        ↔ ((length a ≡ n) × (0 < coefficient p n f a) × ((b : List ℕ) → R b a ≡ Greater → coefficient p n f b ≡ 0)) }
    ensures exists { (p : Prime) (n : ℕ) (R : List ℕ → List ℕ → Ordering) → IsMonomialOrder R
        → (f : Polynomial p n) → (f ≡ polynomial_zero p n) ⊎ ((a : List ℕ) × HasHead p n R f a) }
    ensures unique { (p : Prime) (n : ℕ) (R : List ℕ → List ℕ → Ordering) → IsMonomialOrder R
        → (f : Polynomial p n) (a b : List ℕ) → HasHead p n R f a → HasHead p n R f b → a ≡ b }
{}

/// The head of a product is the sum of the heads, and its coefficient their product (Cox, Little and O'Shea, chapter 2, section 2); the head of a twist is the multiple of the head.
pub fn heads_multiply()
    ensures product { (p : Prime) (n : ℕ) (R : List ℕ → List ℕ → Ordering) → IsMonomialOrder R
        → (f g : Polynomial p n) (a b : List ℕ) → HasHead p n R f a → HasHead p n R g b → HasHead p n R (polynomial_product p n f g) (tuple_sum a b) }
    ensures leading_coefficient { (p : Prime) (n : ℕ) (R : List ℕ → List ℕ → Ordering) → IsMonomialOrder R
        → (f g : Polynomial p n) (a b : List ℕ) → HasHead p n R f a → HasHead p n R g b
        → coefficient p n (polynomial_product p n f g) (tuple_sum a b) ≡ (coefficient p n f a * coefficient p n g b) % prime_value p }
    ensures twist { (p : Prime) (n : ℕ) (R : List ℕ → List ℕ → Ordering) → IsMonomialOrder R
        → (e : ℕ) (f : Polynomial p n) (a : List ℕ) → HasHead p n R f a → HasHead p n R (frobenius_twist p n e f) (tuple_multiple (prime_value p ^ e) a) }
{}

/// A polynomial has just one strictly falling list of terms with coefficients from 1 to p - 1, and this list begins with the head.
pub fn a_polynomial_has_one_falling_list_of_terms()
    ensures exists { (p : Prime) (n : ℕ) (R : List ℕ → List ℕ → Ordering) → IsMonomialOrder R
        → (f : Polynomial p n) → (ts : List (List ℕ × ℕ)) × AreListedTerms p n ts × IsFalling R ts × (polynomial_of p n ts ≡ f) }
    ensures unique { (p : Prime) (n : ℕ) (R : List ℕ → List ℕ → Ordering) → IsMonomialOrder R
        → (ts us : List (List ℕ × ℕ)) → AreListedTerms p n ts → IsFalling R ts → AreListedTerms p n us → IsFalling R us
        → polynomial_of p n ts ≡ polynomial_of p n us → ts ≡ us }
    ensures head { (p : Prime) (n : ℕ) (R : List ℕ → List ℕ → Ordering) → IsMonomialOrder R
        → (t : List ℕ × ℕ) (ts : List (List ℕ × ℕ)) → AreListedTerms p n (t ∷ ts) → IsFalling R (t ∷ ts) → HasHead p n R (polynomial_of p n (t ∷ ts)) t.0 }
    ensures leading_coefficient { (p : Prime) (n : ℕ) (R : List ℕ → List ℕ → Ordering) → IsMonomialOrder R
        → (t : List ℕ × ℕ) (ts : List (List ℕ × ℕ)) → AreListedTerms p n (t ∷ ts) → IsFalling R (t ∷ ts) → coefficient p n (polynomial_of p n (t ∷ ts)) t.0 ≡ t.1 }
{}
