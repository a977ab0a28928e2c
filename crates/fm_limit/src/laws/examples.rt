// Worked examples and edge cases: degree 0, the zero ideal, the unit ideal, f = 0, and principal ideals.
ghost use Rattle.std.specs.Prelude.{ℕ, ◌-◌, ◌≡◌, ◌↔◌, Bool, false, IsTrue, List, [], ◌∷◌, Some, None};
ghost use Rattle.fm_gfp.specs.Primes.{prime_value};
ghost use Rattle.fm_gfp.specs.declared.prime.Prime.{Prime};
ghost use Rattle.fm_gfp.specs.declared.prime.Prime.TheVariants.{Two};
ghost use Rattle.fm_algebra.specs.Polynomials.{Polynomial, polynomial_zero, polynomial_one, polynomial_term, polynomial_product, polynomial_power, frobenius_twist};
ghost use Rattle.fm_algebra.specs.PolynomialMatrices.{matrix_unit};
ghost use Rattle.fm_limit.specs.ResolvedIdeal.{ResolvedIdeal, matrix_at, IsResolved};
ghost use Rattle.fm_limit.specs.Classes.{IsClass, IsCoboundaryAfter, IsZeroClass, IsZeroLimit, VanishesAfterInverting};
ghost use Rattle.fm_limit.specs.SmallIdeals.{in_degree_zero, one_entry, principal};
ghost use Rattle.fm_limit.specs.Facts.{DegreeFacts};
ghost use Rattle.fm_limit.specs.Verdicts.{Holds, zero_limit, zero_class};

/// In degree 0 every ideal is resolved by the row of its generators. The limit of the zero ideal is not zero: it is the ring. The limit of the unit ideal is zero.
pub fn ideals_in_degree_zero()
    ensures resolved { (p : Prime) (n : ℕ) (fs : List (Polynomial p n)) → IsResolved p n 0 (in_degree_zero p n fs) }
    ensures zero_ideal { (p : Prime) (n : ℕ) → ¬ IsZeroLimit p n 0 (in_degree_zero p n []) }
    ensures unit_ideal { (p : Prime) (n : ℕ) → IsZeroLimit p n 0 (in_degree_zero p n (polynomial_one p n ∷ [])) }
{}

/// In degree 0, with `theta_0 = (1)`, moves change nothing and only 0 is a coboundary: so a class is zero in the limit exactly if its polynomial is 0. This asks nothing of the row `d_1`, not even that its entries generate the ideal.
pub fn classes_in_degree_zero()
    ensures moves { (p : Prime) (n : ℕ) (I : ResolvedIdeal p n) → matrix_at p n I.lift 0 ≡ matrix_unit p n 1
        → (s e : ℕ) (f : Polynomial p n) → IsCoboundaryAfter p n 0 I s e (f ∷ []) ↔ (f ≡ polynomial_zero p n) }
    ensures limit { (p : Prime) (n : ℕ) (I : ResolvedIdeal p n) → matrix_at p n I.lift 0 ≡ matrix_unit p n 1
        → (e : ℕ) (f : Polynomial p n) → IsZeroClass p n 0 I e (f ∷ []) ↔ (f ≡ polynomial_zero p n) }
    ensures yes { (p : Prime) (n : ℕ) (I : ResolvedIdeal p n) → matrix_at p n I.lift 0 ≡ matrix_unit p n 1
        → (e : ℕ) (f : Polynomial p n) → IsClass p n 0 I e (f ∷ []) → f ≡ polynomial_zero p n
        → Holds p n (zero_class 0 I e (f ∷ []) (Some e)) }
    ensures never { (p : Prime) (n : ℕ) (I : ResolvedIdeal p n) → matrix_at p n I.lift 0 ≡ matrix_unit p n 1
        → (e : ℕ) (f : Polynomial p n) → IsClass p n 0 I e (f ∷ []) → ¬ (f ≡ polynomial_zero p n)
        → Holds p n (zero_class 0 I e (f ∷ []) None) }
{}

/// Every limit vanishes after inverting 0. After inverting 1 it vanishes exactly if it is zero.
pub fn inverting_zero_and_one()
    ensures zero { (p : Prime) (n i : ℕ) (I : ResolvedIdeal p n) → VanishesAfterInverting p n i I (polynomial_zero p n) }
    ensures one { (p : Prime) (n i : ℕ) (I : ResolvedIdeal p n) → VanishesAfterInverting p n i I (polynomial_one p n)
        ↔ IsZeroLimit p n i I }
{}

/// For f that is not 0: `(f)` is a resolution of its ideal with the lift `(1), (f^(p-1))`; every polynomial is a class of every stage; and any number of moves makes z of stage e a coboundary exactly if `f^[p^e]` divides z. So the limit is the ring with f inverted, modulo the ring. The facts of this degree hold with coordinates `Z = (1)`, the morphism `(f^(p-1))` and the chain that repeats at once at `(f)`; so the limit is zero exactly if f is a unit.
pub fn a_principal_ideal_in_degree_one()
    ensures resolved { (p : Prime) (n : ℕ) (f : Polynomial p n) → ¬ (f ≡ polynomial_zero p n) → IsResolved p n 1 (principal p n f) }
    ensures classes { (p : Prime) (n : ℕ) (f : Polynomial p n) → ¬ (f ≡ polynomial_zero p n) → (e : ℕ) (z : Polynomial p n)
        → IsClass p n 1 (principal p n f) e (z ∷ []) }
    ensures moves { (p : Prime) (n : ℕ) (f : Polynomial p n) → ¬ (f ≡ polynomial_zero p n)
        → (s e : ℕ) (z : Polynomial p n) → IsCoboundaryAfter p n 1 (principal p n f) s e (z ∷ [])
        ↔ ((y : Polynomial p n) × (polynomial_product p n (frobenius_twist p n e f) y ≡ z)) }
    ensures limit { (p : Prime) (n : ℕ) (f : Polynomial p n) → ¬ (f ≡ polynomial_zero p n)
        → (e : ℕ) (z : Polynomial p n) → IsZeroClass p n 1 (principal p n f) e (z ∷ [])
        ↔ ((y : Polynomial p n) × (polynomial_product p n (frobenius_twist p n e f) y ≡ z)) }
    ensures facts { (p : Prime) (n : ℕ) (f : Polynomial p n) → ¬ (f ≡ polynomial_zero p n)
        → DegreeFacts p n 1 (principal p n f) (one_entry p n (polynomial_one p n))
        (one_entry p n (polynomial_power p n (prime_value p - 1) f)) (one_entry p n f ∷ one_entry p n f ∷ []) 0 }
    ensures verdict { (p : Prime) (n : ℕ) (f : Polynomial p n) → ¬ (f ≡ polynomial_zero p n)
        → (answer : Bool) → (IsTrue answer ↔ ((y : Polynomial p n) × (polynomial_product p n f y ≡ polynomial_one p n)))
        → Holds p n (zero_limit 1 (principal p n f) answer 0) }
{}

/// Over GF(2)[x], in degree 1 of the ideal (x): the class x of stage 1 never becomes a coboundary, the class `x^2` of stage 1 is one, and the limit is not zero.
pub fn the_ideal_of_x_over_two()
    ensures never { ¬ IsZeroClass Two 1 1 (principal Two 1 (polynomial_term Two 1 1 (1 ∷ []))) 1 ((polynomial_term Two 1 1 (1 ∷ [])) ∷ []) }
    ensures at_once { IsCoboundaryAfter Two 1 1 (principal Two 1 (polynomial_term Two 1 1 (1 ∷ []))) 0 1
        (polynomial_power Two 1 2 (polynomial_term Two 1 1 (1 ∷ [])) ∷ []) }
    ensures limit { Holds Two 1 (zero_limit 1 (principal Two 1 (polynomial_term Two 1 1 (1 ∷ []))) false 0) }
{}
