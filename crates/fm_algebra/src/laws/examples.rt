// Worked products and twists, done by hand, so that a wrong definition would be seen.
ghost use Rattle.std.specs.Prelude.{[], ◌∷◌, ◌≡◌};
ghost use Rattle.fm_gfp.specs.declared.prime.Prime.TheVariants.{Five, Three, Two};
ghost use Rattle.fm_algebra.specs.Polynomials.{coefficient, frobenius_twist, polynomial_of, polynomial_power, polynomial_product, polynomial_sum};

/// (3x + 4) + (2x + 4) = 3 over GF(5).
pub fn a_sum_over_five()
    ensures { polynomial_sum Five 1 (polynomial_of Five 1 ((1 ∷ [], 3) ∷ (0 ∷ [], 4) ∷ [])) (polynomial_of Five 1 ((1 ∷ [], 2) ∷ (0 ∷ [], 4) ∷ []))
        ≡ polynomial_of Five 1 ((0 ∷ [], 3) ∷ []) }
{}

/// (x + y)(x - y) = x^2 - y^2 over GF(3).
pub fn a_difference_of_squares_over_three()
    ensures { polynomial_product Three 2 (polynomial_of Three 2 ((1 ∷ 0 ∷ [], 1) ∷ (0 ∷ 1 ∷ [], 1) ∷ [])) (polynomial_of Three 2 ((1 ∷ 0 ∷ [], 1) ∷ (0 ∷ 1 ∷ [], 2) ∷ []))
        ≡ polynomial_of Three 2 ((2 ∷ 0 ∷ [], 1) ∷ (0 ∷ 2 ∷ [], 2) ∷ []) }
{}

/// (x + y)^2 = x^2 + y^2 over GF(2), but not over GF(3): there the coefficient at xy is 2.
pub fn a_square_over_two_and_three()
    ensures two { polynomial_power Two 2 2 (polynomial_of Two 2 ((1 ∷ 0 ∷ [], 1) ∷ (0 ∷ 1 ∷ [], 1) ∷ []))
        ≡ polynomial_of Two 2 ((2 ∷ 0 ∷ [], 1) ∷ (0 ∷ 2 ∷ [], 1) ∷ []) }
    ensures three { coefficient Three 2 (polynomial_power Three 2 2 (polynomial_of Three 2 ((1 ∷ 0 ∷ [], 1) ∷ (0 ∷ 1 ∷ [], 1) ∷ []))) (1 ∷ 1 ∷ []) ≡ 2 }
{}

/// (x^2 y + 2y)^[3] = x^6 y^3 + 2 y^3 over GF(3), and (x + y)^[4] = x^4 + y^4 over GF(2).
pub fn twists_of_two_polynomials()
    ensures three { frobenius_twist Three 2 1 (polynomial_of Three 2 ((2 ∷ 1 ∷ [], 1) ∷ (0 ∷ 1 ∷ [], 2) ∷ []))
        ≡ polynomial_of Three 2 ((6 ∷ 3 ∷ [], 1) ∷ (0 ∷ 3 ∷ [], 2) ∷ []) }
    ensures four { frobenius_twist Two 2 2 (polynomial_of Two 2 ((1 ∷ 0 ∷ [], 1) ∷ (0 ∷ 1 ∷ [], 1) ∷ []))
        ≡ polynomial_of Two 2 ((4 ∷ 0 ∷ [], 1) ∷ (0 ∷ 4 ∷ [], 1) ∷ []) }
{}
