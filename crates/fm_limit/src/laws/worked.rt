// Worked examples in one and two variables over GF(2), done by hand.
ghost use Rattle.std.specs.Prelude.{ℕ, ◌≡◌, true, false, [], ◌∷◌, Some, None};
ghost use Rattle.fm_gfp.specs.declared.prime.Prime.{Prime};
ghost use Rattle.fm_gfp.specs.declared.prime.Prime.TheVariants.{Two};
ghost use Rattle.fm_algebra.specs.Polynomials.{Polynomial, polynomial_zero, polynomial_sum, polynomial_one, polynomial_term, polynomial_product};
ghost use Rattle.fm_limit.specs.ResolvedIdeal.{IsResolved};
ghost use Rattle.fm_limit.specs.Facts.{IsColons, IsAnnihilatorRow};
ghost use Rattle.fm_limit.specs.Verdicts.{Holds, zero_limit, zero_class, inverting, support, induced_map};
ghost use Rattle.fm_limit.specs.SystemFacts.{ZeroHolds};
ghost use Rattle.fm_limit.specs.GivenModules.{ModuleFacts};
ghost use Rattle.fm_limit.specs.LimitOf.{module_limit, system_from};
ghost use Rattle.fm_limit.specs.Found.{IsFoundDegree, IsFoundMap, IsJoin};
ghost use Rattle.fm_limit.specs.SmallIdeals.{one_entry, principal};
ghost use Rattle.fm_limit.specs.SmallModules.{ring_modulo};
ghost use Rattle.fm_limit.specs.PairIdeals.{pair_row, pair_ideal, principal_in_degree_two, square_lift, first_lift, second_lift};
ghost use Rattle.fm_limit.specs.PlaneIdeals.{one, x, y, x_squared, line, line_found, point, point_in_degree_one, double_point, point_coordinates, point_to_double, double_join};

/// The ring modulo f with the morphism that multiplies by `f^[p]`: its facts hold with the chain (f), (1), (1). So its limit is zero, and one move is the least number that is enough, unless f is a unit. So it is over GF(2)[x] for f = x.
pub fn the_ring_modulo_one_element()
    ensures facts { (p : Prime) (n : ℕ) (f : Polynomial p n)
        → ModuleFacts p n (ring_modulo p n f)
        (one_entry p n f ∷ one_entry p n (polynomial_one p n) ∷ one_entry p n (polynomial_one p n) ∷ []) 1 }
    ensures verdict { (p : Prime) (n : ℕ) (f : Polynomial p n)
        → ¬ ((y : Polynomial p n) × (polynomial_product p n f y ≡ polynomial_one p n))
        → ZeroHolds p n (system_from p n (module_limit (ring_modulo p n f))) true 1 }
    ensures x_over_two { ZeroHolds Two 1 (system_from Two 1 (module_limit (ring_modulo Two 1 (polynomial_term Two 1 1 (1 ∷ []))))) true 1 }
{}

/// Over GF(2), with h and f not 0, where f divides a multiple of g only if it divides the other factor: `(h f, h g)`, `(g, f)` and the matrix without columns are a resolution through degree 2, with the lift `(1)`, `diag(h f, h g)`, `(h f g)`. For h = f, where 1 is not in the ideal of f and g: the facts of degree 2 hold with Z = (1) and the morphism `(f f g)`, so the limit is zero and one move is the least number that is enough. For f = x and g = y this is the ideal of `x^2` and `x y`.
pub fn two_products_in_degree_two()
    ensures resolved { (n : ℕ) (h f g : Polynomial Two n) → ¬ (h ≡ polynomial_zero Two n) → ¬ (f ≡ polynomial_zero Two n)
        → ((b : Polynomial Two n) → ((y : Polynomial Two n) × (polynomial_product Two n f y ≡ polynomial_product Two n g b))
        → (y : Polynomial Two n) × (polynomial_product Two n f y ≡ b))
        → IsResolved Two n 2 (pair_ideal n h f g) }
    ensures verdict { (n : ℕ) (f g : Polynomial Two n) → ¬ (f ≡ polynomial_zero Two n)
        → ((b : Polynomial Two n) → ((y : Polynomial Two n) × (polynomial_product Two n f y ≡ polynomial_product Two n g b))
        → (y : Polynomial Two n) × (polynomial_product Two n f y ≡ b))
        → ((a b : Polynomial Two n)
        → ¬ (polynomial_sum Two n (polynomial_product Two n g a) (polynomial_product Two n f b) ≡ polynomial_one Two n))
        → Holds Two n (zero_limit 2 (pair_ideal n f f g) true 1) }
{}

/// Over GF(2)[x, y] in degree 2: for the ideal of `x^2` and `x y` the morphism is `(x^2 y)`, the limit is zero, one move is the least number that is enough, and the class 1 of stage 0 is a coboundary first at stage 1. For the ideal of x and y the limit is not zero, and its support ideal is that of x and y.
pub fn two_ideals_in_two_variables()
    ensures facts { IsFoundDegree Two 2 2 line_found }
    ensures line { Holds Two 2 (zero_limit 2 line true 1) }
    ensures class { Holds Two 2 (zero_class 2 line 0 (one ∷ []) (Some 1)) }
    ensures point { Holds Two 2 (zero_limit 2 point false 0) }
    ensures support { Holds Two 2 (support 2 point (y ∷ x ∷ [])) }
    ensures annihilators { IsAnnihilatorRow Two 2 (pair_row 2 y x) (pair_row 2 y x) }
{}

/// Over GF(2)[x, y] in degree 2 the limit of the ideal of x and y vanishes after inverting x, and x itself annihilates; it does not after inverting x + 1, since the colons by x + 1 stay at `(y, x)`. The limit of the ideal of `x^2` and y vanishes after inverting x, and `x^2` is the least power that annihilates.
pub fn inverting_in_two_variables()
    ensures point { Holds Two 2 (inverting 2 point x (Some 1)) }
    ensures double_point { Holds Two 2 (inverting 2 double_point x (Some 2)) }
    ensures never { Holds Two 2 (inverting 2 point (polynomial_sum Two 2 x one) None) }
    ensures colons { IsColons Two 2 (pair_row 2 y x) (polynomial_sum Two 2 x one) (pair_row 2 y x ∷ pair_row 2 y x ∷ []) 0 }
{}

/// Over GF(2)[x, y] the maps from the ideal of x and y. To that of `x^2` and y in degree 2 it is x in coordinates: not zero, one to one, and onto after one move and no fewer. To that of x in degree 1 it is zero, one to one, since the source is zero, and not onto; in degree 2 it is zero and onto, since the target is zero, and not one to one.
pub fn maps_in_two_variables()
    ensures facts { IsFoundMap Two 2 2 point_to_double }
    ensures join { IsJoin Two 2 (point_coordinates x_squared) (one_entry Two 2 x) double_join 1 }
    ensures to_double { Holds Two 2 (induced_map 2 point double_point (square_lift 2 x) false true (Some 1)) }
    ensures to_line_in_degree_one { Holds Two 2 (induced_map 1 point_in_degree_one (principal Two 2 x) (first_lift 2) true true None) }
    ensures to_line_in_degree_two { Holds Two 2 (induced_map 2 point (principal_in_degree_two 2 x) (second_lift 2) true false (Some 0)) }
{}
