// Worked examples.
ghost use Rattle.std.specs.Prelude.{ℕ, List, [], ◌∷◌, ◌≡◌};
ghost use Rattle.std.specs.declared.cmp.Ordering.TheVariants.{Greater};
ghost use Rattle.fm_gfp.specs.declared.prime.Prime.TheVariants.{Two};
ghost use Rattle.fm_mono.specs.declared.order.Order.{Order};
ghost use Rattle.fm_mono.specs.declared.order.Order.TheVariants.{Grevlex};
ghost use Rattle.fm_algebra.specs.PolynomialMatrices.{InImage};
ghost use Rattle.fm_term.specs.Places.{place_cmp};
ghost use Rattle.fm_term.specs.Meanings.{vector_of, vectors_of};
ghost use Rattle.fm_groebner.specs.Bases.{IsGroebnerBasis, generators};
ghost use Rattle.fm_groebner.specs.Logs.{anything, FreeRun, IsComplete, IsIrreducible, ReducesBy};
ghost use Rattle.fm_groebner.specs.Examples.{two_vectors, unfinished_log, x_alone, worked_inputs, worked_log, worked_members, worked_treated};

/// Over GF(2)[x, y] the completion of x^2 + y and x: the S-vector of the two is y, the pair of x and y gives 0, and the pair of x^2 + y and y is skipped by x.
pub fn a_worked_log_is_complete()
    ensures run { FreeRun Two 2 1 Grevlex anything worked_inputs worked_log worked_members (2 ∷ 1 ∷ []) worked_treated }
    ensures complete { IsComplete worked_inputs worked_members (2 ∷ 1 ∷ []) worked_treated }
{}

/// The heads of (x; 1) and (y; 0) have no common variable, and yet the two are no Gröbner basis of what they span: the product criterion fails for vectors.
pub fn the_product_criterion_fails_for_vectors()
    ensures { (o : Order) → ¬ (IsGroebnerBasis Two 2 2 o (vectors_of Two 2 2 two_vectors) (vectors_of Two 2 2 two_vectors)) }
{}

/// A log whose inputs are all taken, but whose pair is not treated, need not give a Gröbner basis: this one keeps (x; 1) and (y; 0), which are none.
pub fn an_unfinished_log_gives_no_basis()
    ensures run { (o : Order) → FreeRun Two 2 2 o anything two_vectors unfinished_log two_vectors (2 ∷ 1 ∷ []) [] }
    ensures unfinished { ¬ (IsComplete two_vectors two_vectors (2 ∷ 1 ∷ []) []) }
    ensures no_basis { (o : Order) → ¬ (IsGroebnerBasis Two 2 2 o (vectors_of Two 2 2 two_vectors) (vectors_of Two 2 2 two_vectors)) }
{}

/// A rest that a head still divides does not decide membership: x is its own rest where nothing is reduced, it is not zero, and it lies in the ideal of x.
pub fn a_reducible_rest_does_not_decide_membership()
    ensures rest { (o : Order) → ReducesBy Two 2 1 o anything (x_alone ∷ []) [] x_alone x_alone }
    ensures member { (o : Order) → InImage Two 2 (generators Two 2 1 (vectors_of Two 2 1 (x_alone ∷ []))) (vector_of Two 2 1 x_alone) }
    ensures reducible { ¬ (IsIrreducible (x_alone ∷ []) x_alone) }
{}

/// Position over term: whatever the monomials, the first component is the greater.
pub fn the_first_component_is_the_greater()
    ensures { (o : Order) (a b : List ℕ) → place_cmp o 1 a 2 b ≡ Greater }
{}
