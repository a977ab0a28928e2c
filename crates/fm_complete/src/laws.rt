// Laws of the standard division, over the definition of its run.
ghost use Rattle.std.specs.Prelude.{List, Ok, [], length, true, ℕ, ◌+◌, ◌++◌, ◌≤◌, ◌∷◌, ◌↔◌, ◌≡◌};
ghost use Rattle.fm_algebra.specs.Polynomials.{Polynomial, polynomial_product, polynomial_sum};
ghost use Rattle.fm_poly.specs.declared.ring.Ring.{Ring};
ghost use Rattle.fm_vec.specs.Components.{component_meaning};
ghost use Rattle.fm_vec.specs.Vectors.{IsVector};
ghost use Rattle.fm_term.specs.declared.vterm.VTerm.{VTerm};
ghost use Rattle.fm_mono.specs.Bounded.{is_bounded};
ghost use Rattle.fm_groebner.specs.Bases.{IsGroebnerBasis};
ghost use Rattle.fm_groebner.specs.Logs.{FreeRun, IsComplete, IsIrreducible, IsKept, IsNumber, IsSVector, ReducesBy};
ghost use Rattle.fm_term.specs.Falling.{AreMonic};
ghost use Rattle.fm_term.specs.Meanings.{vectors_of};
ghost use Rattle.fm_vec.specs.Multiples.{monic_of, s_vector_fits, s_vector_of};
ghost use Rattle.fm_complete.specs.Completions.{Completion, completed, numbers};
ghost use Rattle.fm_complete.specs.Combinations.{AreVectors, IsReduced, combination};
ghost use Rattle.fm_complete.specs.Reductions.{Reduced, divided};
ghost use Rattle.fm_complete.specs.Within.{AllBounded, AreBounded};

/// Where a division ends, the dividend is the sum of the quotients times the members plus the rest, component by component. The rest
/// is zero, or no member's head divides its head (Cox, Little and O'Shea, Using Algebraic Geometry, chapter 5, section 2; only heads are reduced here).
pub fn a_division_that_ends_divides()
    ensures sum { (r : Ring) (n : ℕ) (members : List (List VTerm)) (units left : ℕ) (v : List VTerm) (x : Reduced) → AreVectors r n members → IsVector r n v
        → divided r members units v ≡ record { end = Ok x; left = left }
        → (k : ℕ) → polynomial_sum r.prime r.vars (combination r k 1 members x.steps) (component_meaning r k x.rest) ≡ component_meaning r k v }
    ensures reduced { (r : Ring) (n : ℕ) (members : List (List VTerm)) (units left : ℕ) (v : List VTerm) (x : Reduced) → AreVectors r n members → IsVector r n v
        → divided r members units v ≡ record { end = Ok x; left = left } → IsReduced members x.rest }
    ensures vector { (r : Ring) (n : ℕ) (members : List (List VTerm)) (units left : ℕ) (v : List VTerm) (x : Reduced) → AreVectors r n members → IsVector r n v
        → divided r members units v ≡ record { end = Ok x; left = left } → IsVector r n x.rest }
{}

/// One polynomial that isn't zero divides another exactly where the division of the other by it, as vectors of length 1, leaves no rest.
pub fn a_polynomial_divides_exactly_without_a_rest()
    ensures { (r : Ring) (units left : ℕ) (b : VTerm) (bs v : List VTerm) (x : Reduced) → IsVector r 1 (b ∷ bs) → IsVector r 1 v
        → divided r ((b ∷ bs) ∷ []) units v ≡ record { end = Ok x; left = left }
        → (x.rest ≡ []) ↔ ((q : Polynomial r.prime r.vars) × (component_meaning r 1 v ≡ polynomial_product r.prime r.vars q (component_meaning r 1 (b ∷ bs)))) }
{}

/// A division that ends is a reduction by the members that it lists, within the bound on exponents, to a rest whose head no member's head divides.
pub fn a_division_that_ends_is_a_reduction()
    ensures reduces { (r : Ring) (m units left : ℕ) (members : List (List VTerm)) (v : List VTerm) (x : Reduced)
        → AreVectors r m members → IsVector r m v → divided r members units v ≡ record { end = Ok x; left = left }
        → ReducesBy r.prime r.vars m r.order is_bounded members (numbers x.steps) v x.rest }
    ensures irreducible { (r : Ring) (m units left : ℕ) (members : List (List VTerm)) (v : List VTerm) (x : Reduced)
        → AreVectors r m members → IsVector r m v → divided r members units v ≡ record { end = Ok x; left = left }
        → IsIrreducible members x.rest }
{}

/// The S-vector of two monic members is that of the theory of Gröbner bases, where its multiples are within the bound; and a rest made monic is the
/// rest that is kept there.
pub fn vectors_of_the_run_are_those_of_the_theory()
    ensures s_vector { (r : Ring) (m : ℕ) (members : List (List VTerm)) (i j : ℕ) (u t : VTerm) (us ts : List VTerm)
        → AreVectors r m members → AreMonic r.prime r.vars m r.order members
        → IsNumber members i (u ∷ us) → IsNumber members j (t ∷ ts) → u.component ≡ t.component → s_vector_fits (u ∷ us) (t ∷ ts) ≡ true
        → IsSVector r.prime r.vars m r.order is_bounded u t us ts (s_vector_of r (u ∷ us) (t ∷ ts)) }
    ensures monic { (r : Ring) (m : ℕ) (members : List (List VTerm)) (t : VTerm) (ts : List VTerm) → IsVector r m (t ∷ ts)
        → IsKept r.prime members true (t ∷ ts) (members ++ monic_of r (t ∷ ts) ∷ []) }
{}

/// A completion that ends has a complete log of free steps, skips by the chain criterion included, so that its members are a Gröbner basis of the span of the inputs.
pub fn a_completion_that_ends_is_complete()
    ensures log { (r : Ring) (m : ℕ) (inputs : List (List VTerm)) (units left : ℕ) (c : Completion) → AreVectors r m inputs → completed r inputs units ≡ record { end = Ok c; left = left }
        → (taken : List ℕ) × (treated : List (ℕ × ℕ)) × FreeRun r.prime r.vars m r.order is_bounded inputs c.log c.members taken treated × IsComplete inputs c.members taken treated }
    ensures basis { (r : Ring) (m : ℕ) (inputs : List (List VTerm)) (units left : ℕ) (c : Completion) → AreVectors r m inputs → completed r inputs units ≡ record { end = Ok c; left = left }
        → IsGroebnerBasis r.prime r.vars m r.order (vectors_of r.prime r.vars m c.members) (vectors_of r.prime r.vars m inputs) }
{}

/// The rest of a division that ends is within the bound on exponents, where the dividend is: each multiple that a step adds was tested.
pub fn a_division_stays_within_the_bound()
    ensures { (r : Ring) (members : List (List VTerm)) (units left : ℕ) (v : List VTerm) (x : Reduced) → AllBounded v
        → divided r members units v ≡ record { end = Ok x; left = left } → AllBounded x.rest }
{}

/// The members of a completion that ends are within the bound on exponents, where the inputs are.
pub fn a_completion_stays_within_the_bound()
    ensures { (r : Ring) (inputs : List (List VTerm)) (units left : ℕ) (c : Completion) → AreBounded inputs
        → completed r inputs units ≡ record { end = Ok c; left = left } → AreBounded c.members }
{}

/// A completion that ends has at most as many members as it has spent units: each rest that is kept costs at least one.
pub fn a_completion_has_at_most_as_many_members_as_units()
    ensures { (r : Ring) (inputs : List (List VTerm)) (units left : ℕ) (c : Completion)
        → completed r inputs units ≡ record { end = Ok c; left = left } → length c.members + left ≤ units }
{}
