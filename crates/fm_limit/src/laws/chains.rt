// The rising chain of a generating morphism, and steps from any stage.
ghost use Rattle.std.specs.Prelude.{ℕ, suc, ◌+◌, ◌≤◌, ◌≡◌, ◌↔◌, min, List, length};
ghost use Rattle.fm_gfp.specs.declared.prime.Prime.{Prime};
ghost use Rattle.fm_algebra.specs.Polynomials.{Polynomial};
ghost use Rattle.fm_algebra.specs.PolynomialMatrices.{PolynomialMatrix, matrix_product, matrix_beside, matrix_twist, InImage};
ghost use Rattle.fm_limit.specs.ResolvedIdeal.{ResolvedIdeal, matrix_at, IsResolved};
ghost use Rattle.fm_limit.specs.Facts.{ColumnsInImage, PresentsExt, IsWholeChain, IsRepeatingChain, steps_of, MapFacts};

/// Each member of the chain of U lies in the next. Where a member adds nothing to the one before it, all later members are equal to that one. (Lyubeznik 1997.)
pub fn a_chain_rises_and_is_constant_from_its_first_repeat()
    ensures rises { (p : Prime) (n : ℕ) (U : PolynomialMatrix p n) (K : ℕ → PolynomialMatrix p n) → IsWholeChain p n U K
        → (s : ℕ) (v : List (Polynomial p n)) → InImage p n (K s) v → InImage p n (K (suc s)) v }
    ensures constant { (p : Prime) (n : ℕ) (U : PolynomialMatrix p n) (K : ℕ → PolynomialMatrix p n) → IsWholeChain p n U K
        → (t : ℕ) → ColumnsInImage p n (K t) (K (suc t)) → (s : ℕ) (v : List (Polynomial p n)) → InImage p n (K s) v → InImage p n (K t) v }
{}

/// A chain of finitely many members goes on as itself after its repeat at t: `K_0, .., K_t, K_t, ..` is the whole chain. So its members rise, s steps from w end in the image of the twist of `K_0` exactly if w is in the image of the twist of `K_s`, for s through t + 1, and some number of steps does so exactly if w is in the image of the twist of `K_t`.
pub fn a_chain_goes_on_as_itself_after_its_repeat()
    ensures whole { (p : Prime) (n : ℕ) (U : PolynomialMatrix p n) (Ks : List (PolynomialMatrix p n)) (t : ℕ) → IsRepeatingChain p n U Ks t
        → IsWholeChain p n U (λ s. matrix_at p n Ks (min s t)) }
    ensures rises { (p : Prime) (n : ℕ) (U : PolynomialMatrix p n) (Ks : List (PolynomialMatrix p n)) (t : ℕ) → IsRepeatingChain p n U Ks t
        → (s : ℕ) → s ≤ t → (v : List (Polynomial p n)) → InImage p n (matrix_at p n Ks s) v → InImage p n (matrix_at p n Ks (suc s)) v }
    ensures steps { (p : Prime) (n : ℕ) (U : PolynomialMatrix p n) (Ks : List (PolynomialMatrix p n)) (t : ℕ) → IsRepeatingChain p n U Ks t
        → (s e : ℕ) (w : List (Polynomial p n)) → length w ≡ length U.columns → s ≤ suc t
        → InImage p n (matrix_twist p n (e + s) (matrix_at p n Ks 0)) (steps_of p n U s e w)
        ↔ InImage p n (matrix_twist p n e (matrix_at p n Ks s)) w }
    ensures some_number { (p : Prime) (n : ℕ) (U : PolynomialMatrix p n) (Ks : List (PolynomialMatrix p n)) (t : ℕ)
        → IsRepeatingChain p n U Ks t
        → (e : ℕ) (w : List (Polynomial p n)) → length w ≡ length U.columns
        → ((s : ℕ) × InImage p n (matrix_twist p n (e + s) (matrix_at p n Ks 0)) (steps_of p n U s e w))
        ↔ InImage p n (matrix_twist p n e (matrix_at p n Ks t)) w }
{}

/// The chain of the generating morphism may begin with the relations N of Ext, and the chain of the target's morphism with `[N | Phi]`: the columns of `U * N` lie in `im N^[p]`, and the same of `[N | Phi]`. This rests on resolutions and Ext alone.
pub fn where_a_chain_may_begin()
    ensures relations { (p : Prime) (n i : ℕ) (I : ResolvedIdeal p n) (Z N U : PolynomialMatrix p n) → IsResolved p n i I
        → PresentsExt p n i I Z N U
        → ColumnsInImage p n (matrix_twist p n 1 N) (matrix_product p n U N) }
    ensures join { (p : Prime) (n i : ℕ) (source target : ResolvedIdeal p n) (ZS NS US ZT NT UT Phi : PolynomialMatrix p n)
        (ls : List (PolynomialMatrix p n))
        → IsResolved p n i source → IsResolved p n i target → PresentsExt p n i source ZS NS US → PresentsExt p n i target ZT NT UT
        → MapFacts p n i source target ls ZS ZT Phi
        → ColumnsInImage p n (matrix_twist p n 1 (matrix_beside p n NT Phi)) (matrix_product p n UT (matrix_beside p n NT Phi)) }
{}

/// s steps from w at stage e end in the image of the twist of `K_0` exactly if w is in the image of the twist of `K_s` by e. Some number of steps does so exactly if w is in the image of the twist of the member at a repeat. (By flatness of Frobenius, Kunz 1969.)
pub fn steps_from_any_stage()
    ensures steps { (p : Prime) (n : ℕ) (U : PolynomialMatrix p n) (K : ℕ → PolynomialMatrix p n) → IsWholeChain p n U K
        → (s e : ℕ) (w : List (Polynomial p n)) → length w ≡ length U.columns
        → InImage p n (matrix_twist p n (e + s) (K 0)) (steps_of p n U s e w) ↔ InImage p n (matrix_twist p n e (K s)) w }
    ensures some_number { (p : Prime) (n : ℕ) (U : PolynomialMatrix p n) (K : ℕ → PolynomialMatrix p n) → IsWholeChain p n U K
        → (t : ℕ) → ColumnsInImage p n (K t) (K (suc t)) → (e : ℕ) (w : List (Polynomial p n)) → length w ≡ length U.columns
        → ((s : ℕ) × InImage p n (matrix_twist p n (e + s) (K 0)) (steps_of p n U s e w)) ↔ InImage p n (matrix_twist p n e (K t)) w }
{}
