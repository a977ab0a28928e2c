// What a root and a support ideal say of a limit.
ghost use Rattle.std.specs.Prelude.{ℕ, suc, ◌≡◌, ◌↔◌, List, length};
ghost use Rattle.fm_gfp.specs.declared.prime.Prime.{Prime};
ghost use Rattle.fm_algebra.specs.Polynomials.{Polynomial, polynomial_power};
ghost use Rattle.fm_algebra.specs.PolynomialMatrices.{PolynomialMatrix, matrix_twist, vector_product};
ghost use Rattle.fm_limit.specs.ResolvedIdeal.{ResolvedIdeal, InIdeal, IsResolved};
ghost use Rattle.fm_limit.specs.Classes.{moved_once, IsClass, IsRootOf, IsZeroLimit, IsSameClass, AreCohomologous, IsSupportIdealOf};
ghost use Rattle.fm_limit.specs.Facts.{IsEverything};

/// A root (Z, K, U) determines the limit. The limit is zero exactly if `im K` is everything. Each class of stage e is the same in the limit as some `Z^[q] * w`. And `Z^[q] * w` is moved to `Z^[pq] * (U^[q] * w)`, up to a coboundary of the stage reached. (Lyubeznik 1997.)
pub fn a_root_determines_the_limit()
    ensures zero { (p : Prime) (n i : ℕ) (I : ResolvedIdeal p n) → IsResolved p n i I
        → (Z K U : PolynomialMatrix p n) → IsRootOf p n i I Z K U → IsZeroLimit p n i I ↔ IsEverything p n K }
    ensures classes { (p : Prime) (n i : ℕ) (I : ResolvedIdeal p n) → IsResolved p n i I
        → (Z K U : PolynomialMatrix p n) → IsRootOf p n i I Z K U
        → (e : ℕ) (z : List (Polynomial p n)) → IsClass p n i I e z
        → (w : List (Polynomial p n)) × (length w ≡ length Z.columns) × IsSameClass p n i I e z e
        (vector_product p n (matrix_twist p n e Z) w) }
    ensures moves { (p : Prime) (n i : ℕ) (I : ResolvedIdeal p n) → IsResolved p n i I
        → (Z K U : PolynomialMatrix p n) → IsRootOf p n i I Z K U
        → (e : ℕ) (w : List (Polynomial p n)) → length w ≡ length Z.columns
        → AreCohomologous p n i I (suc e) (moved_once p n i I e (vector_product p n (matrix_twist p n e Z) w))
        (vector_product p n (matrix_twist p n (suc e) Z) (vector_product p n (matrix_twist p n e U) w)) }
{}

/// Two support ideals of one limit have the same powers: of each f, some power lies in the one exactly if some power lies in the other. So they have the same radical.
pub fn two_support_ideals_have_the_same_powers()
    ensures { (p : Prime) (n i : ℕ) (I : ResolvedIdeal p n) (fs gs : List (Polynomial p n)) → IsSupportIdealOf p n i I fs
        → IsSupportIdealOf p n i I gs
        → (f : Polynomial p n)
        → ((k : ℕ) × InIdeal p n fs (polynomial_power p n k f)) ↔ ((k : ℕ) × InIdeal p n gs (polynomial_power p n k f)) }
{}
