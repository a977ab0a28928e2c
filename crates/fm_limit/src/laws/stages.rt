// Stages in words of vectors and matrices, and when two classes are the same in the limit.
ghost use Rattle.std.specs.Prelude.{ℕ, suc, ◌≡◌, ◌↔◌, List, length, replicate};
ghost use Rattle.fm_gfp.specs.declared.prime.Prime.{Prime};
ghost use Rattle.fm_algebra.specs.Polynomials.{Polynomial, polynomial_zero};
ghost use Rattle.fm_algebra.specs.PolynomialMatrices.{matrix_transpose, matrix_twist, InImage, InKernel};
ghost use Rattle.fm_limit.specs.ResolvedIdeal.{ResolvedIdeal, matrix_at, differential, IsResolved};
ghost use Rattle.fm_limit.specs.Classes.{length_in, IsClass, IsCoboundaryAfter, IsZeroClass, IsSameClass, moved_once};

/// What the stages are, in vectors and matrices: a class of stage e is a vector that the transpose of `d_(i+1)^[q]` sends to 0; a coboundary is one in the image of the transpose of `d_i^[q]`; a move multiplies by the transpose of `theta_i^[q]`, and takes classes to classes.
pub fn stages_in_words_of_lists()
    ensures class { (p : Prime) (n i : ℕ) (I : ResolvedIdeal p n) → IsResolved p n i I
        → (e : ℕ) (z : List (Polynomial p n))
        → IsClass p n i I e z ↔ InKernel p n (matrix_transpose p n (matrix_twist p n e (matrix_at p n I.differentials i))) z }
    ensures coboundary { (p : Prime) (n i : ℕ) (I : ResolvedIdeal p n) → IsResolved p n i I
        → (e : ℕ) (z : List (Polynomial p n)) → length z ≡ length_in p n i I
        → IsCoboundaryAfter p n i I 0 e z ↔ InImage p n (matrix_transpose p n (matrix_twist p n e (differential p n I.differentials i))) z }
    ensures moves { (p : Prime) (n i : ℕ) (I : ResolvedIdeal p n) → IsResolved p n i I
        → (s e : ℕ) (z : List (Polynomial p n)) → IsCoboundaryAfter p n i I (suc s) e z
        ↔ IsCoboundaryAfter p n i I s (suc e) (moved_once p n i I e z) }
    ensures classes_move { (p : Prime) (n i : ℕ) (I : ResolvedIdeal p n) → IsResolved p n i I
        → (e : ℕ) (z : List (Polynomial p n)) → IsClass p n i I e z → IsClass p n i I (suc e) (moved_once p n i I e z) }
{}

/// To be the same in the limit is an equivalence; a class and what it is moved to are the same; and a class is zero in the limit exactly if it is the same as 0. So the classes up to this equivalence are the direct limit.
pub fn the_same_in_the_limit()
    ensures reflexive { (p : Prime) (n i : ℕ) (I : ResolvedIdeal p n) → IsResolved p n i I
        → (e : ℕ) (z : List (Polynomial p n)) → IsSameClass p n i I e z e z }
    ensures symmetric { (p : Prime) (n i : ℕ) (I : ResolvedIdeal p n) → IsResolved p n i I
        → (e : ℕ) (z : List (Polynomial p n)) (d : ℕ) (y : List (Polynomial p n)) → IsSameClass p n i I e z d y
        → IsSameClass p n i I d y e z }
    ensures transitive { (p : Prime) (n i : ℕ) (I : ResolvedIdeal p n) → IsResolved p n i I
        → (e : ℕ) (z : List (Polynomial p n)) (d : ℕ) (y : List (Polynomial p n)) (c : ℕ) (x : List (Polynomial p n))
        → IsSameClass p n i I e z d y → IsSameClass p n i I d y c x → IsSameClass p n i I e z c x }
    ensures moves { (p : Prime) (n i : ℕ) (I : ResolvedIdeal p n) → IsResolved p n i I
        → (e : ℕ) (z : List (Polynomial p n)) → IsSameClass p n i I e z (suc e) (moved_once p n i I e z) }
    ensures zero { (p : Prime) (n i : ℕ) (I : ResolvedIdeal p n) → IsResolved p n i I
        → (e : ℕ) (z : List (Polynomial p n)) → IsZeroClass p n i I e z
        ↔ IsSameClass p n i I e z e (replicate (length_in p n i I) (polynomial_zero p n)) }
{}
