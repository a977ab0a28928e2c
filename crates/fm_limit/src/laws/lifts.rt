// Lifts go on: the next matrix of a lift always exists, and a class has coordinates.
ghost use Rattle.std.specs.Prelude.{ℕ, ◌≤◌, List, length};
ghost use Rattle.fm_gfp.specs.declared.prime.Prime.{Prime};
ghost use Rattle.fm_algebra.specs.Polynomials.{Polynomial};
ghost use Rattle.fm_algebra.specs.PolynomialMatrices.{PolynomialMatrix, HasShape, matrix_product, matrix_transpose, matrix_twist, GeneratesKernel};
ghost use Rattle.fm_limit.specs.ResolvedIdeal.{ResolvedIdeal, matrix_at, rank, LiesIn, IsResolutionOf, IsFrobeniusLiftOf, IsResolved, IsLiftOfIdentityOf};
ghost use Rattle.fm_limit.specs.Classes.{IsClass};
ghost use Rattle.fm_limit.specs.Facts.{ColumnsInImage, AreCoordinates};

/// The equation for the next matrix of a lift has a solution: the columns on its other side lie in the image. For `theta_(j+1)` the columns of `theta_j * d_(j+1)^[p]` lie in `im d_(j+1)`; for `lambda_(j+1)`, where the ideal that ds resolves lies in the one that us resolves, those of `lambda_j * d_(j+1)`; for U those of the transpose of `theta_i` times Z lie in `im Z^[p]`; for Phi those of the transpose of `lambda_i` times the source's Z lie in the image of the target's. (Comparison theorem, any textbook of homological algebra.)
pub fn the_next_matrix_of_a_lift_exists()
    ensures theta { (p : Prime) (n i : ℕ) (fs : List (Polynomial p n)) (ds : List (PolynomialMatrix p n)) → IsResolutionOf p n fs i ds
        → (j : ℕ) (ts : List (PolynomialMatrix p n)) → j ≤ i → IsFrobeniusLiftOf p n j ds ts
        → ColumnsInImage p n (matrix_at p n ds j) (matrix_product p n (matrix_at p n ts j) (matrix_twist p n 1 (matrix_at p n ds j))) }
    ensures lambda { (p : Prime) (n i : ℕ) (fs gs : List (Polynomial p n)) (ds us : List (PolynomialMatrix p n))
        → IsResolutionOf p n fs i ds → IsResolutionOf p n gs i us → LiesIn p n fs gs
        → (j : ℕ) (ls : List (PolynomialMatrix p n)) → j ≤ i → IsLiftOfIdentityOf p n j ds us ls
        → ColumnsInImage p n (matrix_at p n us j) (matrix_product p n (matrix_at p n ls j) (matrix_at p n ds j)) }
    ensures morphism { (p : Prime) (n i : ℕ) (fs : List (Polynomial p n)) (ds ts : List (PolynomialMatrix p n))
        → IsResolutionOf p n fs i ds → IsFrobeniusLiftOf p n i ds ts
        → (Z : PolynomialMatrix p n) → HasShape p n (rank p n ds i) (length Z.columns) Z
        → GeneratesKernel p n Z (matrix_transpose p n (matrix_at p n ds i))
        → ColumnsInImage p n (matrix_twist p n 1 Z) (matrix_product p n (matrix_transpose p n (matrix_at p n ts i)) Z) }
    ensures phi { (p : Prime) (n i : ℕ) (fs gs : List (Polynomial p n)) (ds us ls : List (PolynomialMatrix p n))
        → IsResolutionOf p n fs i ds → IsResolutionOf p n gs i us → LiesIn p n fs gs → IsLiftOfIdentityOf p n i ds us ls
        → (ZS ZT : PolynomialMatrix p n) → HasShape p n (rank p n us i) (length ZS.columns) ZS
        → HasShape p n (rank p n ds i) (length ZT.columns) ZT
        → GeneratesKernel p n ZS (matrix_transpose p n (matrix_at p n us i))
        → GeneratesKernel p n ZT (matrix_transpose p n (matrix_at p n ds i))
        → ColumnsInImage p n ZT (matrix_product p n (matrix_transpose p n (matrix_at p n ls i)) ZS) }
{}

/// A class of stage e is `Z^[q] * w` for some w, where Z generates the cocycles of stage 0. This rests on the resolution alone. (By flatness of Frobenius, Kunz 1969.)
pub fn a_class_has_coordinates()
    ensures { (p : Prime) (n i : ℕ) (I : ResolvedIdeal p n) → IsResolved p n i I
        → (Z : PolynomialMatrix p n) → HasShape p n (rank p n I.differentials i) (length Z.columns) Z
        → GeneratesKernel p n Z (matrix_transpose p n (matrix_at p n I.differentials i))
        → (e : ℕ) (z : List (Polynomial p n)) → IsClass p n i I e z → (w : List (Polynomial p n)) × AreCoordinates p n Z e z w }
{}
