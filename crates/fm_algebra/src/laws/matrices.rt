// Laws of vectors and matrices over GF(p)[x1 .. xn], and flatness of Frobenius.
ghost use Rattle.std.specs.Prelude.{ℕ, List, ◌+◌, ◌<◌, ◌≡◌, ◌↔◌, length, get_or};
ghost use Rattle.fm_gfp.specs.declared.prime.Prime.{Prime};
ghost use Rattle.fm_algebra.specs.Polynomials.{Polynomial};
ghost use Rattle.fm_algebra.specs.PolynomialMatrices.{PolynomialMatrix, HasShape, matrix_product, vector_product, matrix_sum, matrix_negative, matrix_zero, matrix_unit, matrix_scalar, matrix_column, matrix_transpose, matrix_beside, matrix_above, matrix_picked, matrix_twist, vector_twist, InImage, InKernel, InPreimage, GeneratesKernel, GeneratesPreimage};

/// Products of matrices whose shapes fit are associative, and the unit matrices are neutral.
pub fn products_of_matrices_are_associative()
    ensures associative { (p : Prime) (n : ℕ) (r k l c : ℕ) (A B C : PolynomialMatrix p n) → HasShape p n r k A → HasShape p n k l B → HasShape p n l c C → matrix_product p n (matrix_product p n A B) C ≡ matrix_product p n A (matrix_product p n B C) }
    ensures unit_left { (p : Prime) (n : ℕ) (r c : ℕ) (A : PolynomialMatrix p n) → HasShape p n r c A → matrix_product p n (matrix_unit p n r) A ≡ A }
    ensures unit_right { (p : Prime) (n : ℕ) (r c : ℕ) (A : PolynomialMatrix p n) → HasShape p n r c A → matrix_product p n A (matrix_unit p n c) ≡ A }
{}

/// The matrices of one shape are a commutative group under the sum.
pub fn sums_of_matrices_are_a_commutative_group()
    ensures commutative { (p : Prime) (n : ℕ) (r c : ℕ) (A B : PolynomialMatrix p n) → HasShape p n r c A → HasShape p n r c B → matrix_sum p n A B ≡ matrix_sum p n B A }
    ensures associative { (p : Prime) (n : ℕ) (r c : ℕ) (A B C : PolynomialMatrix p n) → HasShape p n r c A → HasShape p n r c B → HasShape p n r c C → matrix_sum p n (matrix_sum p n A B) C ≡ matrix_sum p n A (matrix_sum p n B C) }
    ensures neutral { (p : Prime) (n : ℕ) (r c : ℕ) (A : PolynomialMatrix p n) → HasShape p n r c A → matrix_sum p n A (matrix_zero p n r c) ≡ A }
    ensures inverse { (p : Prime) (n : ℕ) (r c : ℕ) (A : PolynomialMatrix p n) → HasShape p n r c A → matrix_sum p n A (matrix_negative p n A) ≡ matrix_zero p n r c }
{}

/// Products distribute over sums on both sides, and a multiple of the unit matrix commutes with every matrix.
pub fn products_distribute_over_sums_of_matrices()
    ensures left { (p : Prime) (n : ℕ) (r k c : ℕ) (A B C : PolynomialMatrix p n) → HasShape p n r k A → HasShape p n k c B → HasShape p n k c C → matrix_product p n A (matrix_sum p n B C) ≡ matrix_sum p n (matrix_product p n A B) (matrix_product p n A C) }
    ensures right { (p : Prime) (n : ℕ) (r k c : ℕ) (A B C : PolynomialMatrix p n) → HasShape p n r k A → HasShape p n r k B → HasShape p n k c C → matrix_product p n (matrix_sum p n A B) C ≡ matrix_sum p n (matrix_product p n A C) (matrix_product p n B C) }
    ensures scalar { (p : Prime) (n : ℕ) (f : Polynomial p n) (r c : ℕ) (A : PolynomialMatrix p n) → HasShape p n r c A → matrix_product p n (matrix_scalar p n f r) A ≡ matrix_product p n A (matrix_scalar p n f c) }
{}

/// The transpose is its own inverse, respects sums, turns products round, and turns a join beside into a join above.
pub fn transposes_of_matrices()
    ensures twice { (p : Prime) (n : ℕ) (r c : ℕ) (A : PolynomialMatrix p n) → HasShape p n r c A → matrix_transpose p n (matrix_transpose p n A) ≡ A }
    ensures sum { (p : Prime) (n : ℕ) (r c : ℕ) (A B : PolynomialMatrix p n) → HasShape p n r c A → HasShape p n r c B → matrix_transpose p n (matrix_sum p n A B) ≡ matrix_sum p n (matrix_transpose p n A) (matrix_transpose p n B) }
    ensures product { (p : Prime) (n : ℕ) (r k c : ℕ) (A B : PolynomialMatrix p n) → HasShape p n r k A → HasShape p n k c B → matrix_transpose p n (matrix_product p n A B) ≡ matrix_product p n (matrix_transpose p n B) (matrix_transpose p n A) }
    ensures beside { (p : Prime) (n : ℕ) (r k c : ℕ) (A B : PolynomialMatrix p n) → HasShape p n r k A → HasShape p n r c B → matrix_transpose p n (matrix_beside p n A B) ≡ matrix_above p n (matrix_transpose p n A) (matrix_transpose p n B) }
{}

/// `[A | B]` times X above Y is `A * X + B * Y`.
pub fn products_of_joined_matrices()
    ensures { (p : Prime) (n : ℕ) (r k l c : ℕ) (A B X Y : PolynomialMatrix p n) → HasShape p n r k A → HasShape p n r l B → HasShape p n k c X → HasShape p n l c Y → matrix_product p n (matrix_beside p n A B) (matrix_above p n X Y) ≡ matrix_sum p n (matrix_product p n A X) (matrix_product p n B Y) }
{}

/// A product of matrices acts on a vector as one after the other, and a vector is a matrix with one column.
pub fn matrices_act_on_vectors()
    ensures product { (p : Prime) (n : ℕ) (r k c : ℕ) (A B : PolynomialMatrix p n) (w : List (Polynomial p n)) → HasShape p n r k A → HasShape p n k c B → length w ≡ c → vector_product p n (matrix_product p n A B) w ≡ vector_product p n A (vector_product p n B w) }
    ensures column { (p : Prime) (n : ℕ) (r c : ℕ) (A : PolynomialMatrix p n) (w : List (Polynomial p n)) → HasShape p n r c A → length w ≡ c → matrix_product p n A (matrix_column p n w) ≡ matrix_column p n (vector_product p n A w) }
{}

/// The Frobenius twist of matrices respects products, sums, transposes, unit matrices and joins; twists compose, and the twist by `p^0` changes nothing.
pub fn twists_of_matrices()
    ensures product { (p : Prime) (n : ℕ) (e r k c : ℕ) (A B : PolynomialMatrix p n) → HasShape p n r k A → HasShape p n k c B → matrix_twist p n e (matrix_product p n A B) ≡ matrix_product p n (matrix_twist p n e A) (matrix_twist p n e B) }
    ensures sum { (p : Prime) (n : ℕ) (e r c : ℕ) (A B : PolynomialMatrix p n) → HasShape p n r c A → HasShape p n r c B → matrix_twist p n e (matrix_sum p n A B) ≡ matrix_sum p n (matrix_twist p n e A) (matrix_twist p n e B) }
    ensures transpose { (p : Prime) (n : ℕ) (e r c : ℕ) (A : PolynomialMatrix p n) → HasShape p n r c A → matrix_twist p n e (matrix_transpose p n A) ≡ matrix_transpose p n (matrix_twist p n e A) }
    ensures unit { (p : Prime) (n : ℕ) (e r : ℕ) → matrix_twist p n e (matrix_unit p n r) ≡ matrix_unit p n r }
    ensures beside { (p : Prime) (n : ℕ) (e r k c : ℕ) (A B : PolynomialMatrix p n) → HasShape p n r k A → HasShape p n r c B → matrix_twist p n e (matrix_beside p n A B) ≡ matrix_beside p n (matrix_twist p n e A) (matrix_twist p n e B) }
    ensures above { (p : Prime) (n : ℕ) (e r c k : ℕ) (A B : PolynomialMatrix p n) → HasShape p n r c A → HasShape p n k c B → matrix_twist p n e (matrix_above p n A B) ≡ matrix_above p n (matrix_twist p n e A) (matrix_twist p n e B) }
    ensures none { (p : Prime) (n : ℕ) (r c : ℕ) (A : PolynomialMatrix p n) → HasShape p n r c A → matrix_twist p n 0 A ≡ A }
    ensures twice { (p : Prime) (n : ℕ) (d e r c : ℕ) (A : PolynomialMatrix p n) → HasShape p n r c A → matrix_twist p n d (matrix_twist p n e A) ≡ matrix_twist p n (e + d) A }
{}

/// The image of a product lies in the image of its left factor, the kernel of the right factor lies in that of the product, and picked columns of a matrix span no more than the matrix does.
pub fn images_and_kernels_of_products()
    ensures image { (p : Prime) (n : ℕ) (r k c : ℕ) (A B : PolynomialMatrix p n) (v : List (Polynomial p n)) → HasShape p n r k A → HasShape p n k c B → InImage p n (matrix_product p n A B) v → InImage p n A v }
    ensures kernel { (p : Prime) (n : ℕ) (r k c : ℕ) (A B : PolynomialMatrix p n) (w : List (Polynomial p n)) → HasShape p n r k A → HasShape p n k c B → InKernel p n B w → InKernel p n (matrix_product p n A B) w }
    ensures picked { (p : Prime) (n : ℕ) (r c : ℕ) (A : PolynomialMatrix p n) (js : List ℕ) (v : List (Polynomial p n)) → HasShape p n r c A → ((j : ℕ) → j < length js → get_or js j 0 < c) → InImage p n (matrix_picked p n A js) v → InImage p n A v }
{}

/// Flatness of Frobenius on kernels: the kernel of `A^[q]` is generated by the twists of any generators of the kernel of A. (E. Kunz, Characterizations of regular local rings of characteristic p, American Journal of Mathematics 91, 1969.)
pub fn the_kernel_of_a_twist()
    ensures { (p : Prime) (n : ℕ) (e : ℕ) (A C : PolynomialMatrix p n) → GeneratesKernel p n C A → GeneratesKernel p n (matrix_twist p n e C) (matrix_twist p n e A) }
{}

/// Flatness of Frobenius on preimages. If C generates all w with `A * w` in `im B`, then `C^[q]` generates all w with `A^[q] * w` in `im B^[q]`. If `im C` has at least all these w, so has `im C^[q]`. And if `A^[q] * w` is in `im B^[q]`, some C has `A * C` in `im B` and w in `im C^[q]`. (Kunz 1969.)
pub fn the_preimage_under_a_twist()
    ensures generates { (p : Prime) (n : ℕ) (e : ℕ) (A B C : PolynomialMatrix p n) → GeneratesPreimage p n C A B → GeneratesPreimage p n (matrix_twist p n e C) (matrix_twist p n e A) (matrix_twist p n e B) }
    ensures contains { (p : Prime) (n : ℕ) (e : ℕ) (A B C : PolynomialMatrix p n) → ((w : List (Polynomial p n)) → InPreimage p n A B w → InImage p n C w) → (w : List (Polynomial p n)) → InPreimage p n (matrix_twist p n e A) (matrix_twist p n e B) w → InImage p n (matrix_twist p n e C) w }
    ensures equations { (p : Prime) (n : ℕ) (e : ℕ) (A B : PolynomialMatrix p n) (w : List (Polynomial p n)) → InPreimage p n (matrix_twist p n e A) (matrix_twist p n e B) w → (k : ℕ) × (C : PolynomialMatrix p n) × (X : PolynomialMatrix p n) × HasShape p n (length A.columns) k C × HasShape p n (length B.columns) k X × (matrix_product p n A C ≡ matrix_product p n B X) × InImage p n (matrix_twist p n e C) w }
{}

/// v is in `im A` exactly if `v^[q]` is in `im A^[q]`: Frobenius is faithfully flat. (Kunz 1969.)
pub fn membership_in_the_image_of_a_twist()
    ensures { (p : Prime) (n : ℕ) (e : ℕ) (A : PolynomialMatrix p n) (v : List (Polynomial p n)) → InImage p n A v ↔ InImage p n (matrix_twist p n e A) (vector_twist p n e v) }
{}
