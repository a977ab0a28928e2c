// Laws of the standard run: what runs that end have established.
ghost use Rattle.std.specs.Prelude.{Contains, List, Ok, [], get_or, length, take, true, ℕ, ◌+◌, ◌++◌, ◌<◌, ◌≤◌, ◌∷◌, ◌↔◌, ◌≡◌};
ghost use Rattle.fm_algebra.specs.PolynomialMatrices.{GeneratesKernel, GeneratesPreimage, HasShape, InImage, InKernel, matrix_beside, matrix_product, matrix_twist, vector_product};
ghost use Rattle.fm_complete.specs.Combinations.{AreVectors};
ghost use Rattle.fm_complete.specs.Reductions.{Reduced};
ghost use Rattle.fm_groebner.specs.Bases.{IsGroebnerBasis, generators};
ghost use Rattle.fm_groebner.specs.Logs.{FreeRun, IsComplete};
ghost use Rattle.fm_term.specs.Meanings.{vectors_of};
ghost use Rattle.fm_poly.specs.Polys.{IsCanonical, meaning, pairs};
ghost use Rattle.fm_poly.specs.Bounds.{AreWithinBound};
ghost use Rattle.fm_poly.specs.declared.ring.Ring.{Ring};
ghost use Rattle.fm_poly.specs.declared.term.Term.{Term};
ghost use Rattle.fm_complete.specs.Completions.{Completion, completed};
ghost use Rattle.fm_graphs.specs.Bounds.{multiplied, twisted_matrix};
ghost use Rattle.fm_graphs.specs.Graphs.{Graph, Inside, MatrixOf, graph_run, inside_run, is_inside, lift_run, lifted, solution, syzygies, twisted_graph, width};
ghost use Rattle.fm_graphs.specs.Listing.{VectorOf, terms_of};
ghost use Rattle.fm_graphs.specs.Sizes.{IsInsideAtMost, IsPreimageAtMost};
ghost use Rattle.fm_graphs.specs.Trims.{Preimage, kernel_run, part, preimage_run, trimmed};
ghost use Rattle.fm_graphs.specs.Within.{IsGraphWithin, IsInsideWithin, IsMatrixWithin, IsPreimageWithin, is_within};
ghost use Rattle.fm_vec.specs.Components.{vector_meaning};
ghost use Rattle.fm_vec.specs.Vectors.{IsVector};
ghost use Rattle.fm_term.specs.declared.vterm.VTerm.{VTerm};

/// A vector of polynomials has its falling list of terms: the list falls and means the vector, and a program's vector is the list of what it means.
pub fn vectors_have_their_falling_lists()
    ensures falls { (r : Ring) (m : ℕ) (v : VectorOf r) → length v ≡ m → IsVector r m (terms_of r v) }
    ensures means { (r : Ring) (m : ℕ) (v : VectorOf r) → length v ≡ m → vector_meaning r m (terms_of r v) ≡ v }
    ensures back { (r : Ring) (m : ℕ) (ts : List VTerm) → IsVector r m ts → terms_of r (vector_meaning r m ts) ≡ ts }
{}

/// The syzygies of a completed graph generate the kernel of its matrix; a lift is inside exactly where the vector lies in the image, and then gives a solution.
pub fn completed_graphs_give_kernels_and_images()
    ensures kernel { (r : Ring) (A : MatrixOf r) (units left : ℕ) (g : Graph r) → HasShape r.prime r.vars A.rows (length A.columns) A → graph_run r A units ≡ record { end = Ok g; left = left }
        → GeneratesKernel r.prime r.vars (syzygies r g) A }
    ensures image { (r : Ring) (A : MatrixOf r) (units left : ℕ) (g : Graph r) (v : VectorOf r) (more rest : ℕ) (x : Reduced) → HasShape r.prime r.vars A.rows (length A.columns) A → graph_run r A units ≡ record { end = Ok g; left = left }
        → length v ≡ A.rows → lift_run r g v more ≡ record { end = Ok x; left = rest } → InImage r.prime r.vars A v ↔ (is_inside r g x ≡ true) }
    ensures solution { (r : Ring) (A : MatrixOf r) (units left : ℕ) (g : Graph r) (v : VectorOf r) (more rest : ℕ) (x : Reduced) → HasShape r.prime r.vars A.rows (length A.columns) A → graph_run r A units ≡ record { end = Ok g; left = left }
        → length v ≡ A.rows → lift_run r g v more ≡ record { end = Ok x; left = rest } → is_inside r g x ≡ true → vector_product r.prime r.vars A (solution r g x) ≡ v }
{}

/// The graph of a twist is completed by the twisted members.
pub fn twisted_graphs_give_kernels()
    ensures { (r : Ring) (e : ℕ) (A : MatrixOf r) (units left : ℕ) (g : Graph r) (more rest : ℕ) (h : Graph r) → HasShape r.prime r.vars A.rows (length A.columns) A → graph_run r A units ≡ record { end = Ok g; left = left }
        → twisted_graph r e g more ≡ record { end = Ok h; left = rest } → GeneratesKernel r.prime r.vars (syzygies r h) (matrix_twist r.prime r.vars e A) }
{}

/// The columns that TRIM keeps span what all span, and none of them lies in the span of the others.
pub fn trimmed_columns_span_the_same()
    ensures same { (r : Ring) (m : ℕ) (vs : List (VectorOf r)) (units left : ℕ) (kept : List (VectorOf r)) → ((v : VectorOf r) → Contains vs v → length v ≡ m) → trimmed r (λ v. v) vs units ≡ record { end = Ok kept; left = left }
        → (v : VectorOf r) → InImage r.prime r.vars (generators r.prime r.vars m kept) v ↔ InImage r.prime r.vars (generators r.prime r.vars m vs) v }
    ensures free { (r : Ring) (m : ℕ) (vs : List (VectorOf r)) (units left : ℕ) (kept : List (VectorOf r)) → ((v : VectorOf r) → Contains vs v → length v ≡ m) → trimmed r (λ v. v) vs units ≡ record { end = Ok kept; left = left }
        → (xs ys : List (VectorOf r)) (v : VectorOf r) → kept ≡ xs ++ v ∷ ys → ¬ (InImage r.prime r.vars (generators r.prime r.vars m (xs ++ ys)) v) }
{}

/// What PRE finds generates the preimage, and the kernel where there is no second matrix.
pub fn preimages_are_generated()
    ensures kernel { (r : Ring) (A : MatrixOf r) (units left : ℕ) (Q : Preimage r) → HasShape r.prime r.vars A.rows (length A.columns) A → kernel_run r A units ≡ record { end = Ok Q; left = left }
        → GeneratesKernel r.prime r.vars Q.found A }
    ensures preimage { (r : Ring) (m a b : ℕ) (A B : MatrixOf r) (units left : ℕ) (Q : Preimage r) → HasShape r.prime r.vars m a A → HasShape r.prime r.vars m b B → preimage_run r A B units ≡ record { end = Ok Q; left = left }
        → GeneratesPreimage r.prime r.vars Q.found A B }
    ensures below { (r : Ring) (m a b : ℕ) (A B : MatrixOf r) (units left : ℕ) (Q : Preimage r) → HasShape r.prime r.vars m a A → HasShape r.prime r.vars m b B → preimage_run r A B units ≡ record { end = Ok Q; left = left }
        → (j : ℕ) → j < length Q.found.columns → InKernel r.prime r.vars (matrix_beside r.prime r.vars A B) (get_or Q.found.columns j [] ++ get_or Q.x.columns j []) }
    ensures upper { (r : Ring) (m a b : ℕ) (A B : MatrixOf r) (units left : ℕ) (Q : Preimage r) → HasShape r.prime r.vars m a A → HasShape r.prime r.vars m b B → preimage_run r A B units ≡ record { end = Ok Q; left = left }
        → matrix_product r.prime r.vars Q.found Q.w ≡ part r (length A.columns) (take (length A.columns)) (syzygies r Q.whole).columns }
{}

/// Runs over matrices and graphs that end stay within the bound on exponents, where what they begin with does.
pub fn runs_over_graphs_stay_within_the_bound()
    ensures graph { (r : Ring) (A : MatrixOf r) (units left : ℕ) (g : Graph r) → IsMatrixWithin r A
        → graph_run r A units ≡ record { end = Ok g; left = left } → IsGraphWithin r g }
    ensures syzygies { (r : Ring) (g : Graph r) → IsGraphWithin r g → IsMatrixWithin r (syzygies r g) }
    ensures lifted { (r : Ring) (g : Graph r) (B : MatrixOf r) (units left : ℕ) (W : MatrixOf r) → IsMatrixWithin r B
        → lifted r g B.columns units ≡ record { end = Ok W; left = left } → IsMatrixWithin r W }
    ensures inside { (r : Ring) (B : MatrixOf r) (g : Graph r) (units left : ℕ) (y : Inside r) → IsMatrixWithin r B
        → inside_run r B g units ≡ record { end = Ok y; left = left } → IsInsideWithin r y }
    ensures twisted { (r : Ring) (e : ℕ) (g : Graph r) (units left : ℕ) (h : Graph r)
        → twisted_graph r e g units ≡ record { end = Ok h; left = left } → IsGraphWithin r h }
    ensures kernel { (r : Ring) (A : MatrixOf r) (units left : ℕ) (Q : Preimage r) → IsMatrixWithin r A
        → kernel_run r A units ≡ record { end = Ok Q; left = left } → IsPreimageWithin r Q }
    ensures preimage { (r : Ring) (A B : MatrixOf r) (units left : ℕ) (Q : Preimage r) → IsMatrixWithin r A → IsMatrixWithin r B
        → preimage_run r A B units ≡ record { end = Ok Q; left = left } → IsPreimageWithin r Q }
    ensures product { (r : Ring) (A B : MatrixOf r) (units left : ℕ) (C : MatrixOf r)
        → multiplied r.prime r.vars A B units ≡ record { end = Ok C; left = left } → IsMatrixWithin r C }
    ensures twist { (r : Ring) (e : ℕ) (A : MatrixOf r) (units left : ℕ) (C : MatrixOf r)
        → twisted_matrix r.prime r.vars e A units ≡ record { end = Ok C; left = left } → IsMatrixWithin r C }
{}

/// A polynomial is within the bound on exponents where its terms are, so that what is read is within it, and what is within it can be
/// written.
pub fn polynomials_are_within_the_bound_as_their_terms()
    ensures read { (r : Ring) (ts : List Term) → AreWithinBound (pairs ts) → is_within r.prime r.vars (meaning r ts) ≡ true }
    ensures written { (r : Ring) (ts : List Term) → IsCanonical r ts → is_within r.prime r.vars (meaning r ts) ≡ true
        → AreWithinBound (pairs ts) }
{}

/// Runs over graphs that end find at most as many columns as they had units: a completion spends a unit for each member, and all columns
/// come from members.
pub fn runs_over_graphs_find_at_most_as_many_columns_as_units()
    ensures graph { (r : Ring) (A : MatrixOf r) (units left : ℕ) (g : Graph r)
        → graph_run r A units ≡ record { end = Ok g; left = left } → (A ≡ g.matrix) × (length g.members + left ≤ units) }
    ensures syzygies { (r : Ring) (g : Graph r) → length (syzygies r g).columns ≤ length g.members }
    ensures trimmed { (r : Ring) (vs : List (VectorOf r)) (units left : ℕ) (kept : List (VectorOf r))
        → trimmed r (λ v. v) vs units ≡ record { end = Ok kept; left = left } → length kept ≤ length vs }
    ensures lifted { (r : Ring) (g : Graph r) (vs : List (VectorOf r)) (units left : ℕ) (W : MatrixOf r)
        → lifted r g vs units ≡ record { end = Ok W; left = left } → (W.rows ≡ width r g) × (length W.columns ≡ length vs) }
    ensures inside { (r : Ring) (B : MatrixOf r) (g : Graph r) (units left : ℕ) (y : Inside r)
        → inside_run r B g units ≡ record { end = Ok y; left = left } → IsInsideAtMost r (length B.columns) y }
    ensures kernel { (r : Ring) (most : ℕ) (A : MatrixOf r) (units left : ℕ) (Q : Preimage r) → length A.columns ≤ most → units ≤ most
        → kernel_run r A units ≡ record { end = Ok Q; left = left } → IsPreimageAtMost r most Q }
    ensures preimage { (r : Ring) (most : ℕ) (A B : MatrixOf r) (units left : ℕ) (Q : Preimage r) → length A.columns ≤ most → units ≤ most
        → preimage_run r A B units ≡ record { end = Ok Q; left = left } → IsPreimageAtMost r most Q }
{}
