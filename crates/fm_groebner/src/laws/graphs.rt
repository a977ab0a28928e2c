// Laws of Gröbner bases of the graph of a matrix.
ghost use Rattle.std.specs.Prelude.{Bool, ℕ, List, [], ◌++◌, ◌+◌, ◌≡◌, ◌↔◌, get_or, length, map};
ghost use Rattle.fm_gfp.specs.declared.prime.Prime.{Prime};
ghost use Rattle.fm_mono.specs.declared.order.Order.{Order};
ghost use Rattle.fm_algebra.specs.Matrix.{listed};
ghost use Rattle.fm_algebra.specs.Polynomials.{Polynomial};
ghost use Rattle.fm_algebra.specs.PolynomialMatrices.{HasShape, InImage, InKernel, PolynomialMatrix, matrix_twist, vector_product, vector_twist};
ghost use Rattle.fm_term.specs.declared.vterm.VTerm.{VTerm};
ghost use Rattle.fm_term.specs.Falling.{AreFalling, IsBelowBlock, IsFalling};
ghost use Rattle.fm_term.specs.Meanings.{vector_of, vectors_of};
ghost use Rattle.fm_groebner.specs.Bases.{generators};
ghost use Rattle.fm_groebner.specs.Logs.{IsIrreducible, ReducesBy};
ghost use Rattle.fm_groebner.specs.Graphs.{AreLowerBlocks, IsGraphBasis, graph, graph_rows, unit_vector, vector_negative, zero_vector};

/// The columns of the graph are those of the matrix, each above a unit vector.
pub fn the_columns_of_the_graph_stand_above_unit_vectors()
    ensures { (p : Prime) (n : ℕ) (A : PolynomialMatrix p n) → HasShape p n A.rows (length A.columns) A
        → (graph p n A).columns ≡ listed (length A.columns) (λ j. get_or A.columns j [] ++ unit_vector p n (length A.columns) j) }
{}

/// The lower blocks of the members whose upper block is zero generate the kernel of the matrix.
pub fn the_lower_blocks_generate_the_kernel()
    ensures { (p : Prime) (n : ℕ) (o : Order) (A : PolynomialMatrix p n) (members columns : List (List (Polynomial p n)))
        → IsGraphBasis p n o A members → AreLowerBlocks p n A.rows members columns
        → (w : List (Polynomial p n)) → InKernel p n A w ↔ InImage p n (generators p n (length A.columns) columns) w }
{}

/// v is in the image of the matrix exactly where the upper block of an irreducible rest of (v; 0) is zero,
/// and where the upper block of a rest is zero, minus its lower block is a solution.
pub fn the_rest_decides_the_image()
    ensures image { (p : Prime) (n : ℕ) (o : Order) (bound : List ℕ → Bool) (A : PolynomialMatrix p n) (members : List (List VTerm))
        (v : List (Polynomial p n)) (by : List ℕ) (t r : List VTerm)
        → IsGraphBasis p n o A (vectors_of p n (graph_rows p n A) members) → AreFalling p n (graph_rows p n A) o members → length v ≡ A.rows
        → IsFalling p n (graph_rows p n A) o t → vector_of p n (graph_rows p n A) t ≡ v ++ zero_vector p n (length A.columns)
        → ReducesBy p n (graph_rows p n A) o bound members by t r → IsIrreducible members r
        → InImage p n A v ↔ (w : List (Polynomial p n)) × (vector_of p n (graph_rows p n A) r ≡ zero_vector p n A.rows ++ w) }
    ensures solution { (p : Prime) (n : ℕ) (o : Order) (bound : List ℕ → Bool) (A : PolynomialMatrix p n) (members : List (List VTerm))
        (v : List (Polynomial p n)) (by : List ℕ) (t r : List VTerm)
        → IsGraphBasis p n o A (vectors_of p n (graph_rows p n A) members) → AreFalling p n (graph_rows p n A) o members → length v ≡ A.rows
        → IsFalling p n (graph_rows p n A) o t → vector_of p n (graph_rows p n A) t ≡ v ++ zero_vector p n (length A.columns)
        → ReducesBy p n (graph_rows p n A) o bound members by t r
        → (w : List (Polynomial p n)) → vector_of p n (graph_rows p n A) r ≡ zero_vector p n A.rows ++ w
        → (length w ≡ length A.columns) × (vector_product p n A (vector_negative p n w) ≡ v) }
{}

/// The upper block of a falling list, its first m components, is zero exactly where its first term, if it has one, stands below.
pub fn the_first_term_tells_the_upper_block()
    ensures { (p : Prime) (n m c : ℕ) (o : Order) (r : List VTerm) → IsFalling p n (m + c) o r
        → ((w : List (Polynomial p n)) × (vector_of p n (m + c) r ≡ zero_vector p n m ++ w)) ↔ IsBelowBlock m r }
{}

/// The twist of a Gröbner basis of the graph of A is one of the graph of the twist of A.
pub fn the_twist_of_a_graph_is_a_graph()
    ensures { (p : Prime) (n : ℕ) (o : Order) (e : ℕ) (A : PolynomialMatrix p n) (members : List (List (Polynomial p n)))
        → IsGraphBasis p n o A members
        → IsGraphBasis p n o (matrix_twist p n e A) (map (vector_twist p n e) members) }
{}
