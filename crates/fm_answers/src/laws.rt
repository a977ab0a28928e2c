// The laws of the reports of plans.
ghost use Rattle.std.specs.Prelude.{All, List, Ok, length, suc, ℕ, ◌++◌, ◌<◌, ◌^◌, ◌≡◌};
ghost use Rattle.fm_algebra.specs.Polynomials.{Polynomial};
ghost use Rattle.fm_poly.specs.Polys.{IsCanonical, PolyValue, meaning};
ghost use Rattle.fm_poly.specs.declared.ring.Ring.{Ring};
ghost use Rattle.fm_poly.specs.declared.term.Term.{Term};
ghost use Rattle.fm_mat.specs.Matrices.{MatrixValue, column_meaning, matrix_meaning};
ghost use Rattle.fm_graphs.specs.Graphs.{MatrixOf};
ghost use Rattle.fm_graphs.specs.Within.{IsMatrixWithin};
ghost use Rattle.fm_text.specs.SumOfTerms.{IsPolynomialOf};
ghost use Rattle.fm_words.specs.Parts.{Bytes};
ghost use Rattle.fm_problem.specs.declared.problem.Problem.{Problem};
ghost use Rattle.fm_problem.specs.declared.query.Query.{Query};
ghost use Rattle.fm_problem.specs.Problems.{problem_of};
ghost use Rattle.fm_problem.specs.Sound.{HasSmallExponents, IsProblem, IsQueryOf, IsSmallQuery};
ghost use Rattle.fm_cert.specs.Writable.{AreWritableVectors};
ghost use Rattle.fm_report.specs.Holding.{AllHold, VerdictsHold};
ghost use Rattle.fm_report.specs.Parts.{given, part_value};
ghost use Rattle.fm_report.specs.Reports.{IsWritableBlock, block_says};
ghost use Rattle.fm_answers.specs.Answers.{IsShort, query_report, report_bytes};
ghost use Rattle.fm_answers.specs.Printed.{grid_of, printed, printed_vector};

/// A polynomial is printed as the list of terms that means it; and of the lists that a program keeps it is the one with this meaning.
pub fn a_printed_polynomial_has_its_terms()
    ensures means { (r : Ring) (f : Polynomial r.prime r.vars) → meaning r (printed r f).terms ≡ f }
    ensures canonical { (r : Ring) (f : Polynomial r.prime r.vars) → IsCanonical r (printed r f).terms }
    ensures kept { (r : Ring) (ts : List Term) → IsCanonical r ts → printed r (meaning r ts) ≡ record { ring = r; terms = ts } }
{}

/// A matrix is printed as columns that mean it, and that can be written where it is within the bound on exponents; and the columns of a
/// program's matrix are those that are printed of what it means.
pub fn printed_matrices_are_read_back()
    ensures means { (r : Ring) (A : MatrixOf r) → part_value r (given (grid_of r A).rows (grid_of r A).columns) ≡ A }
    ensures written { (r : Ring) (A : MatrixOf r) → IsMatrixWithin r A → AreWritableVectors r (grid_of r A).columns }
    ensures column { (r : Ring) (fs : List PolyValue) → All (IsPolynomialOf r) fs → printed_vector r (column_meaning r fs) ≡ fs }
    ensures kept { (r : Ring) (A : MatrixValue) → All (All (IsPolynomialOf r)) A.columns
        → grid_of r (matrix_meaning r A) ≡ record { rows = A.rows; columns = A.columns } }
{}

/// The report of a query, however its plan ends, can be written after those before it, and states only what holds: the verdict of an
/// answer, on the matrices that are printed under it, and nothing where there is none. Its numbers are below 2^64 since the plan has fewer
/// than 2^32 units and what is asked is within the limits of problem texts.
pub fn a_report_of_a_plan_states_what_holds()
    ensures writable { (q : Problem) (units k : ℕ) (z : Query) → IsProblem q → HasSmallExponents q → units < 2 ^ 32 → suc k < 2 ^ 64
        → IsQueryOf q z → IsSmallQuery z → IsShort z → IsWritableBlock q k (query_report units q z) }
    ensures holds { (q : Problem) (units k : ℕ) (z : Query) → IsProblem q → HasSmallExponents q → units < 2 ^ 32 → suc k < 2 ^ 64
        → IsQueryOf q z → IsSmallQuery z → IsShort z → AllHold (block_says q k (query_report units q z)) }
{}

/// The report of a problem that a text says states only verdicts that hold in the limit, on matrices that are what they are said to be; and
/// so does each beginning of it, whatever number of units below 2^32 each plan has.
pub fn reports_of_texts_state_verdicts_that_hold()
    ensures { (text : Bytes) (units : ℕ) (q : Problem) → length text < 2 ^ 64 → units < 2 ^ 32 → problem_of text ≡ Ok q
        → (front back : Bytes) → report_bytes units q ≡ front ++ back → VerdictsHold front }
{}
