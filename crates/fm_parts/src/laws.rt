// The laws of parts, logs and conditions.
ghost use Rattle.std.specs.Prelude.{Err, List, Ok, [], false, length, true, ◌++◌, ◌∷◌, ◌≡◌};
ghost use Rattle.fm_algebra.specs.PolynomialMatrices.{HasShape};
ghost use Rattle.fm_groebner.specs.Logs.{Entry};
ghost use Rattle.fm_groebner.specs.Syzygies.{IsBasisOfGraph};
ghost use Rattle.fm_poly.specs.declared.ring.Ring.{Ring};
ghost use Rattle.fm_graphs.specs.Graphs.{MatrixOf};
ghost use Rattle.fm_report.specs.Parts.{Part, part_value};
ghost use Rattle.fm_parts.specs.Shapes.{columns_of, fits, rows_of};
ghost use Rattle.fm_parts.specs.Examples.{first_entries, keep_input, keep_pair, skip, small_inputs, small_ring, whole_replay, zero_pair};
ghost use Rattle.fm_parts.specs.Replays.{BadEntry, Reference, Replay, graph_inputs, is_whole, replayed};
ghost use Rattle.fm_parts.specs.Conditions.{Condition, judged};
ghost use Rattle.fm_parts.specs.Meanings.{AllSay, HaveSoundLogs};

/// The matrix that a part means has the numbers of rows and of columns that are read off the part, where the shapes of its operands fit.
pub fn parts_have_their_shapes()
    ensures { (r : Ring) (a : Part) → fits a ≡ true → HasShape r.prime r.vars (rows_of a) (columns_of a) (part_value r a) }
{}

/// A log whose entries are replayed without a fault, and that is whole at its end, gives a Gröbner basis of the graph of the matrix.
pub fn whole_logs_complete_graphs()
    ensures { (r : Ring) (A : MatrixOf r) → HasShape r.prime r.vars A.rows (length A.columns) A → (entries : List Entry) (s : Replay)
        → replayed r (graph_inputs r A) entries ≡ Ok s → is_whole (graph_inputs r A) s ≡ true → IsBasisOfGraph r.prime r.vars r.order A s.members }
{}

/// Conditions that are judged well say what is true of the matrices that the parts mean, whatever logs and whatever W they rest on: an equation
/// holds; C generates the kernel of A, or all w with `A * w` in `im B`; a column is not in the image of a twist.
pub fn conditions_that_hold_are_true()
    ensures { (r : Ring) (cs : List Condition) → HaveSoundLogs r cs → (u : Unit {0}) → judged r cs ≡ Ok u → AllSay r cs }
{}

/// The log of the graph of `[x*y | y^2 | x^2]` over GF(2)[x, y]: its last pair is zero by member 6, or skipped by member 1; and entries that are no free
/// steps there, each with its reason.
pub fn a_small_log_is_replayed()
    ensures formed { replayed small_ring small_inputs (first_entries ++ zero_pair (6 ∷ []) ∷ []) ≡ Ok whole_replay }
    ensures skipped { replayed small_ring small_inputs (first_entries ++ skip 2 3 1 ∷ []) ≡ Ok whole_replay }
    ensures whole { is_whole small_inputs whole_replay ≡ true }
    ensures unfinished { (s : Replay) → replayed small_ring small_inputs first_entries ≡ Ok s → is_whole small_inputs s ≡ false }
    ensures not_zero { replayed small_ring small_inputs (first_entries ++ zero_pair [] ∷ []) ≡ Err BadEntry }
    ensures no_divisor { replayed small_ring small_inputs (first_entries ++ zero_pair (4 ∷ []) ∷ []) ≡ Err BadEntry }
    ensures no_member { replayed small_ring small_inputs (first_entries ++ zero_pair (6 ∷ 7 ∷ []) ∷ []) ≡ Err Reference }
    ensures too_early { replayed small_ring small_inputs (keep_input 1 ∷ keep_input 2 ∷ keep_input 3 ∷ keep_pair 1 2 ∷ skip 2 3 1 ∷ []) ≡ Err BadEntry }
    ensures twice { replayed small_ring small_inputs (keep_input 1 ∷ keep_input 1 ∷ []) ≡ Err BadEntry }
    ensures no_input { replayed small_ring small_inputs (keep_input 4 ∷ []) ≡ Err BadEntry }
    ensures turned { replayed small_ring small_inputs (keep_input 1 ∷ keep_input 2 ∷ keep_pair 2 1 ∷ []) ≡ Err BadEntry }
{}
