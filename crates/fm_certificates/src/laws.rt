// The laws of certified reports.
ghost use Rattle.std.specs.Prelude.{Ok, length, suc, ℕ, ◌++◌, ◌<◌, ◌^◌, ◌≡◌};
ghost use Rattle.fm_words.specs.Parts.{Bytes};
ghost use Rattle.fm_problem.specs.declared.problem.Problem.{Problem};
ghost use Rattle.fm_problem.specs.declared.query.Query.{Query};
ghost use Rattle.fm_problem.specs.Problems.{problem_of};
ghost use Rattle.fm_problem.specs.Sound.{HasSmallExponents, IsProblem, IsQueryOf, IsSmallQuery};
ghost use Rattle.fm_report.specs.Holding.{AllHold, VerdictsHold};
ghost use Rattle.fm_report.specs.Reports.{IsWritableBlock, block_says};
ghost use Rattle.fm_answers.specs.Answers.{IsShort};
ghost use Rattle.fm_standard.specs.Small.{AreSmallLines};
ghost use Rattle.fm_certificates.specs.Reports.{AreSmallReports, certified_bytes, certified_report, certified_reports};

/// The report of a query with the certificate of its answer, however its plan ends, can be written after those before it, and states only
/// what holds: the verdict of the answer and the root of each chain, on the matrices that the certificate names. The numbers of the answer
/// are below 2^64 since the plan has fewer than 2^32 units; those of the certificate are where each of its lines has such numbers.
pub fn a_certificate_of_a_plan_states_what_holds()
    ensures writable { (q : Problem) (units k : ℕ) (z : Query) → IsProblem q → HasSmallExponents q → units < 2 ^ 32 → suc k < 2 ^ 64
        → IsQueryOf q z → IsSmallQuery z → IsShort z → AreSmallLines (certified_report units q z).lines → IsWritableBlock q k (certified_report units q z) }
    ensures holds { (q : Problem) (units k : ℕ) (z : Query) → IsProblem q → HasSmallExponents q → units < 2 ^ 32 → suc k < 2 ^ 64
        → IsQueryOf q z → IsSmallQuery z → IsShort z → AreSmallLines (certified_report units q z).lines → AllHold (block_says q k (certified_report units q z)) }
{}

/// The report with certificates of a problem that a text says states only verdicts that hold in the limit, on matrices that are what they are
/// said to be; and so does each beginning of it, whatever number of units below 2^32 each plan has.
pub fn certified_reports_of_texts_state_verdicts_that_hold()
    ensures { (text : Bytes) (units : ℕ) (q : Problem) → length text < 2 ^ 64 → units < 2 ^ 32 → problem_of text ≡ Ok q
        → AreSmallReports (certified_reports units q q.queries)
        → (front back : Bytes) → certified_bytes units q ≡ front ++ back → VerdictsHold front }
{}
