// The law of certificates.
ghost use Rattle.std.specs.Prelude.{ℕ, List};
ghost use Rattle.fm_limit.specs.Verdicts.{Verdict};
ghost use Rattle.fm_problem.specs.declared.problem.Problem.{Problem};
ghost use Rattle.fm_problem.specs.declared.query.Query.{Query};
ghost use Rattle.fm_report.specs.Sheets.{Answer};
ghost use Rattle.fm_report.specs.Holding.{AllHold};
ghost use Rattle.fm_report.specs.Reports.{IsWritableBlock, block_says};
ghost use Rattle.fm_standard.specs.Writing.{Claim};
ghost use Rattle.fm_standard.specs.Said.{IsCertified, Laid, certified};

/// A query with its answer and the lines of its certificate can be written in its place in a report, and all that it states holds.
pub fn certificates_are_said()
    ensures written { (q : Problem) (k : ℕ) (z : Query) (a : Answer) (cs : List Claim) (d : Laid) (v : Verdict q.ring.prime q.ring.vars)
        → IsCertified q k z a cs d v → IsWritableBlock q k (certified q z a cs) }
    ensures holds { (q : Problem) (k : ℕ) (z : Query) (a : Answer) (cs : List Claim) (d : Laid) (v : Verdict q.ring.prime q.ring.vars)
        → IsCertified q k z a cs d v → AllHold (block_says q k (certified q z a cs)) }
{}
