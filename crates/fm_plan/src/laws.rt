// Laws of plans: a plan that ends with an answer has established it.
ghost use Rattle.std.specs.Prelude.{Err, Ok, Result, true, ℕ, ◌+◌, ◌≡◌};
ghost use Rattle.fm_graphs.specs.Within.{are_within};
ghost use Rattle.fm_limit.specs.Facts.{DegreeFacts, IsFirstRepeat};
ghost use Rattle.fm_limit.specs.Verdicts.{Holds, RestsOn};
ghost use Rattle.fm_plan.specs.Following.{FollowsPlan};
ghost use Rattle.fm_plan.specs.Tasks.{Refusal, refused, task};
ghost use Rattle.fm_plan.specs.Queries.{BaseOf, Found, Query, base_plan, plan, verdict};
ghost use Rattle.fm_plan.specs.Results.{Ideal, kernels, resolved, stable_index};
ghost use Rattle.fm_run.specs.Runs.{Follows, Work};
ghost use Rattle.fm_run.specs.Tasks.{stopped_in};
ghost use Rattle.fm_run.specs.declared.stop.Stop.{Stop};
ghost use Rattle.fm_run.specs.declared.task.Name.{Name};
ghost use Rattle.fm_plan.specs.Sizes.{HasSizes, IsRefusalOf, size_of};
ghost use Rattle.fm_plan.specs.Within.{IsBaseWithin, IsFoundWithin, IsQueryWithin};
ghost use Rattle.fm_run.specs.declared.task.Side.{Side};
ghost use Rattle.fm_poly.specs.declared.ring.Ring.{Ring};

/// BASE that ends establishes the finite facts of its degree, with the first repeat of the chain.
pub fn base_establishes_the_facts_of_a_degree()
    ensures facts { (r : Ring) (side : Side) (i : ℕ) (fs : Ideal r) (units left : ℕ) (b : BaseOf r) → base_plan r side i fs units ≡ record { end = Ok b; left = left }
        → DegreeFacts r.prime r.vars i (resolved r fs b.ext) b.ext.cocycles.found b.ext.u (kernels r b.ext b.chain) (stable_index r b.chain) }
    ensures first { (r : Ring) (side : Side) (i : ℕ) (fs : Ideal r) (units left : ℕ) (b : BaseOf r) → base_plan r side i fs units ≡ record { end = Ok b; left = left }
        → IsFirstRepeat r.prime r.vars (kernels r b.ext b.chain) (stable_index r b.chain) }
{}

/// A plan that ends with an answer answers rightly: the verdict of what it found holds in the limit, and the matrices on which it rests are what
/// they are said to be.
pub fn a_plan_that_ends_answers_rightly()
    ensures rests { (r : Ring) (q : Query r) (units left : ℕ) (x : Found r) → plan r q units ≡ record { end = Ok x; left = left }
        → RestsOn r.prime r.vars (verdict r x) }
    ensures holds { (r : Ring) (q : Query r) (units left : ℕ) (x : Found r) → plan r q units ≡ record { end = Ok x; left = left }
        → Holds r.prime r.vars (verdict r x) }
{}

/// A call that follows the work of a task of a plan follows that task, once its stop is told of it.
pub fn a_task_of_a_plan_follows_its_work<X, A>()
    ensures { (view : X → A) (side : Side) (name : Name) (number : ℕ) (work : Work A) (old new : ℕ) (answer : Result X Stop)
        → Follows view answer old new (work old)
        → FollowsPlan view (stopped_in (record { side = side; name = name; number = number }) answer) old new (task side name number work old) }
{}

/// What a plan finds is within the bound on exponents, where what is asked with is: each product, twist and head reduction was tested,
/// so no exponent that passes the bound stands in a result.
pub fn what_a_plan_finds_is_within_the_bound()
    ensures base { (r : Ring) (side : Side) (i : ℕ) (fs : Ideal r) (units left : ℕ) (b : BaseOf r) → are_within r.prime r.vars fs ≡ true
        → base_plan r side i fs units ≡ record { end = Ok b; left = left } → IsBaseWithin r b }
    ensures found { (r : Ring) (q : Query r) (units left : ℕ) (x : Found r) → IsQueryWithin r q
        → plan r q units ≡ record { end = Ok x; left = left } → IsFoundWithin r x }
{}

/// The sizes of what a plan finds are at most the units that it has and the size of what is asked, or twice that where two matrices stand
/// beside each other: the numbers of rows and columns of its matrices and the ranks, how long its chains are, and the stages and powers of
/// answers.
pub fn what_a_plan_finds_has_sizes_within_its_units()
    ensures { (r : Ring) (q : Query r) (units left : ℕ) (x : Found r)
        → plan r q units ≡ record { end = Ok x; left = left } → HasSizes r (units + size_of r q) x }
{}

/// Which queries are refused, and with which numbers: they are at most the units and the size of what is asked, or how long its class is.
pub fn the_numbers_of_a_refusal_are_within_its_units()
    ensures { (r : Ring) (q : Query r) (units left : ℕ) (why : Refusal)
        → plan r q units ≡ record { end = Err (refused why); left = left } → IsRefusalOf r (units + size_of r q) q why }
{}
