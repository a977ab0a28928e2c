// The law of calls in a row.
ghost use Rattle.std.specs.Prelude.{Err, Ok, Option, Result, ℕ, ◌≡◌};
ghost use Rattle.fm_run.specs.declared.stop.Stop.{Stop};
ghost use Rattle.fm_run.specs.Runs.{Follows, Spends, Work, ◌>>=◌ as ◌followed_by◌};
ghost use Rattle.fm_run.specs.Tasks.{FollowsTasks, stopped_in, task_run};
ghost use Rattle.fm_run.specs.declared.task.Task.{Task};

/// Calls that follow their runs, one after the other, follow the run of all of them: where the first came to a value, what follows decides;
/// where it stopped, all have stopped. So it goes for any number of calls.
pub fn calls_in_a_row_follow_their_runs<X, Y, A, B>()
    ensures goes { (view : X → A) (view' : Y → B) (run : Work A) (f : A → Work B) (old mid new : ℕ) (x : X) (answer : Result Y Stop) → Spends run
        → Follows view (Ok x) old mid (run old) → Follows view' answer mid new (f (view x) mid) → Follows view' answer old new ((run followed_by f) old) }
    ensures stops { (view : X → A) (view' : Y → B) (run : Work A) (f : A → Work B) (old new : ℕ) (stop : Stop) → ((a : A) → Spends (f a))
        → Follows view (Err stop) old new (run old) → Follows view' (Err stop) old new ((run followed_by f) old) }
{}

/// A call that follows the work of a task follows the task, once its stop is told of the task.
pub fn a_task_follows_its_work<X, A>()
    ensures { (view : X → A) (task : Task) (work : Work A) (old new : ℕ) (answer : Result X Stop) → Follows view answer old new (work old)
        → FollowsTasks view (stopped_in task answer) old new (task_run task work old) }
{}
