// How a task that stopped ends a query.
use crate::Unanswered;
use fm_run::{Name, Side, Stop, Stopped, Task};
use std::test::Fail;

#[test]
fn a_stop_ends_a_query_without_an_answer(rt: HostRuntime) -> Result<(), Fail> {
    let task = Task {
        side: Side::Target,
        name: Name::Chain,
        number: 3,
    };
    let ended = Unanswered::from(Stopped {
        task,
        stop: Stop::Budget,
    });
    assert!(rt;
        matches!(
            ended,
            Unanswered::Stopped(Stopped {
                task: Task { number: 3, .. },
                stop: Stop::Budget
            })
        )
    );
    Ok(())
}
