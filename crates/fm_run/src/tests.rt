// Units and tasks by hand.
use crate::{Name, Side, Stop, Task, Work, in_task};
use std::test::Fail;

#[test]
fn units_are_spent_up_to_the_last(rt: HostRuntime) -> Result<(), Fail> {
    let mut work = Work::new(2);
    let first = work.spend();
    let second = work.spend();
    let third = work.spend();
    assert!(rt; first && second && !third);
    assert!(rt; work.left() == 0);
    Ok(())
}

#[test]
fn a_stop_is_told_of_its_task(rt: HostRuntime) -> Result<(), Fail> {
    let task = Task {
        side: Side::Alone,
        name: Name::Lift,
        number: 1,
    };
    let answer: Result<u32, Stop> = Err(Stop::Exponent);
    match in_task(task, answer) {
        Ok(_) => return Err(Fail::new("the task went on")),
        Err(stopped) => {
            assert!(rt; stopped.task == task);
            assert!(rt; stopped.stop == Stop::Exponent);
        }
    }
    Ok(())
}
