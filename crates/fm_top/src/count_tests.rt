// Counts of how the queries of a problem end. The plans need the units that an independent program told.
use fm_decide::{Counts, count};
use fm_problem::read_problem;
use std::test::Fail;

const TEXT: &[u8] =
    b"ring 2 x y\nideal I = x, y\nmember I x\nmember I x+1\nresolution 1 I\nmember I y\n";

#[test]
fn counts_answers(rt: HostRuntime) -> Result<(), Fail> {
    let problem = read_problem(rt.alloc(), TEXT)?;
    for (units, yes, no, unanswered) in [(200_000, 2, 1, 0), (5, 2, 1, 1), (4, 0, 0, 4)] {
        let counts = Counts {
            yes,
            no,
            unanswered,
        };
        assert_eq!(rt; count(rt.alloc(), &problem, units)?, counts);
    }
    Ok(())
}
