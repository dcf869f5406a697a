//! Calls that are listed fail, and no others.

use fault_counts::FaultCounts;
use std::test::Fail;

#[test]
fn fails_exactly_the_listed_calls(rt: HostRuntime) -> Result<(), Fail> {
    let table = [
        ([0, 0], [false, false, false, false]),
        ([1, 1], [true, false, false, false]),
        ([4, 2], [false, true, false, true]),
        ([3, 5], [false, false, true, false]),
    ];
    for (fail, answers) in table {
        let mut counts = FaultCounts::new(rt.alloc(), &fail)?;
        for answer in answers {
            assert_eq!(rt; counts.next_call(), answer);
        }
    }
    Ok(())
}
