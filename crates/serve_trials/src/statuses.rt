//! Each status.

use crate::outside::{holds, is_told};
use bridge_core::Status;
use std::test::Fail;

static LINES: [(Status, u8, &str); 16] = [
    (Status::Done, 0, ""),
    (Status::Words, 2, "bad words"),
    (Status::Uninitialised, 3, "not initialised"),
    (Status::Initialised, 3, "already initialised"),
    (Status::Damaged { file: 1, at: 8 }, 3, "damaged file 1 at 8"),
    (Status::BadFrame { offset: 290 }, 4, "bad frame at 290"),
    (Status::CutFrame { offset: 0 }, 4, "cut frame at 0"),
    (
        Status::CutFrame {
            offset: 1_099_511_627_775,
        },
        4,
        "cut frame at 1099511627775",
    ),
    (Status::DiskFault, 5, "disk fault"),
    (Status::SourceFault, 6, "read fault"),
    (Status::SinkFault, 7, "write fault"),
    (Status::NoMemory, 8, "out of memory"),
    (Status::InputLimit, 9, "input limit"),
    (Status::PortFault, 10, "port fault"),
    (Status::BadSnapshot { at: 9 }, 11, "bad snapshot at 9"),
    (
        Status::TestFailed { block: 300 },
        12,
        "self-test failed at block 300",
    ),
];

#[test]
fn each_status_has_its_number_and_its_line(rt: HostRuntime) -> Result<(), Fail> {
    for (status, number, line) in &LINES {
        let is_so = status.number() == *number && is_told(rt.alloc(), *status, line)?;
        holds(&rt, is_so, line);
    }
    Ok(())
}
