use crate::{debugging_set, is_joined, status_of};
use aig_model::Expect;
use std::test::Fail;
use store_core::Mark;
use store_core::Mark::{Budget, Cancelled, Fails, Proved};

// Property 2 is expected to fail, the other three to hold. The set as a bit for each property, whether all that are
// expected to hold are joined, and the status.
const ROWS: [([Mark; 4], [bool; 4], bool, u8); 6] = [
    (
        [Proved, Proved, Fails, Proved],
        [false, false, false, false],
        true,
        0,
    ),
    (
        [Fails, Proved, Fails, Fails],
        [true, false, false, true],
        false,
        1,
    ),
    (
        [Proved, Proved, Proved, Proved],
        [false, false, false, false],
        true,
        1,
    ),
    (
        [Proved, Budget(5), Fails, Fails],
        [false, false, false, true],
        false,
        2,
    ),
    (
        [Proved, Fails, Cancelled, Proved],
        [false, true, false, false],
        false,
        2,
    ),
    (
        [Proved, Proved, Proved, Budget(1)],
        [false, false, false, false],
        false,
        2,
    ),
];

#[test]
fn marks_give_set_joining_and_status(rt: HostRuntime) -> Result<(), Fail> {
    let alloc = rt.alloc();
    let mut expect = Expect::all(alloc, 4)?;
    expect.set_fail(2);
    for (marks, members, joined, status) in ROWS {
        if expect.len() == 4 {
            let set = debugging_set(alloc, &expect, marks.as_slice())?;
            let mut found = [false; 4];
            for prop in set.as_slice() {
                if *prop < 4 {
                    found[*prop as usize] = true;
                }
            }
            assert_eq!(rt; found, members);
            assert_eq!(rt; is_joined(&expect, marks.as_slice()), joined);
            assert_eq!(rt; status_of(&expect, marks.as_slice()), status);
        }
    }
    Ok(())
}
