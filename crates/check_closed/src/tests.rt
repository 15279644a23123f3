ghost use Rattle.std.specs.Prelude.{◌≡◌, length, IfSome};

use crate::certify::{Certified, certify};
use aig_model::{Expect, Task};
use aiger_ascii::read_ascii;
use inv_cert::NotClosed;
use ja_project::Coded;
use refute_text::read_lines;
use std::alloc::Global;
use std::test::Fail;

const RING: &[u8] = b"aag 6 0 3 0 3 3\n2 6 1\n4 2\n6 4\n8\n10\n12\n8 4 2\n10 6 4\n12 6 2\n";

fn expect_failures(expect: &mut Expect)
    ensures { length expect.new ≡ length expect.old }
{
    for prop in 0..expect.len() {
        expect.set_fail(prop);
    }
}

fn expectations(alloc: Global, props: u32, hold: bool) -> Option<Expect>
    ensures { IfSome result (λ expect. length expect ≡ props) }
{
    let mut expect = Expect::all(alloc, props).ok()?;
    if !hold {
        expect_failures(&mut expect);
    }
    Some(expect)
}

/// The ring, with each property expected to hold, or each to fail.
fn coded(alloc: Global, hold: bool) -> Option<Coded> {
    let design = read_ascii(alloc, RING).ok()?;
    let expect = expectations(alloc, design.props(), hold)?;
    let task = Task::new(alloc, design, expect).ok()?;
    Coded::new(alloc, &task).ok()
}

/// That latches 0 and 1 are not both 1 follows one step later from the property of latches 2 and 0, and not without it. All
/// three clauses together follow from each other, but where nothing is assumed they have to be shown of one another.
#[test]
fn closed_under_the_assumptions(rt: HostRuntime) -> Result<(), Fail> {
    let alloc = rt.alloc();
    let table: [(&[u8], bool, Certified); 6] = [
        (
            b" 3 5 ;\n",
            true,
            Certified::Closed {
                clauses: 1,
                covered: Some(1),
            },
        ),
        (b" 3 5 ;\n", false, Certified::Refused(NotClosed::Left(0))),
        (
            b" 3 5 ;\n 5 7 ;\n 3 7 ;\n",
            false,
            Certified::Closed {
                clauses: 3,
                covered: Some(3),
            },
        ),
        (
            b" 3 5 ;\n 8 ;\n",
            true,
            Certified::Refused(NotClosed::Foreign(1)),
        ),
        (b" 4 ;\n", true, Certified::Refused(NotClosed::Start(0))),
        (b" 3 14 ;\n", true, Certified::TooLarge),
    ];
    for (text, hold, expected) in table {
        let coded = coded(alloc, hold).ok_or("no design")?;
        let clauses = read_lines(alloc, text).ok().ok_or("no clauses")?;
        let certified = certify(alloc, &coded, clauses, None)
            .ok()
            .ok_or("no memory")?;
        assert_eq!(rt; certified, expected, "at {text:?}");
    }
    let coded = coded(alloc, true).ok_or("no design")?;
    let clauses = read_lines(alloc, b" 3 5 ;\n").ok().ok_or("no clauses")?;
    let nothing = read_lines(alloc, b"").ok().ok_or("no lines")?;
    let certified = certify(alloc, &coded, clauses, Some(nothing))
        .ok()
        .ok_or("no memory")?;
    assert_eq!(rt; certified, Certified::Refused(NotClosed::Missing(0)));
    Ok(())
}
