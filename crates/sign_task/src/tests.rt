//! The worked designs, each signed off with its expectations.

ghost use Rattle.std.specs.Prelude.{◌≡◌, ◌<◌, length, IfSome};

use crate::{Terms, sign};
use aig_model::{Expect, Task};
use aiger_ascii::read_ascii;
use debug_set::status_of;
use ja_std::OpenGate;
use report::Report;
use sat_plain::PlainSat;
use std::alloc::Global;
use std::test::Fail;
use store_core::Mark;
use store_core::Mark::{Budget, Cancelled, Fails, Proved};

/// Two latches: the first is 1 from step 1 on, the second one step later.
const TWO: &[u8] = b"aag 2 0 2 0 0 2\n2 1\n4 2\n2\n4\n";

/// A one-hot ring of three, and for each two of its latches that they are not both 1.
const RING: &[u8] = b"aag 6 0 3 0 3 3\n2 6 1\n4 2\n6 4\n8\n10\n12\n8 4 2\n10 6 4\n12 6 2\n";

/// An arbiter with two grants, of which the second needs that the first was not asked for: both are never given, and the second
/// is.
const GRANTS: &[u8] = b"aag 6 2 2 1 2 2\n2\n4\n6 2\n8 10\n8\n12\n8\n10 4 3\n12 8 6\n";

/// A design, the properties that are expected to fail, the limit, the mark of each property, whether a proof needs clauses,
/// whether all are joined, the debugging set, and the status.
type Row = (
    &'static [u8],
    [bool; 3],
    Option<u64>,
    &'static [Mark],
    bool,
    bool,
    &'static [u32],
    u8,
);

const NONE: [bool; 3] = [false, false, false];

const ROWS: [Row; 12] = [
    (TWO, NONE, None, &[Fails, Proved], true, false, &[0], 1),
    (
        TWO,
        [true, false, false],
        None,
        &[Fails, Fails],
        false,
        false,
        &[1],
        1,
    ),
    (
        TWO,
        [true, true, false],
        Some(1_000_000),
        &[Fails, Fails],
        false,
        true,
        &[],
        0,
    ),
    (
        RING,
        NONE,
        None,
        &[Proved, Proved, Proved],
        true,
        true,
        &[],
        0,
    ),
    (
        RING,
        NONE,
        Some(0),
        &[Budget(0), Budget(0), Budget(0)],
        false,
        false,
        &[],
        2,
    ),
    (
        b"aag 0 0 0 0 0 1\n1\n",
        NONE,
        None,
        &[Fails],
        false,
        false,
        &[0],
        1,
    ),
    (
        b"aag 0 0 0 0 0 1\n0\n",
        NONE,
        None,
        &[Proved],
        false,
        true,
        &[],
        0,
    ),
    (
        b"aag 1 0 1 0 0 2\n2 3\n2\n2\n",
        NONE,
        None,
        &[Fails, Fails],
        false,
        false,
        &[0, 1],
        1,
    ),
    (
        b"aag 1 0 1 0 0 1\n2 2 2\n2\n",
        NONE,
        None,
        &[Fails],
        false,
        false,
        &[0],
        1,
    ),
    (
        b"aag 1 1 0 0 0 1 1\n2\n2\n0\n",
        NONE,
        None,
        &[Proved],
        false,
        true,
        &[],
        0,
    ),
    (
        GRANTS,
        [false, true, false],
        None,
        &[Proved, Fails],
        true,
        true,
        &[],
        0,
    ),
    (
        b"aag 1 0 1 2 0\n2 3\n2\n3\n",
        NONE,
        None,
        &[Proved, Fails],
        true,
        false,
        &[1],
        1,
    ),
];

fn set_failing(expect: &mut Expect, prop: u32, fails: bool)
    requires { prop < length expect.old }
    ensures { length expect.new ≡ length expect.old }
{
    if fails {
        expect.set_fail(prop);
    }
}

fn expectations(alloc: Global, props: u32, failing: [bool; 3]) -> Option<Expect>
    ensures { IfSome result (λ expect. length expect ≡ props) }
{
    let mut expect = Expect::all(alloc, props).ok()?;
    for prop in 0..props {
        set_failing(&mut expect, prop, failing.get(prop as usize) == Some(&true));
    }
    Some(expect)
}

fn task(alloc: Global, text: &[u8], failing: [bool; 3]) -> Option<Task> {
    let design = read_ascii(alloc, text).ok()?;
    let expect = expectations(alloc, design.props(), failing)?;
    Task::new(alloc, design, expect).ok()
}

fn has_marks(report: &Report, marks: &[Mark]) -> bool {
    let lines = report.lines.as_slice();
    if lines.len() != marks.len() {
        return false;
    }
    for (line, mark) in lines.iter().zip(marks) {
        if line.mark != *mark {
            return false;
        }
    }
    true
}

fn status(expect: &Expect, marks: &[Mark]) -> Option<u8> {
    if expect.len() as usize == marks.len() {
        Some(status_of(expect, marks))
    } else {
        None
    }
}

/// Whether the report says so of all properties together.
fn is_as_expected(report: &Report, clauses: bool, joined: bool, set: &[u32]) -> bool {
    report.joined == joined
        && report.set.as_slice() == set
        && (report.clauses.len() > 0) == clauses
        && !report.shown
}

#[test]
fn signs_worked_designs(rt: HostRuntime) -> Result<(), Fail> {
    let alloc = rt.alloc();
    for (number, (text, failing, limit, marks, clauses, joined, set, found)) in ROWS
        .into_iter()
        .enumerate()
    {
        let task = task(alloc, text, failing).ok_or("no design")?;
        let (fail_fast, journal) = (false, false);
        let terms = Terms {
            limit,
            fail_fast,
            journal,
        };
        for workers in [1, 4] {
            let report = sign::<PlainSat, PlainSat, OpenGate, HostRuntime>(
                &rt, alloc, &task, terms, workers, &OpenGate,
            )?;
            assert!(rt; has_marks(&report, marks), "{number}");
            assert!(rt; is_as_expected(&report, clauses, joined, set), "{number}");
        }
        assert_eq!(rt; status(task.expect(), marks), Some(found));
    }
    Ok(())
}

// What is expected to hold comes first, and its failure ends the run; a failure that was expected ends nothing.
#[test]
fn stops_at_the_first_failure(rt: HostRuntime) -> Result<(), Fail> {
    let alloc = rt.alloc();
    for (failing, marks) in [
        (NONE, &[Fails, Cancelled]),
        ([true, false, false], &[Cancelled, Fails]),
        ([true, true, false], &[Fails, Fails]),
    ] {
        let task = task(alloc, TWO, failing).ok_or("no design")?;
        let terms = Terms {
            limit: None,
            fail_fast: true,
            journal: true,
        };
        let report = sign::<PlainSat, PlainSat, OpenGate, HostRuntime>(
            &rt, alloc, &task, terms, 1, &OpenGate,
        )?;
        assert!(rt; has_marks(&report, marks.as_slice()));
        assert!(rt; report.shown);
    }
    Ok(())
}
