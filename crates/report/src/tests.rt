use crate::{ReportRefusal, read_report, text_of};
use ja_base::OrMemory;
use std::alloc::Global;
use std::test::Fail;

// A design with one latch, whose two outputs are its properties: the one is proved, the other fails at its first step.
const TWO: &[u8] = b"jasign 1\ndesign 1 0 1 0 2 0\nb0 hold proved\nb1 hold fails\nclauses 1\n3\n\
    stimulus b1\n1\nb1\n0\n\n.\njoined no\nset b1\nend\n";

fn is_written_again(alloc: Global, bytes: &[u8]) -> Result<bool, Fail> {
    let report = read_report(alloc, bytes).ok().ok_or("it was refused")?;
    let text = text_of(alloc, &report)?;
    Ok(text.bytes() == bytes)
}

#[test]
fn texts_both_ways(rt: HostRuntime) -> Result<(), Fail> {
    let alloc = rt.alloc();
    let table: [&[u8]; 6] = [
        TWO,
        // No property, and fewer variables than inputs.
        b"jasign 1\ndesign 0 5 0 0 0 0\nclauses 0\njoined yes\nset\nend\n",
        // Clauses that are empty, have both signs, repeat, or are over a variable of no latch.
        b"jasign 1\ndesign 2 0 1 0 0 0\nclauses 4\n\n2 3\n2 3\n5\njoined yes\nset\nend\n",
        b"jasign 1\ndesign 0 0 0 0 0 0\nclauses 0\njoined no\nset\njournal 0\nend\n",
        // A Publish of nothing, and a proof behind another one.
        b"jasign 1\ndesign 1 0 1 0 1 0\nb0 fail unknown budget 18446744073709551615\nclauses 1\n3\n\
            joined yes\nset b0\njournal 4\n0 publish at 0\n1 draw b0 at 0\n0 settle b0 proved at 1\n\
            1 settle b0 proved had proved at 1\nend\n",
        b"jasign 1\ndesign 0 0 0 0 1 0\nb0 hold unknown cancelled\nclauses 0\njoined no\nset\njournal 6\n\
            0 cancel b0 yes at 0\n0 cancel b0 no at 0\n0 giveup b0 goon at 0\n0 giveup b0 had fails at 0\n\
            0 draw none at 0\n0 giveup b0 yes at 0\nend\n",
    ];
    for bytes in table {
        assert_eq!(rt; is_written_again(alloc, bytes)?, true, "at {bytes:?}");
    }
    Ok(())
}

#[test]
fn first_lines_that_are_refused(rt: HostRuntime) {
    let table: [(&[u8], u64); 17] = [
        (b"", 1),
        (b"jasign 01\n", 1),
        (b"jasign 1\ndesign 00 0 0 0 0 0\n", 2),
        (b"jasign 1\ndesign 0 0 0 0 1 0\nb1 hold proved\n", 3),
        (b"jasign 1\ndesign 0 0 0 0 0 0\nclauses 4294967296\n", 3),
        (b"jasign 1\ndesign 0 0 0 0 0 0\nclauses 4294967295\n2\n", 4),
        // A clause too few.
        (
            b"jasign 1\ndesign 1 0 1 0 2 0\nb0 hold proved\nb1 hold fails\nclauses 2\n3\nstimulus b1\n",
            7,
        ),
        (b"jasign 1\ndesign 1 0 0 0 0 0\nclauses 1\n3 3\n", 4),
        (b"jasign 1\ndesign 1 0 0 0 0 0\nclauses 1\n4\n", 4),
        // A stimulus that no failing property asks for.
        (b"jasign 1\ndesign 0 0 0 0 0 0\nclauses 0\nstimulus b0\n", 4),
        (
            b"jasign 1\ndesign 0 0 0 0 0 0\nclauses 0\njoined no\nset b0\n",
            5,
        ),
        (
            b"jasign 1\ndesign 0 0 0 0 0 0\nclauses 0\njoined no\nset\nend",
            6,
        ),
        (
            b"jasign 1\ndesign 0 0 0 0 0 0\nclauses 0\njoined no\nset\nend\n\n",
            7,
        ),
        // Clauses without an entry that appended them.
        (
            b"jasign 1\ndesign 1 0 0 0 0 0\nclauses 1\n3\njoined no\nset\njournal 0\nend\n",
            7,
        ),
        (
            b"jasign 1\ndesign 1 0 0 0 0 0\nclauses 1\n3\njoined no\nset\njournal 1\n0 publish at 0\nend\n",
            8,
        ),
        (
            b"jasign 1\ndesign 1 0 0 0 0 0\nclauses 1\n3\njoined no\nset\njournal 1\n0 import at 1\nend\n",
            8,
        ),
        // A proof of what had a mark appends nothing.
        (
            b"jasign 1\ndesign 1 0 0 0 1 0\nb0 hold proved\nclauses 1\n3\njoined no\nset\njournal 1\n\
            0 settle b0 proved had fails at 1\nend\n",
            9,
        ),
    ];
    for (bytes, line) in table {
        let refused = read_report(rt.alloc(), bytes).err();
        assert_eq!(rt;
            refused,
            Some(OrMemory::Refused(ReportRefusal::Line { line })),
            "at {bytes:?}"
        );
    }
}

#[test]
fn other_versions(rt: HostRuntime) {
    for bytes in [
        b"jasign 7\n".as_slice(),
        b"jasign 0\n",
        b"jasign 18446744073709551617\n1",
    ] {
        let refused = read_report(rt.alloc(), bytes).err();
        assert_eq!(rt;
            refused,
            Some(OrMemory::Refused(ReportRefusal::Version)),
            "at {bytes:?}"
        );
    }
}
