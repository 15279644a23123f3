use crate::read_ascii;
use aig_model::Reset;
use aiger_lines::{Large, ReadRefusal};
use ja_base::{Memory, OrMemory, Var};
use ja_text::Text;
use std::alloc::Global;
use std::test::Fail;

const NO_HEADER: ReadRefusal = ReadRefusal::Header { at: 0 };

const MANY_PROPERTIES: ReadRefusal = ReadRefusal::TooLarge { what: Large::Props };

const MANY_LINES: ReadRefusal = ReadRefusal::TooLarge { what: Large::Lines };

const LARGE_FILE: ReadRefusal = ReadRefusal::TooLarge { what: Large::File };

#[test]
fn each_refusal(rt: HostRuntime) {
    let table: [(&[u8], ReadRefusal); 10] = [
        (b"", ReadRefusal::Header { at: 0 }),
        (
            b"aag 500001 0 0 0 0\n",
            ReadRefusal::TooLarge { what: Large::Vars },
        ),
        (b"aag 0 0 0 0 0 0 0 1\n", ReadRefusal::Liveness),
        (b"aag 1 1 0 0 0\nx\n", ReadRefusal::Line { at: 14 }),
        (b"aag 1 1 0 0 0\n3\n", ReadRefusal::Range { at: 14 }),
        (b"aag 1 1 0 0 0\n", ReadRefusal::Short { at: 14 }),
        (b"aag 2 1 1 0 0\n2\n2 0\n", ReadRefusal::Twice { at: 16 }),
        (
            b"aag 2 0 0 0 0 1\n4\n",
            ReadRefusal::Undefined { var: Var(2) },
        ),
        (
            b"aag 2 0 0 0 2 1\n2\n2 4 4\n4 2 2\n",
            ReadRefusal::Cycle { var: Var(1) },
        ),
        (b"aag 1 1 0 0 0\n2\ni1 x\n", ReadRefusal::Symbol { at: 16 }),
    ];
    for (bytes, want) in table {
        let refused = read_ascii(rt.alloc(), bytes).err();
        assert_eq!(rt; refused, Some(OrMemory::Refused(want)), "at {bytes:?}");
    }
}

#[test]
fn headers(rt: HostRuntime) {
    let table: [(&[u8], ReadRefusal); 20] = [
        (b"aag 0 0 0 0 0", NO_HEADER),
        (b"aag 0 0 0 0\n", NO_HEADER),
        (b"aag 0 0 0 0 0 0 0 0 0 0\n", NO_HEADER),
        (b"aag 0 0 0 0 0 \n", NO_HEADER),
        (b"aag 0  0 0 0 0\n", NO_HEADER),
        (b"aag 0 0 0 0 0\r\n", NO_HEADER),
        (b" aag 0 0 0 0 0\n", NO_HEADER),
        (b"aag\n0 0 0 0 0\n", NO_HEADER),
        (b"aig 0 0 0 0 0\n", NO_HEADER),
        (b"aag 1 1 0 0 1\n", NO_HEADER),
        (
            b"aag 0 18446744073709551615 18446744073709551615 0 0\n",
            NO_HEADER,
        ),
        (b"aag 1 2 0 0 0 20001\n", NO_HEADER),
        (b"aag 1 2 0 0 0 0 0 0 1\n", ReadRefusal::Liveness),
        (
            b"aag 0 0 0 0 0 0 0 18446744073709551616\n",
            ReadRefusal::Liveness,
        ),
        (
            b"aag 500001 0 0 0 0 0 0 1\n",
            ReadRefusal::TooLarge { what: Large::Vars },
        ),
        (b"aag 0 0 0 20001 0\n", MANY_PROPERTIES),
        (b"aag 0 0 0 500001 0\n", MANY_PROPERTIES),
        (b"aag 0 0 0 500001 0 20001\n", MANY_PROPERTIES),
        (b"aag 0 0 0 500001 0 1\n", MANY_LINES),
        (b"aag 0 0 0 0 0 0 500001\n", MANY_LINES),
    ];
    for (bytes, want) in table {
        let refused = read_ascii(rt.alloc(), bytes).err();
        assert_eq!(rt; refused, Some(OrMemory::Refused(want)), "at {bytes:?}");
    }
}

#[test]
fn lines_of_sections(rt: HostRuntime) {
    let table: [(&[u8], ReadRefusal); 21] = [
        // No LF follows, whatever the form.
        (b"aag 1 1 0 0 0\nx", ReadRefusal::Short { at: 15 }),
        (b"aag 2 2 0 0 0\n2\n4", ReadRefusal::Short { at: 17 }),
        // The form comes before the range.
        (b"aag 1 1 0 0 0\n2 3\n", ReadRefusal::Line { at: 14 }),
        (b"aag 1 1 0 0 0\n\n2\n", ReadRefusal::Line { at: 14 }),
        (b"aag 1 1 0 0 0\n2\r\n", ReadRefusal::Line { at: 14 }),
        (b"aag 1 0 1 0 0\n2\n", ReadRefusal::Line { at: 14 }),
        (b"aag 1 0 1 0 0\n2 0 0 0\n", ReadRefusal::Line { at: 14 }),
        (b"aag 1 0 0 0 1\n2 0\n", ReadRefusal::Line { at: 14 }),
        (b"aag 1 1 0 1 0\n2\n2 2\n", ReadRefusal::Line { at: 16 }),
        // What is defined is even, from 2 to 2M.
        (b"aag 1 1 0 0 0\n0\n", ReadRefusal::Range { at: 14 }),
        (b"aag 1 1 0 0 0\n4\n", ReadRefusal::Range { at: 14 }),
        (
            b"aag 1 1 0 0 0\n4294967298\n",
            ReadRefusal::Range { at: 14 },
        ),
        (
            b"aag 1 1 0 0 0\n18446744073709551618\n",
            ReadRefusal::Range { at: 14 },
        ),
        // What is used is at most 2M + 1.
        (b"aag 1 0 0 1 0\n4\n", ReadRefusal::Range { at: 14 }),
        (b"aag 1 0 1 0 0\n2 4\n", ReadRefusal::Range { at: 14 }),
        (b"aag 1 0 0 0 1\n2 0 4\n", ReadRefusal::Range { at: 14 }),
        // A reset is 0, 1 or the latch's own literal.
        (b"aag 1 0 1 0 0\n2 0 3\n", ReadRefusal::Range { at: 14 }),
        (b"aag 2 1 1 0 0\n2\n4 0 2\n", ReadRefusal::Range { at: 16 }),
        // The range comes before a second definition.
        (b"aag 2 1 1 0 0\n2\n2 6\n", ReadRefusal::Range { at: 16 }),
        (b"aag 2 1 1 0 0\n2\n2 0 3\n", ReadRefusal::Range { at: 16 }),
        (b"aag 2 1 0 0 1\n2\n2 0 0\n", ReadRefusal::Twice { at: 16 }),
    ];
    for (bytes, want) in table {
        let refused = read_ascii(rt.alloc(), bytes).err();
        assert_eq!(rt; refused, Some(OrMemory::Refused(want)), "at {bytes:?}");
    }
}

#[test]
fn behind_the_gates(rt: HostRuntime) {
    let table: [(&[u8], ReadRefusal); 19] = [
        // Lists that make no design come before lines that follow them.
        (
            b"aag 2 0 0 0 0 1\n4\nzz\n",
            ReadRefusal::Undefined { var: Var(2) },
        ),
        (
            b"aag 1 0 0 0 1\n2 2 2\nzz\n",
            ReadRefusal::Cycle { var: Var(1) },
        ),
        // An output that is no property is looked at too.
        (
            b"aag 2 0 0 1 0 1\n4\n0\n",
            ReadRefusal::Undefined { var: Var(2) },
        ),
        (
            b"aag 3 0 0 1 0 1\n6\n4\n",
            ReadRefusal::Undefined { var: Var(2) },
        ),
        (
            b"aag 3 0 0 0 3\n2 4 4\n4 6 6\n6 4 4\n",
            ReadRefusal::Cycle { var: Var(1) },
        ),
        (b"aag 1 0 0 0 0\nx\n", ReadRefusal::Symbol { at: 14 }),
        (b"aag 1 1 0 0 0\n2\ni0\n", ReadRefusal::Symbol { at: 16 }),
        (b"aag 1 1 0 0 0\n2\ni x\n", ReadRefusal::Symbol { at: 16 }),
        (
            b"aag 1 1 0 0 0\n2\ni0 x\n\n i0 x",
            ReadRefusal::Symbol { at: 22 },
        ),
        (
            b"aag 1 1 0 0 0\n2\ni18446744073709551616 x\n",
            ReadRefusal::Symbol { at: 16 },
        ),
        (
            b"aag 1 0 1 0 0\n2 0\nl1 x\n",
            ReadRefusal::Symbol { at: 18 },
        ),
        (b"aag 0 0 0 1 0\n0\no1 x\n", ReadRefusal::Symbol { at: 16 }),
        // The outputs are the properties, and there are no bads.
        (b"aag 0 0 0 1 0\n0\nb0 x\n", ReadRefusal::Symbol { at: 16 }),
        (
            b"aag 0 0 0 0 0 1\n0\nb1 x\n",
            ReadRefusal::Symbol { at: 18 },
        ),
        (b"aag 0 0 0 0 0\nc0\n", ReadRefusal::Symbol { at: 14 }),
        (b"aag 0 0 0 0 0\nc0 x\n", ReadRefusal::Symbol { at: 14 }),
        (b"aag 0 0 0 0 0\nj0 x\n", ReadRefusal::Symbol { at: 14 }),
        (b"aag 0 0 0 0 0\nf0 x\n", ReadRefusal::Symbol { at: 14 }),
        (b"aag 1 1 0 0 0\n2\na0 x\n", ReadRefusal::Symbol { at: 16 }),
    ];
    for (bytes, want) in table {
        let refused = read_ascii(rt.alloc(), bytes).err();
        assert_eq!(rt; refused, Some(OrMemory::Refused(want)), "at {bytes:?}");
    }
}

#[test]
fn designs(rt: HostRuntime) {
    let table: [&[u8]; 15] = [
        b"aag 0 0 0 0 0\n",
        b"aag 500000 0 0 0 0\n",
        b"aag 007 01 0 0 0 0 0 0 0\n0014\n",
        b"aag 0 0 0 0 0\n\n\n",
        b"aag 0 0 0 0 0\nc",
        b"aag 0 0 0 0 0\ncx",
        b"aag 0 0 0 0 0\nc\r\n\xff\nzz",
        b"aag 0 0 0 0 0\nc 0\nzz\n",
        b"aag 1 1 0 0 0\n2\ni0 \ni00 a name\n\ni0 \xff\r",
        b"aag 0 0 0 1 0\n1\no0 x\n",
        b"aag 0 0 0 1 0 1 1\n1\n0\n1\no0 x\nb0 x\nc0 x\nc",
        b"aag 1 0 1 0 0\n2 3 2\nl0 toggles from either bit\n",
        b"aag 2 0 1 0 1\n2 4\n4 3 3\n",
        b"aag 3 1 0 0 2\n2\n6 5 2\n4 2 2\n",
        b"aag 2 0 0 0 2\n4 1 1\n2 4 4\n",
    ];
    for bytes in table {
        assert_eq!(rt; read_ascii(rt.alloc(), bytes).err(), None, "at {bytes:?}");
    }
}

#[test]
fn a_design_as_it_is_written(rt: HostRuntime) -> Result<(), Fail> {
    let bytes = b"aag 6 1 2 2 2 1 1\n2\n4 8 1\n6 7 6\n9\n4\n11\n3\n8 10 5\n10 2 6\n";
    let design = read_ascii(rt.alloc(), bytes).ok().ok_or("a design")?;
    assert_eq!(rt; design.vars(), 6);
    let sizes = (design.inputs(), design.latches(), design.gates());
    assert!(rt; sizes == (1, 2, 2));
    // The outputs are not properties.
    assert!(rt; (design.props(), design.constraints()) == (1, 1));
    assert_eq!(rt; design.input(0).number(), 2);
    let latch = design.latch(0);
    assert!(rt; (latch.lit.number(), latch.next.number(), latch.reset) == (4, 8, Reset::One));
    let latch = design.latch(1);
    assert!(rt; (latch.lit.number(), latch.next.number(), latch.reset) == (6, 7, Reset::Free));
    assert_eq!(rt; design.bad(0).number(), 11);
    assert_eq!(rt; design.constraint(0).number(), 3);
    // Right sides come first.
    let gate = design.gate(0);
    assert!(rt; (gate.lhs.number(), gate.rhs0.number(), gate.rhs1.number()) == (10, 2, 6));
    let gate = design.gate(1);
    assert!(rt; (gate.lhs.number(), gate.rhs0.number(), gate.rhs1.number()) == (8, 10, 5));
    Ok(())
}

#[test]
fn large_files(rt: HostRuntime) -> Result<(), Fail> {
    for (len, want) in [(67_108_865, LARGE_FILE), (67_108_864, NO_HEADER)] {
        let bytes = vec![in rt.alloc(); 0u8; len]?;
        let refused = read_ascii(rt.alloc(), bytes.as_slice()).err();
        assert_eq!(rt; refused, Some(OrMemory::Refused(want)), "at {len}");
    }
    Ok(())
}

/// A header, and so many lines behind it: of the even numbers from 2 on, or of zeros.
fn many_lines(
    alloc: Global,
    header: &[u8],
    count: u32,
    ascends: bool,
    ending: &[u8],
) -> Result<Text, Memory> {
    let mut text = Text::new(alloc);
    text.push(header)?;
    for line in 0..count {
        text.number(if ascends { 2 * u64::from(line) + 2 } else { 0 })?;
        text.push(ending)?;
    }
    Ok(text)
}

#[test]
fn takes_files_at_the_limits(rt: HostRuntime) -> Result<(), Fail> {
    let rows: [(&[u8], u32, bool, &[u8]); 5] = [
        (b"aag 500000 500000 0 0 0\n", 500_000, true, b"\n"),
        (b"aag 500000 0 500000 0 0\n", 500_000, true, b" 0\n"),
        // the last line is of a bad, since outputs are properties where there is none
        (b"aag 0 0 0 500000 0 1\n", 500_001, false, b"\n"),
        (b"aag 0 0 0 0 0 20000\n", 20_000, false, b"\n"),
        (b"aag 0 0 0 0 0 0 500000\n", 500_000, false, b"\n"),
    ];
    for (header, count, ascends, ending) in rows {
        let text = many_lines(rt.alloc(), header, count, ascends, ending)?;
        let read = read_ascii(rt.alloc(), text.bytes());
        assert!(rt; read.is_ok(), "behind {header:?}");
    }
    Ok(())
}
