use crate::read_binary;
use aig_model::{Design, Reset};
use aiger_lines::{Large, ReadRefusal};
use ja_base::OrMemory;
use std::test::Fail;

const NO_HEADER: ReadRefusal = ReadRefusal::Header { at: 0 };

#[test]
fn each_refusal(rt: HostRuntime) {
    let table: [(&[u8], ReadRefusal); 30] = [
        (b"", NO_HEADER),
        (b"aag 0 0 0 0 0\n", NO_HEADER),
        (b"6 0 3 0 3 3\n", NO_HEADER),
        (b"aig 0 0 0 0 0", NO_HEADER),
        // M is the sum.
        (b"aig 3 1 1 0 0\n0\n", NO_HEADER),
        (b"aig 1 1 1 0 0\n0\n", NO_HEADER),
        (
            b"aig 500001 500001 0 0 0\n",
            ReadRefusal::TooLarge { what: Large::Vars },
        ),
        (b"aig 1 2 0 0 0 0 0 1\n", ReadRefusal::Liveness),
        // Latch lines.
        (b"aig 1 0 1 0 0\n2 0 0\n", ReadRefusal::Line { at: 14 }),
        (b"aig 1 0 1 0 0\n\n", ReadRefusal::Line { at: 14 }),
        (b"aig 1 0 1 0 0\n4\n", ReadRefusal::Range { at: 14 }),
        (b"aig 1 0 1 0 0\n2 3\n", ReadRefusal::Range { at: 14 }),
        (b"aig 2 1 1 0 0\n2 2\n", ReadRefusal::Range { at: 14 }),
        (b"aig 1 0 1 0 0\n2", ReadRefusal::Short { at: 15 }),
        (b"aig 1 1 0 1 0\n4\n", ReadRefusal::Range { at: 14 }),
        // Deltas that end with the file.
        (b"aig 3 2 0 0 1\n", ReadRefusal::Short { at: 14 }),
        (b"aig 3 2 0 0 1\n\x02", ReadRefusal::Short { at: 15 }),
        (
            b"aig 3 2 0 0 1\n\x82\x80\x80\x80",
            ReadRefusal::Short { at: 18 },
        ),
        (
            b"aig 6 0 3 0 3 3\n6 1\n2\n4\n8\n10\n12\n\x04\x02\x04",
            ReadRefusal::Short { at: 35 },
        ),
        // Deltas that do not end in five bytes.
        (
            b"aig 3 2 0 0 1\n\x82\x80\x80\x80\x80",
            ReadRefusal::Line { at: 14 },
        ),
        (
            b"aig 3 2 0 0 1\n\x02\x82\x80\x80\x80\x80\x00",
            ReadRefusal::Line { at: 15 },
        ),
        // First deltas that are 0 or above the left side.
        (
            b"aig 6 0 3 0 3 3\n6 1\n2\n4\n8\n10\n12\n\x00\x02\x04\x02\x06\x04",
            ReadRefusal::Order { at: 32 },
        ),
        (b"aig 3 2 0 0 1\n\x07\x00", ReadRefusal::Order { at: 14 }),
        (
            b"aig 3 2 0 0 1\n\x82\x80\x80\x80\x10\x00",
            ReadRefusal::Order { at: 14 },
        ),
        (
            b"aig 66 65 0 0 1\n\x81\x02\x00",
            ReadRefusal::Order { at: 16 },
        ),
        // Second deltas above the first right side.
        (b"aig 3 2 0 0 1\n\x02\x05", ReadRefusal::Order { at: 15 }),
        (
            b"aig 4 2 0 0 2\n\x02\x04\x03\x06",
            ReadRefusal::Order { at: 17 },
        ),
        // What follows the gates.
        (b"aig 1 1 0 0 0\ni1 x\n", ReadRefusal::Symbol { at: 14 }),
        (
            b"aig 3 2 0 0 1\n\x02\x04\x00",
            ReadRefusal::Symbol { at: 16 },
        ),
        (
            b"aig 3 2 0 0 1\n\x02\x04i0 x\n\nl0 x",
            ReadRefusal::Symbol { at: 22 },
        ),
    ];
    for (bytes, want) in table {
        let refused = read_binary(rt.alloc(), bytes).err();
        assert_eq!(rt; refused, Some(OrMemory::Refused(want)), "at {bytes:?}");
    }
}

/// The literals of the last gate.
fn last_gate(design: &Design) -> Option<(u32, u32, u32)> {
    let last = design.gates().checked_sub(1)?;
    let gate = design.gate(last);
    Some((gate.lhs.number(), gate.rhs0.number(), gate.rhs1.number()))
}

#[test]
fn deltas(rt: HostRuntime) -> Result<(), Fail> {
    let table: [(&[u8], (u32, u32, u32)); 8] = [
        (b"aig 3 2 0 0 1\n\x02\x02", (6, 4, 2)),
        // A right side may be the constant, and both may be the same.
        (b"aig 3 2 0 0 1\n\x06\x00", (6, 0, 0)),
        (b"aig 3 2 0 0 1\n\x02\x04", (6, 4, 0)),
        (b"aig 3 2 0 0 1\n\x01\x00", (6, 5, 5)),
        // Longer than needed.
        (b"aig 3 2 0 0 1\n\x84\x80\x80\x80\x00\x80\x00", (6, 2, 2)),
        // 130 and 128.
        (b"aig 66 65 0 0 1\n\x82\x01\x00", (132, 2, 2)),
        (b"aig 66 65 0 0 1\n\x02\x80\x01", (132, 130, 2)),
        (b"aig 3 2 0 0 1\n\x02\x02i0 a\ni1 b\nc\nzz", (6, 4, 2)),
    ];
    for (bytes, want) in table {
        let design = read_binary(rt.alloc(), bytes).ok().ok_or("a design")?;
        assert_eq!(rt; last_gate(&design), Some(want), "at {bytes:?}");
    }
    Ok(())
}

#[test]
fn a_design_as_it_is_written(rt: HostRuntime) -> Result<(), Fail> {
    let bytes = b"aig 6 0 3 0 3 3\n6 1\n2\n4\n8\n10\n12\n\x04\x02\x04\x02\x06\x04";
    let design = read_binary(rt.alloc(), bytes).ok().ok_or("a design")?;
    let sizes = (design.inputs(), design.latches(), design.gates());
    assert!(rt; sizes == (0, 3, 3));
    assert!(rt; (design.vars(), design.props(), design.constraints()) == (6, 3, 0));
    let latches = [(2, 6, Reset::One), (4, 2, Reset::Zero), (6, 4, Reset::Zero)];
    let gates = [(8, 4, 2), (10, 6, 4), (12, 6, 2)];
    for k in 0..3u32 {
        let latch = design.latch(k);
        let now = (latch.lit.number(), latch.next.number(), latch.reset);
        assert!(rt; now == latches[k as usize], "at {k}");
        let gate = design.gate(k);
        let now = (gate.lhs.number(), gate.rhs0.number(), gate.rhs1.number());
        assert!(rt; now == gates[k as usize], "at {k}");
        assert_eq!(rt; design.bad(k).number(), gates[k as usize].0, "at {k}");
    }
    Ok(())
}

#[test]
fn inputs_latches_and_outputs(rt: HostRuntime) -> Result<(), Fail> {
    // Two inputs, a latch that is free at the start, and outputs that are the properties.
    let bytes = b"aig 3 2 1 2 0 0 1\n7 6\n2\n7\n5\n";
    let design = read_binary(rt.alloc(), bytes).ok().ok_or("a design")?;
    let sizes = (design.inputs(), design.latches(), design.gates());
    assert!(rt; sizes == (2, 1, 0));
    assert!(rt; (design.props(), design.constraints()) == (2, 1));
    assert_eq!(rt;
        (design.input(0).number(), design.input(1).number()),
        (2, 4)
    );
    let latch = design.latch(0);
    assert!(rt; (latch.lit.number(), latch.next.number(), latch.reset) == (6, 7, Reset::Free));
    assert_eq!(rt; (design.bad(0).number(), design.bad(1).number()), (2, 7));
    assert_eq!(rt; design.constraint(0).number(), 5);
    Ok(())
}
