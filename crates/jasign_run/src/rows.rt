//! Rows of the tests: files, and what `confirm` says of them.

/// Two files, and the line and status that `confirm` gives for them. Each line was worked out by hand.
pub(crate) struct Case {
    pub(crate) design: &'static [u8],
    pub(crate) stim: &'static [u8],
    pub(crate) line: &'static [u8],
    pub(crate) status: u8,
}

pub(crate) const TWO_LATCHES: &[u8] = b"aag 2 0 2 0 0 2\n2 1\n4 2\n2\n4\n";

pub(crate) const RING: &[u8] =
    b"aag 6 0 3 0 3 3\n2 6 1\n4 2\n6 4\n8\n10\n12\n8 4 2\n10 6 4\n12 6 2\n";

/// The same ring in the binary form.
pub(crate) const BINARY_RING: &[u8] =
    b"aig 6 0 3 0 3 3\n6 1\n2\n4\n8\n10\n12\n\x04\x02\x04\x02\x06\x04";

pub(crate) const ARBITER: &[u8] =
    b"aag 6 2 2 1 2 2\n2\n4\n6 2\n8 10\n8\n12\n8\n10 4 3\n12 8 6\ni0 req0\ni1 req1\nl0 gnt0\nl1 gnt1\no0 grant\nb0 mutex\nb1 never\nc\nwritten by a generator\n";

pub(crate) const NEVER: &[u8] = b"aag 1 1 0 0 0 1 1\n2\n2\n0\n";

pub(crate) const OUTPUTS: &[u8] = b"aag 1 0 1 2 0\n2 3\n2\n3\n";

pub(crate) const FREE: &[u8] = b"aag 1 0 1 0 0 1\n2 2 2\n2\n";

pub(crate) const REPLAYS: [Case; 20] = [
    Case {
        design: TWO_LATCHES,
        stim: b"1\nb0\n00\n\n\n.\n",
        line: b"confirmed b0 steps 2\n",
        status: 0,
    },
    Case {
        design: TWO_LATCHES,
        stim: b"1\nb0\n00\n\n.\n",
        line: b"not confirmed: not bad\n",
        status: 1,
    },
    Case {
        design: TWO_LATCHES,
        stim: b"1\nb0\n10\n\n.\n",
        line: b"not confirmed: start latch 0\n",
        status: 1,
    },
    Case {
        design: TWO_LATCHES,
        stim: b"1\nb1\n00\n\n\n\n.\n",
        line: b"not confirmed: b0 broke at step 1\n",
        status: 1,
    },
    Case {
        design: TWO_LATCHES,
        stim: b"1\nb0\n0x\n\n\n.",
        line: b"confirmed b0 steps 2\n",
        status: 0,
    },
    Case {
        design: RING,
        stim: b"1\nb0\n000\n\n.\n",
        line: b"not confirmed: start latch 0\n",
        status: 1,
    },
    Case {
        design: RING,
        stim: b"1\nb0\n100\n\n\n\n.\n",
        line: b"not confirmed: not bad\n",
        status: 1,
    },
    Case {
        design: ARBITER,
        stim: b"1\nb1\n00\n01\n00\n.\n",
        line: b"confirmed b1 steps 2\n",
        status: 0,
    },
    Case {
        design: ARBITER,
        stim: b"1\nb1\nxx\nx1\nxx\n.\nmore",
        line: b"confirmed b1 steps 2\n",
        status: 0,
    },
    Case {
        design: ARBITER,
        stim: b"1\nb1\n00\n01\n.\n",
        line: b"not confirmed: not bad\n",
        status: 1,
    },
    Case {
        design: NEVER,
        stim: b"1\nb0\n\n1\n.\n",
        line: b"not confirmed: constraint at step 0\n",
        status: 1,
    },
    Case {
        design: OUTPUTS,
        stim: b"1\nb1\n0\n\n.\n",
        line: b"confirmed b1 steps 1\n",
        status: 0,
    },
    Case {
        design: OUTPUTS,
        stim: b"1\nb0\n0\n\n\n.\n",
        line: b"not confirmed: b1 broke at step 0\n",
        status: 1,
    },
    Case {
        design: FREE,
        stim: b"1\nb0\n1\n\n.\n",
        line: b"confirmed b0 steps 1\n",
        status: 0,
    },
    Case {
        design: ARBITER,
        stim: b"1\nb1\n00\n0\n.\n",
        line: b"fault: stimulus 3 width line 4\n",
        status: 3,
    },
    Case {
        design: ARBITER,
        stim: b"1\nb1\n00\n01\n",
        line: b"fault: stimulus 4 short line 5\n",
        status: 3,
    },
    Case {
        design: TWO_LATCHES,
        stim: b"1\nb00000\n00\n\n\n.\n1\nb7\n",
        line: b"confirmed b0 steps 2\n",
        status: 0,
    },
    Case {
        design: TWO_LATCHES,
        stim: b"1\nb0\nx0\n\n\n.",
        line: b"confirmed b0 steps 2\n",
        status: 0,
    },
    Case {
        design: BINARY_RING,
        stim: b"1\nb0\n000\n\n.\n",
        line: b"not confirmed: start latch 0\n",
        status: 1,
    },
    Case {
        design: BINARY_RING,
        stim: b"1\nb2\n100\n\n\n\n.\n",
        line: b"not confirmed: not bad\n",
        status: 1,
    },
];

pub(crate) const REFUSALS: [Case; 51] = [
    Case {
        design: b"",
        stim: b"",
        line: b"fault: design 1 header at 0\n",
        status: 3,
    },
    Case {
        design: b"aag 500001 0 0 0 0\n",
        stim: b"",
        line: b"fault: design 2 too large vars\n",
        status: 3,
    },
    Case {
        design: b"aag 0 0 0 0 0 0 0 1\n",
        stim: b"",
        line: b"fault: design 3 liveness\n",
        status: 3,
    },
    Case {
        design: b"aag 1 1 0 0 0\nx\n",
        stim: b"",
        line: b"fault: design 4 line at 14\n",
        status: 3,
    },
    Case {
        design: b"aag 1 1 0 0 0\n3\n",
        stim: b"",
        line: b"fault: design 5 range at 14\n",
        status: 3,
    },
    Case {
        design: b"aag 1 1 0 0 0\n",
        stim: b"",
        line: b"fault: design 10 short at 14\n",
        status: 3,
    },
    Case {
        design: b"aag 2 1 1 0 0\n2\n2 0\n",
        stim: b"",
        line: b"fault: design 6 twice at 16\n",
        status: 3,
    },
    Case {
        design: b"aag 2 0 0 0 0 1\n4\n",
        stim: b"",
        line: b"fault: design 7 undefined var 2\n",
        status: 3,
    },
    Case {
        design: b"aag 2 0 0 0 2 1\n2\n2 4 4\n4 2 2\n",
        stim: b"",
        line: b"fault: design 8 cycle var 1\n",
        status: 3,
    },
    Case {
        design: b"aag 1 1 0 0 0\n2\ni1 x\n",
        stim: b"",
        line: b"fault: design 9 symbol at 16\n",
        status: 3,
    },
    Case {
        design: b"aag 3 0 0 0 3\n2 4 4\n4 6 6\n6 4 4\n",
        stim: b"",
        line: b"fault: design 8 cycle var 1\n",
        status: 3,
    },
    Case {
        design: b"aag 1 2 0 0 0 0 0 0 1\n",
        stim: b"",
        line: b"fault: design 3 liveness\n",
        status: 3,
    },
    Case {
        design: b"aag 1 2 0 0 0 20001\n",
        stim: b"",
        line: b"fault: design 1 header at 0\n",
        status: 3,
    },
    Case {
        design: b"aag 0 0 0 500001 0\n",
        stim: b"",
        line: b"fault: design 2 too large props\n",
        status: 3,
    },
    Case {
        design: b"aag 0 0 0 500001 0 1\n",
        stim: b"",
        line: b"fault: design 2 too large lines\n",
        status: 3,
    },
    Case {
        design: b"aag 1 1 0 0 0\nx",
        stim: b"",
        line: b"fault: design 10 short at 15\n",
        status: 3,
    },
    Case {
        design: b"aag 0 18446744073709551615 18446744073709551615 0 0\n",
        stim: b"",
        line: b"fault: design 1 header at 0\n",
        status: 3,
    },
    Case {
        design: b"aag 1 0 0 1 0 1\n2\n0\n",
        stim: b"",
        line: b"fault: design 7 undefined var 1\n",
        status: 3,
    },
    Case {
        design: b"aag 1 0 1 0 0 1\n2 2 3\n2\n",
        stim: b"",
        line: b"fault: design 5 range at 16\n",
        status: 3,
    },
    Case {
        design: b"aag 1 1 0 0 0 1\n2\n2\nc0\n",
        stim: b"",
        line: b"fault: design 9 symbol at 20\n",
        status: 3,
    },
    Case {
        design: TWO_LATCHES,
        stim: b"b0\n00\n\n.\n",
        line: b"fault: stimulus 1 line line 1\n",
        status: 3,
    },
    Case {
        design: TWO_LATCHES,
        stim: b"1\nb2\n00\n\n.\n",
        line: b"fault: stimulus 2 unknown line 2\n",
        status: 3,
    },
    Case {
        design: TWO_LATCHES,
        stim: b"1\nb0\n00\n.\n",
        line: b"fault: stimulus 1 line line 4\n",
        status: 3,
    },
    Case {
        design: TWO_LATCHES,
        stim: b"1\nb0\n00\n\n.zz",
        line: b"fault: stimulus 4 short line 5\n",
        status: 3,
    },
    Case {
        design: TWO_LATCHES,
        stim: b"",
        line: b"fault: stimulus 4 short line 1\n",
        status: 3,
    },
    Case {
        design: TWO_LATCHES,
        stim: b"1",
        line: b"fault: stimulus 4 short line 1\n",
        status: 3,
    },
    Case {
        design: TWO_LATCHES,
        stim: b"1\n",
        line: b"fault: stimulus 4 short line 2\n",
        status: 3,
    },
    Case {
        design: TWO_LATCHES,
        stim: b".",
        line: b"fault: stimulus 1 line line 1\n",
        status: 3,
    },
    Case {
        design: TWO_LATCHES,
        stim: b"01\n",
        line: b"fault: stimulus 1 line line 1\n",
        status: 3,
    },
    Case {
        design: TWO_LATCHES,
        stim: b"1\r\n",
        line: b"fault: stimulus 1 line line 1\n",
        status: 3,
    },
    Case {
        design: TWO_LATCHES,
        stim: b"1\nc0\n",
        line: b"fault: stimulus 1 line line 2\n",
        status: 3,
    },
    Case {
        design: TWO_LATCHES,
        stim: b"1\nb\n",
        line: b"fault: stimulus 1 line line 2\n",
        status: 3,
    },
    Case {
        design: TWO_LATCHES,
        stim: b"1\nb2\nzz\n",
        line: b"fault: stimulus 2 unknown line 2\n",
        status: 3,
    },
    Case {
        design: TWO_LATCHES,
        stim: b"1\nb18446744073709551616\n",
        line: b"fault: stimulus 2 unknown line 2\n",
        status: 3,
    },
    Case {
        design: TWO_LATCHES,
        stim: b"1\nb0\n",
        line: b"fault: stimulus 4 short line 3\n",
        status: 3,
    },
    Case {
        design: TWO_LATCHES,
        stim: b"1\nb0\n.",
        line: b"fault: stimulus 1 line line 3\n",
        status: 3,
    },
    Case {
        design: TWO_LATCHES,
        stim: b"1\nb0\n0y2\n",
        line: b"fault: stimulus 1 line line 3\n",
        status: 3,
    },
    Case {
        design: TWO_LATCHES,
        stim: b"1\nb0\n000\n\n.\n",
        line: b"fault: stimulus 3 width line 3\n",
        status: 3,
    },
    Case {
        design: TWO_LATCHES,
        stim: b"1\nb0\n00",
        line: b"fault: stimulus 4 short line 3\n",
        status: 3,
    },
    Case {
        design: TWO_LATCHES,
        stim: b"1\nb0\n00\n.",
        line: b"fault: stimulus 1 line line 4\n",
        status: 3,
    },
    Case {
        design: TWO_LATCHES,
        stim: b"1\nb0\n00\n0\n.\n",
        line: b"fault: stimulus 3 width line 4\n",
        status: 3,
    },
    Case {
        design: TWO_LATCHES,
        stim: b"1\nb0\n00\n\n.zz\n",
        line: b"fault: stimulus 1 line line 5\n",
        status: 3,
    },
    Case {
        design: TWO_LATCHES,
        stim: b"1\nb0\n00\n\n",
        line: b"fault: stimulus 4 short line 5\n",
        status: 3,
    },
    Case {
        design: b"aig 6 0 3 0 3 3\n6 1\n2\n4\n8\n10\n12\n\x00\x02\x04\x02\x06\x04",
        stim: b"",
        line: b"fault: design 11 order at 32\n",
        status: 3,
    },
    Case {
        design: b"aig 6 0 3 0 3 3\n6 1\n2\n4\n8\n10\n12\n\x04\x02\x04",
        stim: b"",
        line: b"fault: design 10 short at 35\n",
        status: 3,
    },
    Case {
        design: b"aig 6 0 3 0 3 3\n6 1\n2\n4\n8\n10\n12\n\x04\x02\x04\x02\x06\x04x",
        stim: b"",
        line: b"fault: design 9 symbol at 38\n",
        status: 3,
    },
    Case {
        design: b"aig 6 0 3 0 3 3\n6 1\n2\n4\n8\n10\n12\n\x84\x80\x80\x80\x80",
        stim: b"",
        line: b"fault: design 4 line at 32\n",
        status: 3,
    },
    Case {
        design: b"aig",
        stim: b"",
        line: b"fault: design 1 header at 0\n",
        status: 3,
    },
    Case {
        design: b"aig 7 0 3 0 3 3\n",
        stim: b"",
        line: b"fault: design 1 header at 0\n",
        status: 3,
    },
    Case {
        design: b"aig 3 0 3\n",
        stim: b"",
        line: b"fault: design 1 header at 0\n",
        status: 3,
    },
    Case {
        design: b"aig 1 0 1 0 0\n4\n",
        stim: b"",
        line: b"fault: design 5 range at 14\n",
        status: 3,
    },
];

pub(crate) const EXPECTATIONS: [(&[u8], Case); 20] = [
    (
        b"expect 1\n# second grant is reachable\nfail b1\n",
        Case {
            design: ARBITER,
            stim: b"1\nb1\n00\n01\n00\n.\n",
            line: b"confirmed b1 steps 2\n",
            status: 0,
        },
    ),
    (
        b"expect 1\n# second grant is reachable\nfail b1\n",
        Case {
            design: ARBITER,
            stim: b"1\nb1\nxx\nx1\nxx\n.\n",
            line: b"confirmed b1 steps 2\n",
            status: 0,
        },
    ),
    (
        b"expect 1\nfail b1\n",
        Case {
            design: ARBITER,
            stim: b"1\nb1\n00\n01\n.\n",
            line: b"not confirmed: not bad\n",
            status: 1,
        },
    ),
    (
        b"expect 1\nfail b1\n",
        Case {
            design: ARBITER,
            stim: b"1\nb1\n00\n0\n.\n",
            line: b"fault: stimulus 3 width line 4\n",
            status: 3,
        },
    ),
    (
        b"expect 2\n",
        Case {
            design: ARBITER,
            stim: b"1\nb1\n00\n01\n",
            line: b"fault: stimulus 4 short line 5\n",
            status: 3,
        },
    ),
    (
        b"expect 1\nfail b0\n",
        Case {
            design: TWO_LATCHES,
            stim: b"1\nb1\n00\n\n\n\n.\n",
            line: b"confirmed b1 steps 3\n",
            status: 0,
        },
    ),
    (
        b"expect 1\nfail b000",
        Case {
            design: TWO_LATCHES,
            stim: b"1\nb1\n00\n\n\n\n.\n",
            line: b"confirmed b1 steps 3\n",
            status: 0,
        },
    ),
    (
        b"expect 1\n",
        Case {
            design: TWO_LATCHES,
            stim: b"1\nb1\n00\n\n\n\n.\n",
            line: b"not confirmed: b0 broke at step 1\n",
            status: 1,
        },
    ),
    (
        b"expect 1\nhold b0\n\n#\nfail b1\n",
        Case {
            design: TWO_LATCHES,
            stim: b"1\nb1\n00\n\n\n\n.\n",
            line: b"not confirmed: b0 broke at step 1\n",
            status: 1,
        },
    ),
    (
        b"expect 1",
        Case {
            design: TWO_LATCHES,
            stim: b"1\nb0\n00\n\n\n\n.\n",
            line: b"not confirmed: b0 broke at step 1\n",
            status: 1,
        },
    ),
    (
        b"expect 1\nfail b0\n",
        Case {
            design: TWO_LATCHES,
            stim: b"1\nb0\n00\n\n\n\n.\n",
            line: b"confirmed b0 steps 3\n",
            status: 0,
        },
    ),
    (
        b"expect 1\nfail b0\nhold b0\n",
        Case {
            design: TWO_LATCHES,
            stim: b"1\nb0\n00\n\n\n.\n",
            line: b"fault: expect 3 twice line 3\n",
            status: 3,
        },
    ),
    (
        b"expect 1\nhold b0\nhold b0\n",
        Case {
            design: TWO_LATCHES,
            stim: b"1\nb0\n00\n\n\n.\n",
            line: b"fault: expect 3 twice line 3\n",
            status: 3,
        },
    ),
    (
        b"expect 2\n",
        Case {
            design: TWO_LATCHES,
            stim: b"1\nb0\n00\n\n\n.\n",
            line: b"fault: expect 1 line line 1\n",
            status: 3,
        },
    ),
    (
        b"",
        Case {
            design: TWO_LATCHES,
            stim: b"1\nb0\n00\n\n\n.\n",
            line: b"fault: expect 1 line line 1\n",
            status: 3,
        },
    ),
    (
        b"expect 01\n",
        Case {
            design: TWO_LATCHES,
            stim: b"1\nb0\n00\n\n\n.\n",
            line: b"fault: expect 1 line line 1\n",
            status: 3,
        },
    ),
    (
        b"expect 1\r\n",
        Case {
            design: TWO_LATCHES,
            stim: b"1\nb0\n00\n\n\n.\n",
            line: b"fault: expect 1 line line 1\n",
            status: 3,
        },
    ),
    (
        b"expect 1\n\nfail b0 \n",
        Case {
            design: TWO_LATCHES,
            stim: b"1\nb0\n00\n\n\n.\n",
            line: b"fault: expect 1 line line 3\n",
            status: 3,
        },
    ),
    (
        b"expect 1\nfail b2\nfail\n",
        Case {
            design: TWO_LATCHES,
            stim: b"1\nb0\n00\n\n\n.\n",
            line: b"fault: expect 2 unknown line 2\n",
            status: 3,
        },
    ),
    (
        b"expect 1\nhold b18446744073709551616\n",
        Case {
            design: TWO_LATCHES,
            stim: b"1\nb0\n00\n\n\n.\n",
            line: b"fault: expect 2 unknown line 2\n",
            status: 3,
        },
    ),
];
