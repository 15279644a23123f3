//! Rows of the tests: designs, and the reports that `sign` gives of them. Each was worked out by hand.

use crate::rows::{ARBITER, BINARY_RING, FREE, NEVER, OUTPUTS, RING, TWO_LATCHES};

/// A design, expectations or none, and the whole text with its status.
pub(crate) struct Whole {
    pub(crate) design: &'static [u8],
    pub(crate) expect: Option<&'static [u8]>,
    pub(crate) text: &'static [u8],
    pub(crate) status: u8,
}

/// A design, expectations or none, and what the text begins and ends with; between them stand clauses and stimuli, which may
/// differ.
pub(crate) struct Ends {
    pub(crate) design: &'static [u8],
    pub(crate) expect: Option<&'static [u8]>,
    pub(crate) head: &'static [u8],
    pub(crate) tail: &'static [u8],
    pub(crate) status: u8,
}

/// A property that is always false, and so holds.
pub(crate) const HOLDS: &[u8] = b"aag 0 0 0 0 0 1\n0\n";

pub(crate) const HOLDS_TEXT: &[u8] =
    b"jasign 1\ndesign 0 0 0 0 1 0\nb0 hold proved\nclauses 0\njoined yes\nset\nend\n";

pub(crate) const WHOLE: [Whole; 9] = [
    Whole {
        design: b"aag 0 0 0 0 0 1\n1\n",
        expect: None,
        text: b"jasign 1\ndesign 0 0 0 0 1 0\nb0 hold fails\nclauses 0\nstimulus b0\n1\nb0\n\n\n.\njoined no\nset b0\nend\n",
        status: 1,
    },
    Whole {
        design: HOLDS,
        expect: None,
        text: HOLDS_TEXT,
        status: 0,
    },
    Whole {
        design: HOLDS,
        expect: Some(b"expect 1\nfail b0\n"),
        text: b"jasign 1\ndesign 0 0 0 0 1 0\nb0 fail proved\nclauses 0\njoined yes\nset\nend\n",
        status: 1,
    },
    Whole {
        design: b"aag 0 0 0 0 0\n",
        expect: None,
        text: b"jasign 1\ndesign 0 0 0 0 0 0\nclauses 0\njoined yes\nset\nend\n",
        status: 0,
    },
    Whole {
        design: b"aag 1 0 1 0 0 2\n2 3\n2\n2\n",
        expect: None,
        text: b"jasign 1\ndesign 1 0 1 0 2 0\nb0 hold fails\nb1 hold fails\nclauses 0\nstimulus b0\n1\nb0\n0\n\n\n.\nstimulus b1\n1\nb1\n0\n\n\n.\njoined no\nset b0 b1\nend\n",
        status: 1,
    },
    Whole {
        design: FREE,
        expect: None,
        text: b"jasign 1\ndesign 1 0 1 0 1 0\nb0 hold fails\nclauses 0\nstimulus b0\n1\nb0\n1\n\n.\njoined no\nset b0\nend\n",
        status: 1,
    },
    Whole {
        design: NEVER,
        expect: None,
        text: b"jasign 1\ndesign 1 1 0 0 1 1\nb0 hold proved\nclauses 0\njoined yes\nset\nend\n",
        status: 0,
    },
    Whole {
        design: b"aag 1 1 0 0 0 1 1\n2\n2\n3\n",
        expect: None,
        text: b"jasign 1\ndesign 1 1 0 0 1 1\nb0 hold proved\nclauses 0\njoined yes\nset\nend\n",
        status: 0,
    },
    Whole {
        design: OUTPUTS,
        expect: None,
        text: b"jasign 1\ndesign 1 0 1 0 2 0\nb0 hold proved\nb1 hold fails\nclauses 1\n3\nstimulus b1\n1\nb1\n0\n\n.\njoined no\nset b1\nend\n",
        status: 1,
    },
];

pub(crate) const ENDS: [Ends; 6] = [
    Ends {
        design: TWO_LATCHES,
        expect: None,
        head: b"jasign 1\ndesign 2 0 2 0 2 0\nb0 hold fails\nb1 hold proved\nclauses ",
        tail: b"\nstimulus b0\n1\nb0\n00\n\n\n.\njoined no\nset b0\nend\n",
        status: 1,
    },
    Ends {
        design: TWO_LATCHES,
        expect: Some(b"expect 1\nfail b0\n"),
        head: b"jasign 1\ndesign 2 0 2 0 2 0\nb0 fail fails\nb1 hold fails\nclauses ",
        tail: b"\nstimulus b1\n1\nb1\n00\n\n\n\n.\njoined no\nset b1\nend\n",
        status: 1,
    },
    Ends {
        design: TWO_LATCHES,
        expect: Some(b"expect 1\nfail b0\nfail b1\n"),
        head: b"jasign 1\ndesign 2 0 2 0 2 0\nb0 fail fails\nb1 fail fails\nclauses ",
        tail: b"\n.\njoined yes\nset\nend\n",
        status: 0,
    },
    Ends {
        design: RING,
        expect: None,
        head: b"jasign 1\ndesign 6 0 3 3 3 0\nb0 hold proved\nb1 hold proved\nb2 hold proved\nclauses ",
        tail: b"\njoined yes\nset\nend\n",
        status: 0,
    },
    Ends {
        design: BINARY_RING,
        expect: None,
        head: b"jasign 1\ndesign 6 0 3 3 3 0\nb0 hold proved\nb1 hold proved\nb2 hold proved\nclauses ",
        tail: b"\njoined yes\nset\nend\n",
        status: 0,
    },
    Ends {
        design: ARBITER,
        expect: Some(b"expect 1\n# second grant is reachable\nfail b1\n"),
        head: b"jasign 1\ndesign 6 2 2 2 2 0\nb0 hold proved\nb1 fail fails\nclauses ",
        tail: b"\n.\njoined yes\nset\nend\n",
        status: 0,
    },
];

/// Two latches, the second one step behind the first, which is 1 from step 1 on; both properties are expected to hold. Worker 1
/// fails the first one and ends the run; the calling thread, seat 0, gives up the other.
pub(crate) const STOPPED_TEXT: &[u8] = b"jasign 1\n\
    design 2 0 2 0 2 0\n\
    b0 hold fails\n\
    b1 hold unknown cancelled\n\
    clauses 0\n\
    stimulus b0\n1\nb0\n00\n\n\n.\n\
    joined no\n\
    set b0\n\
    journal 6\n\
    1 draw b0 at 0\n\
    1 settle b0 fails at 0\n\
    1 cancel b0 yes at 0\n\
    1 draw none at 0\n\
    0 cancel b0 no at 0\n\
    0 giveup b1 yes at 0\n\
    end\n";
