use crate::{Names, Order, PLAIN_BUDGET, Words, read_words};
use ja_base::OrMemory;
use std::alloc::{AllocError, Global};
use std::test::Fail;

/// `sign d` without options.
const PLAIN: Order = Order {
    design: "d",
    expect: None,
    workers: 1,
    budget: PLAIN_BUDGET,
    fail_fast: false,
    journal: false,
};

/// With the expectations `e` and all options.
const FULL: Order = Order {
    design: "d",
    expect: Some("e"),
    workers: 4,
    budget: 9,
    fail_fast: true,
    journal: true,
};

/// Words in form, and what `sign` is asked for.
const SIGNS: [(&[&str], Order); 15] = [
    (&["sign", "d"], PLAIN),
    (
        &["sign", "d", "e"],
        Order {
            expect: Some("e"),
            ..PLAIN
        },
    ),
    (
        &[
            "sign",
            "d",
            "e",
            "--workers",
            "4",
            "--budget",
            "9",
            "--fail-fast",
            "--journal",
        ],
        FULL,
    ),
    (
        &[
            "sign",
            "--journal",
            "--fail-fast",
            "--budget",
            "9",
            "--workers",
            "4",
            "d",
            "e",
        ],
        FULL,
    ),
    (
        &[
            "sign",
            "d",
            "--budget=9",
            "--journal",
            "e",
            "--workers=4",
            "--fail-fast",
        ],
        FULL,
    ),
    (
        &["sign", "d", "--workers", "008"],
        Order {
            workers: 8,
            ..PLAIN
        },
    ),
    (
        &["sign", "d", "--workers", "1"],
        Order {
            workers: 1,
            ..PLAIN
        },
    ),
    (
        &["sign", "d", "--budget", "1"],
        Order { budget: 1, ..PLAIN },
    ),
    (
        &["sign", "d", "--budget", "1000000000000"],
        Order {
            budget: 1_000_000_000_000,
            ..PLAIN
        },
    ),
    (
        &["sign", "d", "--budget", "0000000000000000000000000000007"],
        Order { budget: 7, ..PLAIN },
    ),
    (
        &["sign", "--journal", "d"],
        Order {
            journal: true,
            ..PLAIN
        },
    ),
    (
        &["sign", "d", "--fail-fast"],
        Order {
            fail_fast: true,
            ..PLAIN
        },
    ),
    (
        &["sign", "--", "--journal"],
        Order {
            design: "--journal",
            ..PLAIN
        },
    ),
    (
        &["sign", "-"],
        Order {
            design: "-",
            ..PLAIN
        },
    ),
    (
        &["sign", ""],
        Order {
            design: "",
            ..PLAIN
        },
    ),
];

/// Words that are in no form.
const USAGE: [&[&str]; 36] = [
    &[],
    &[""],
    &["sign"],
    &["prove", "d"],
    &["Sign", "d"],
    &["sign ", "d"],
    &["d", "sign"],
    &["sign", "d", "e", "f"],
    &["sign", "d", "--workers"],
    &["sign", "d", "--workers", "0"],
    &["sign", "d", "--workers", "9"],
    &["sign", "d", "--workers", "18446744073709551617"],
    &["sign", "d", "--workers", "4294967297"],
    &["sign", "d", "--workers", "-1"],
    &["sign", "d", "--workers", "+1"],
    &["sign", "d", "--workers", "1 "],
    &["sign", "d", "--workers", "one"],
    &["sign", "d", "--workers", ""],
    &["sign", "d", "--workers="],
    &["sign", "d", "--workers", "2", "--workers", "2"],
    &["sign", "d", "--budget", "0"],
    &["sign", "d", "--budget", "1000000000001"],
    &["sign", "d", "--budget", "none"],
    &["sign", "d", "--budget", "1e3"],
    &["sign", "d", "--budget=9", "--budget=9"],
    &["sign", "d", "--fail-fast", "--fail-fast"],
    &["sign", "d", "--journal", "--journal"],
    &["sign", "d", "--fail-fast=true"],
    &["sign", "d", "--journa"],
    &["sign", "d", "-j"],
    &["sign", "d", "--floor", "1"],
    &["sign", "--help"],
    &["sign", "d", "-h"],
    &["sign", "--version"],
    &["confirm", "d"],
    &["confirm", "d", "s", "e", "x"],
];

pub(crate) fn words_of(alloc: Global, words: &[&str]) -> Result<Vec<String>, AllocError> {
    let mut all = Vec::new(alloc);
    for word in words {
        all.push(String::from_str(alloc, word)?)?;
    }
    Ok(all)
}

#[test]
fn signs(rt: HostRuntime) -> Result<(), Fail> {
    let alloc = rt.alloc();
    for (words, order) in &SIGNS {
        let words = words_of(alloc, words)?;
        let read = read_words(alloc, words.as_slice()).map_err(|_| "usage")?;
        assert_eq!(rt; read, Words::Sign(*order));
    }
    Ok(())
}

#[test]
fn confirms(rt: HostRuntime) -> Result<(), Fail> {
    let alloc = rt.alloc();
    let rows: [(&[&str], Option<&str>); 2] = [
        (&["confirm", "d", "s"], None),
        (&["confirm", "d", "s", "e"], Some("e")),
    ];
    for (words, expect) in rows {
        let words = words_of(alloc, words)?;
        let read = read_words(alloc, words.as_slice()).map_err(|_| "usage")?;
        let (design, stim) = ("d", "s");
        let names = Names {
            design,
            stim,
            expect,
        };
        assert_eq!(rt; read, Words::Confirm(names));
    }
    Ok(())
}

#[test]
fn other_words_are_usage(rt: HostRuntime) -> Result<(), Fail> {
    let alloc = rt.alloc();
    for (number, words) in USAGE.into_iter().enumerate() {
        let words = words_of(alloc, words)?;
        let refused = matches!(
            read_words(alloc, words.as_slice()),
            Err(OrMemory::Refused(_))
        );
        assert!(rt; refused, "{number}");
    }
    Ok(())
}
