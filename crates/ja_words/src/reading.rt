//! How words are read.

ghost use Rattle.std.specs.Prelude.{◌≡◌, ◌≤◌, true, false, map, option_map, string_bytes, Some, None, IfOk, IfSome};
ghost use Rattle.clap.specs.Words.{app_of, fault_of, first_of, found_of, is_simple, is_simple_and_free, matches_of, rows_of};
ghost use Rattle.ja_base.specs.Answers.{IfRefused};
ghost use Rattle.ja_words.specs.Commands.{confirm_app, demo_app, sign_app};
ghost use Rattle.ja_words.specs.Words.{command_of, confirm_names, demo_asked, demo_from, demo_of, is_on, is_taken, names_from, names_of, order_from, order_of, sign_order};
ghost use Rattle.ja_words.specs.Asked.{HasFewWorkers, IsAskedInRange, IsDemoInRange, asked, demo, names, order};

use crate::commands::{confirm_command, demo_command, sign_command};
use crate::numbers::{named_number, number_or};
use crate::words::{Demo, Names, Order, PLAIN_BUDGET, Usage, Words};
use clap::error::ErrorKind;
use clap::{ArgMatches, Command};
use ja_base::OrMemory;
use std::alloc::Global;

fn matches_of<'a>(
    command: Command<'a>,
    words: &'a [String],
) -> Result<ArgMatches<'a>, OrMemory<Usage>>
    requires simple { is_simple (app_of command) ≡ true }
    requires free { is_simple_and_free (app_of command) ≡ true }
    ensures taken { IfOk result (λ _. is_taken (app_of command.entry)
        (map string_bytes words.entry.now) ≡ true) }
    ensures matches { IfOk result (λ m. rows_of (found_of m)
        ≡ matches_of (app_of command.entry) (map string_bytes words.entry.now)) }
    ensures refused { IfRefused result (λ _. is_taken (app_of command.entry)
        (map string_bytes words.entry.now) ≡ false) }
{
    match command.try_get_matches_from(words) {
        Ok(matches) => Ok(matches),
        Err(error) => match error.kind() {
            ErrorKind::OutOfMemory => Err(OrMemory::Memory),
            _ => Err(OrMemory::Refused(Usage)),
        },
    }
}

/// The first text that was given for an argument.
fn text_of<'a>(matches: &ArgMatches<'a>, id: &str) -> Option<&'a str>
    ensures { option_map (λ text. text.now) result
        ≡ first_of id.now (rows_of (found_of matches.now)) }
{
    matches.get_str(id)
}

fn is_on(text: Option<&str>) -> bool
    ensures { result ≡ is_on (option_map (λ x. x.now) text.entry) }
{
    match text {
        Some(text) => text == "true",
        None => false,
    }
}

fn order_from<'a>(
    design: Option<&'a str>,
    expect: Option<&'a str>,
    workers: Option<u64>,
    budget: Option<u64>,
    fail_fast: bool,
    journal: bool,
) -> Option<Order<'a>>
    requires { IfSome workers (λ n. (1 ≤ n) × (n ≤ 8)) }
    ensures order { option_map order result ≡ order_from (option_map (λ x. x.now) design.entry)
        (option_map (λ x. x.now) expect.entry) workers budget fail_fast journal }
    ensures workers { IfSome result HasFewWorkers }
{
    match (design, workers, budget) {
        (Some(design), Some(workers), Some(budget)) => Some(Order {
            design,
            expect,
            workers: workers as u32,
            budget,
            fail_fast,
            journal,
        }),
        _ => None,
    }
}

fn order_of<'a>(matches: &ArgMatches<'a>) -> Option<Order<'a>>
    ensures order { option_map order result ≡ order_of (rows_of (found_of matches.now)) }
    ensures workers { IfSome result HasFewWorkers }
{
    let workers = number_or(text_of(matches, "workers"), 1, 8);
    let budget = number_or(text_of(matches, "budget"), PLAIN_BUDGET, PLAIN_BUDGET);
    let fail_fast = is_on(text_of(matches, "fail-fast"));
    let journal = is_on(text_of(matches, "journal"));
    let (design, expect) = (text_of(matches, "design"), text_of(matches, "expect"));
    order_from(design, expect, workers, budget, fail_fast, journal)
}

fn names_from<'a>(
    design: Option<&'a str>,
    stim: Option<&'a str>,
    expect: Option<&'a str>,
) -> Option<Names<'a>>
    ensures { option_map names result ≡ names_from (option_map (λ x. x.now) design.entry)
        (option_map (λ x. x.now) stim.entry) (option_map (λ x. x.now) expect.entry) }
{
    match (design, stim) {
        (Some(design), Some(stim)) => Some(Names {
            design,
            stim,
            expect,
        }),
        _ => None,
    }
}

fn names_of<'a>(matches: &ArgMatches<'a>) -> Option<Names<'a>>
    ensures { option_map names result ≡ names_of (rows_of (found_of matches.now)) }
{
    let (design, stim) = (text_of(matches, "design"), text_of(matches, "stim"));
    names_from(design, stim, text_of(matches, "expect"))
}

fn demo_from(n: Option<u64>, workers: Option<u64>) -> Option<Demo>
    requires n { IfSome n (λ n. (3 ≤ n) × (n ≤ 1000)) }
    requires workers { IfSome workers (λ n. (1 ≤ n) × (n ≤ 8)) }
    ensures demo { option_map demo result ≡ demo_from n workers }
    ensures range { IfSome result IsDemoInRange }
{
    match (n, workers) {
        (Some(n), Some(workers)) => Some(Demo {
            n: n as u32,
            workers: workers as u32,
        }),
        _ => None,
    }
}

fn demo_of<'a>(matches: &ArgMatches<'a>) -> Option<Demo>
    ensures demo { option_map demo result ≡ demo_of (rows_of (found_of matches.now)) }
    ensures range { IfSome result IsDemoInRange }
{
    let n = named_number(text_of(matches, "n"), 3, 1000);
    let workers = number_or(text_of(matches, "workers"), 1, 8);
    demo_from(n, workers)
}

fn read_sign<'a>(alloc: Global, words: &'a [String]) -> Result<Order<'a>, OrMemory<Usage>>
    ensures ok { IfOk result (λ o. sign_order (map string_bytes words.entry.now)
        ≡ Some (order o)) }
    ensures workers { IfOk result HasFewWorkers }
    ensures refused { IfRefused result (λ _. sign_order (map string_bytes words.entry.now)
        ≡ None) }
{
    let matches = matches_of(sign_command(alloc)?, words)?;
    match order_of(&matches) {
        Some(order) => Ok(order),
        None => Err(OrMemory::Refused(Usage)),
    }
}

fn read_confirm<'a>(alloc: Global, words: &'a [String]) -> Result<Names<'a>, OrMemory<Usage>>
    ensures ok { IfOk result (λ n. confirm_names (map string_bytes words.entry.now)
        ≡ Some (names n)) }
    ensures refused { IfRefused result (λ _. confirm_names (map string_bytes words.entry.now)
        ≡ None) }
{
    let matches = matches_of(confirm_command(alloc)?, words)?;
    match names_of(&matches) {
        Some(names) => Ok(names),
        None => Err(OrMemory::Refused(Usage)),
    }
}

fn read_demo<'a>(alloc: Global, words: &'a [String]) -> Result<Demo, OrMemory<Usage>>
    ensures ok { IfOk result (λ d. demo_asked (map string_bytes words.entry.now)
        ≡ Some (demo d)) }
    ensures range { IfOk result IsDemoInRange }
    ensures refused { IfRefused result (λ _. demo_asked (map string_bytes words.entry.now)
        ≡ None) }
{
    let matches = matches_of(demo_command(alloc)?, words)?;
    match demo_of(&matches) {
        Some(demo) => Ok(demo),
        None => Err(OrMemory::Refused(Usage)),
    }
}

/// What the words ask for, which are those of a command line without the program's name. They are refused exactly where they are
/// in no command's form.
pub fn read_words<'a>(alloc: Global, words: &'a [String]) -> Result<Words<'a>, OrMemory<Usage>>
    ensures ok { IfOk result (λ w. command_of (map string_bytes words.entry.now)
        ≡ Some (asked w)) }
    ensures range { IfOk result IsAskedInRange }
    ensures refused { IfRefused result (λ _. command_of (map string_bytes words.entry.now)
        ≡ None) }
{
    let [first, rest @ ..] = words else {
        return Err(OrMemory::Refused(Usage));
    };
    match first.as_str() {
        "sign" => Ok(Words::Sign(read_sign(alloc, rest)?)),
        "confirm" => Ok(Words::Confirm(read_confirm(alloc, rest)?)),
        "demo" => Ok(Words::Demo(read_demo(alloc, rest)?)),
        _ => Err(OrMemory::Refused(Usage)),
    }
}
