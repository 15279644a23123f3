//! The design written as its text.

ghost use Rattle.std.specs.Prelude.{◌≡◌, ◌++◌, ◌-◌, ◌≤◌, IfOk, OnOk, flat_map};
ghost use Rattle.demo_ring.specs.DemoText.{bads_text, demo_text, gates_text, header_text, later_latches_text, latches_text, neighbour_bads_text, neighbour_gates_text, numbers_line, spaced};

use ja_base::Memory;
use ja_text::Text;
use std::alloc::Global;

fn put_spaced(text: &mut Text, numbers: &[u32]) -> Result<(), Memory>
    ensures { OnOk result (text.new ≡ text.old ++ flat_map spaced numbers.now) }
{
    for number in numbers {
        text.push(b" ")?;
        text.number(u64::from(*number))?;
    }
    Ok(())
}

/// A line of numbers, one space between two.
fn put_line(text: &mut Text, numbers: &[u32]) -> Result<(), Memory>
    ensures { OnOk result (text.new ≡ text.old ++ numbers_line numbers.now) }
{
    if let [first, others @ ..] = numbers {
        text.number(u64::from(*first))?;
        put_spaced(text, others)?;
    }
    text.push(b"\n")
}

fn put_header(text: &mut Text, n: u32) -> Result<(), Memory>
    requires { n ≤ 1000 }
    ensures { OnOk result (text.new ≡ text.old ++ header_text n) }
{
    text.push(b"aag ")?;
    put_line(text, &[2 * n, 0, n, 0, n, n + 1])
}

fn put_later_latches(text: &mut Text, n: u32) -> Result<(), Memory>
    requires { n ≤ 1000 }
    ensures { OnOk result (text.new ≡ text.old ++ later_latches_text (n - 1)) }
{
    for i in 1..n {
        put_line(text, &[2 * (i + 1), 2 * i])?;
    }
    Ok(())
}

fn put_latches(text: &mut Text, n: u32) -> Result<(), Memory>
    requires { n ≤ 1000 }
    ensures { OnOk result (text.new ≡ text.old ++ latches_text n) }
{
    put_line(text, &[2, 2 * n, 1])?;
    put_later_latches(text, n)
}

fn put_neighbour_bads(text: &mut Text, n: u32) -> Result<(), Memory>
    requires { n ≤ 1000 }
    ensures { OnOk result (text.new ≡ text.old ++ neighbour_bads_text n n) }
{
    for i in 0..n {
        put_line(text, &[2 * (n + 1 + i)])?;
    }
    Ok(())
}

fn put_bads(text: &mut Text, n: u32) -> Result<(), Memory>
    requires { n ≤ 1000 }
    ensures { OnOk result (text.new ≡ text.old ++ bads_text n) }
{
    put_neighbour_bads(text, n)?;
    put_line(text, &[2 * n])
}

fn put_neighbour_gates(text: &mut Text, n: u32) -> Result<(), Memory>
    requires some { 3 ≤ n }
    requires most { n ≤ 1000 }
    ensures { OnOk result (text.new ≡ text.old ++ neighbour_gates_text n (n - 1)) }
{
    for i in 0..n - 1 {
        put_line(text, &[2 * (n + 1 + i), 2 * (i + 2), 2 * (i + 1)])?;
    }
    Ok(())
}

fn put_gates(text: &mut Text, n: u32) -> Result<(), Memory>
    requires some { 3 ≤ n }
    requires most { n ≤ 1000 }
    ensures { OnOk result (text.new ≡ text.old ++ gates_text n) }
{
    put_neighbour_gates(text, n)?;
    put_line(text, &[4 * n, 2 * n, 2])
}

/// The text of the design of n latches.
#[tactic(auto, unfolding(crate::specs::DemoText::demo_text))]
pub fn demo_text(alloc: Global, n: u32) -> Result<Text, Memory>
    requires some { 3 ≤ n }
    requires most { n ≤ 1000 }
    ensures { IfOk result (λ text. text ≡ demo_text n) }
{
    let mut text = Text::new(alloc);
    put_header(&mut text, n)?;
    put_latches(&mut text, n)?;
    put_bads(&mut text, n)?;
    put_gates(&mut text, n)?;
    Ok(text)
}
