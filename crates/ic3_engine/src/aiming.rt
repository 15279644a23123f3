//! The aim of a search.

ghost use Rattle.std.specs.Prelude.{◌≡◌, ◌<◌, ◌&&◌, ℕ, true, false, length, IfOk};
ghost use Rattle.ja_base.specs.Literals.{bit};
ghost use Rattle.ic3_general.specs.Aims.{IsAim};

use aig_model::Expect;
use ic3_general::Aim;
use ja_base::{Memory, Row};
use ja_project::Coded;
use std::alloc::Global;

fn is_respected(expect: &Expect, failed: &Row, prop: u32) -> bool
    requires expected { prop < length expect.now }
    requires wide { prop < length failed.now }
    ensures { result ≡ (bit failed.now prop && bit expect.now prop) }
{
    failed.get(prop) && expect.is_assumed(prop)
}

/// The bits of the assumed properties of which a failure was found.
fn respected(alloc: Global, coded: &Coded, failed: &Row) -> Result<Row, Memory>
    requires { length failed.now ≡ length coded.now.design.bads }
    ensures width { IfOk result (λ row. length row ≡ length coded.now.design.bads) }
    ensures bits { IfOk result (λ row. (q : ℕ) → q < length coded.now.design.bads
        → bit row q ≡ (bit failed.now q && bit coded.now.expected q)) }
{
    let expect = coded.task().expect();
    let mut bits = Vec::with_capacity(alloc, failed.len() as usize)?;
    for prop in 0..failed.len() {
        bits.push_reserved(is_respected(expect, failed, prop));
    }
    Ok(Row::from_bits(bits))
}

/// The property, where each assumed one is respected of which a failure was found.
pub(crate) fn aim_at(alloc: Global, coded: &Coded, prop: u32, failed: &Row) -> Result<Aim, Memory>
    requires within { prop < length coded.now.design.bads }
    requires width { length failed.now ≡ length coded.now.design.bads }
    ensures aim { IfOk result (IsAim coded.now) }
    ensures prop { IfOk result (λ aim. aim.prop ≡ prop) }
    ensures passed { IfOk result (λ aim. (q : ℕ) → bit coded.now.expected q ≡ true
        → bit aim.respect q ≡ false → bit failed.now q ≡ false) }
{
    let _task = coded.task();
    let respect = respected(alloc, coded, failed)?;
    Ok(Aim { prop, respect })
}
