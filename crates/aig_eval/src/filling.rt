//! One step of a design whose latches and inputs stand in a row with a bit for each variable, as a solver leaves them.

ghost use Rattle.std.specs.Prelude.{◌≡◌, ◌+◌, ◌<◌, length};
ghost use Rattle.ja_base.specs.Valuation.{IsValuation, input_row, latch_row};
ghost use Rattle.aig_model.specs.Netlist.{circuit};
ghost use Rattle.aig_eval.specs.Rows.{input_vars, latch_vars, IsClear, Puts};

use crate::step::put_gates;
use aig_model::Design;
use ja_base::Row;

fn copy_inputs(d: &Design, row: &Row, vals: &mut Row)
    requires row { d.now.vars < length row.now }
    requires vals { length vals.old ≡ d.now.vars + 1 }
    ensures { Puts (input_vars d.now) (input_row (circuit d.now) row.now) (length d.now.inputs)
        vals.old vals.new }
{
    for at in 0..d.inputs() {
        let var = d.input(at).var().number();
        vals.set(var, row.get(var));
    }
}

fn copy_latches(d: &Design, row: &Row, vals: &mut Row)
    requires row { d.now.vars < length row.now }
    requires vals { length vals.old ≡ d.now.vars + 1 }
    ensures { Puts (latch_vars d.now) (latch_row (circuit d.now) row.now) (length d.now.latches)
        vals.old vals.new }
{
    for at in 0..d.latches() {
        let var = d.latch(at).lit.var().number();
        vals.set(var, row.get(var));
    }
}

/// Writes the values of the step that starts from the latch bits of `row` under its input bits; its other bits do not matter.
/// Only what something defines is written, so no pass goes over all variables.
pub fn fill(d: &Design, row: &Row, vals: &mut Row)
    requires row { d.now.vars < length row.now }
    requires vals { IsClear (circuit d.now) vals.old }
    ensures step { IsValuation (circuit d.now) (latch_row (circuit d.now) row.now)
        (input_row (circuit d.now) row.now) vals.new }
    ensures clear { IsClear (circuit d.now) vals.new }
{
    copy_inputs(d, row, vals);
    copy_latches(d, row, vals);
    put_gates(d, vals);
}
