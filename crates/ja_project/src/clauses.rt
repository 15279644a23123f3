//! The clauses of a design.

ghost use Rattle.std.specs.Prelude.{◌≡◌, ◌^◌, ◌<◌, [], ◌∷◌, ◌++◌, true, if◌then◌else◌, IfOk, OnOk, flat_map, length, map};
ghost use Rattle.std.specs.List.{range_with_len};
ghost use Rattle.ja_base.specs.Literals.{bit, literal_of};
ghost use Rattle.ja_project.specs.CodedClauses.{clause_of, coded_clauses, gate_clauses, undefined_clauses};

use crate::defined::defined_vars;
use aig_model::{AndGate, Design};
use ja_base::{Clause, ClauseList, Lit, Memory, Row, Var};
use std::alloc::Global;

fn add_clause(alloc: Global, clauses: &mut ClauseList, lits: &[Lit]) -> Result<(), Memory>
    ensures { OnOk result (clauses.new ≡ clauses.old ++ clause_of lits.now ∷ []) }
{
    let clause = Clause::from_lits(alloc, lits)?;
    clauses.push(clause)?;
    Ok(())
}

fn add_gate(alloc: Global, clauses: &mut ClauseList, gate: AndGate) -> Result<(), Memory>
    ensures { OnOk result (clauses.new ≡ clauses.old ++ gate_clauses gate) }
{
    let AndGate { lhs, rhs0, rhs1 } = gate;
    add_clause(alloc, clauses, &[lhs.not(), rhs0])?;
    add_clause(alloc, clauses, &[lhs.not(), rhs1])?;
    add_clause(alloc, clauses, &[lhs, rhs0.not(), rhs1.not()])?;
    Ok(())
}

fn add_gates(alloc: Global, clauses: &mut ClauseList, design: &Design) -> Result<(), Memory>
    ensures { OnOk result (clauses.new ≡ clauses.old ++ flat_map gate_clauses design.now.gates) }
{
    for at in 0..design.gates() {
        add_gate(alloc, clauses, design.gate(at))?;
    }
    Ok(())
}

fn add_undefined(
    alloc: Global,
    clauses: &mut ClauseList,
    defined: &Row,
    var: u32,
) -> Result<(), Memory>
    requires within { var < length defined.now }
    requires small { var < 2 ^ 31 }
    ensures { OnOk result (clauses.new ≡ clauses.old
        ++ (if bit defined.now var then [] else (literal_of var true ∷ []) ∷ [])) }
{
    if !defined.get(var) {
        add_clause(alloc, clauses, &[Lit::new(Var(var), true)])?;
    }
    Ok(())
}

fn add_all_undefined(alloc: Global, clauses: &mut ClauseList, design: &Design) -> Result<(), Memory>
    ensures { OnOk result (clauses.new ≡ clauses.old
        ++ flat_map (undefined_clauses design.now) (range_with_len 1 design.now.vars)) }
{
    let defined = defined_vars(alloc, design)?;
    for var in 1..design.vars() + 1 {
        add_undefined(alloc, clauses, &defined, var)?;
    }
    Ok(())
}

fn add_constraints(alloc: Global, clauses: &mut ClauseList, design: &Design) -> Result<(), Memory>
    ensures { OnOk result (clauses.new ≡ clauses.old ++ map (λ l. l ∷ []) design.now.constraints) }
{
    for at in 0..design.constraints() {
        add_clause(alloc, clauses, &[design.constraint(at)])?;
    }
    Ok(())
}

/// The clauses of the constant, the gates, the variables that nothing defines, and the constraints.
pub fn coded_clauses(alloc: Global, design: &Design) -> Result<ClauseList, Memory>
    ensures { IfOk result (λ clauses. clauses ≡ coded_clauses design.now) }
{
    let mut clauses = ClauseList::new(alloc);
    add_clause(alloc, &mut clauses, &[Lit(1)])?;
    add_gates(alloc, &mut clauses, design)?;
    add_all_undefined(alloc, &mut clauses, design)?;
    add_constraints(alloc, &mut clauses, design)?;
    Ok(clauses)
}
