// The terms of all full expressions, in the order of the text.

ghost use Rattle.std.specs.Prelude.{◌≡◌, map, IfOk};
ghost use Rattle.core_ir.specs.Term.{terms_of, terms_from};
ghost use Rattle.elaborate.specs.Terms.{term_for, capped_for};
ghost use Rattle.elaborate.specs.Formed.{EachCounts, EachFormed};
ghost use Rattle.core_ir.specs.Faithful.{AreFaithful};
ghost use Rattle.elaborate.specs.Expressions.{program_trees};
ghost use Rattle.elaborate.specs.Roots.{trees_at};

use crate::expression::term;
use crate::roots::roots_of;
use c_typed::{Program, Typed};
use core_ir::{CoreProgram, Cores};
use std::alloc::Global;
use ub_base::{Items, NoMemory};

/// The program with its terms. Where each full expression has fewer than 2 ^ 32 nodes, its term is that of its tree.
pub fn elaborate(alloc: Global, p: &Program) -> Result<CoreProgram, NoMemory>
    ensures program { IfOk result (λ c. c.program.now ≡ p.now) }
    ensures terms { EachCounts (program_trees p.now) → IfOk result (λ c. terms_of c.terms ≡ terms_from (map (term_for 0) (program_trees p.now))) }

    // Each term is faithful, where the nodes have the operands that their operators take.
    ensures faithful { EachCounts (program_trees p.now) → EachFormed (program_trees p.now) →
        IfOk result (λ c. AreFaithful (program_trees p.now) (terms_of c.terms)) }
{
    let terms = all(alloc, p)?;
    Ok(CoreProgram { program: p, terms })
}

// The terms of all full expressions.
fn all(alloc: Global, p: &Program) -> Result<Cores, NoMemory>
    ensures { IfOk result (λ cores. terms_of cores ≡ terms_from (map (capped_for 0) (program_trees p.now))) }
{
    let roots = roots_of(alloc, p)?;
    terms_at(alloc, roots.as_slice())
}

// The terms at these roots.
fn terms_at(alloc: Global, roots: &[&Typed]) -> Result<Cores, NoMemory>
    ensures { IfOk result (λ cores. terms_of cores ≡ terms_from (map (capped_for 0) (trees_at roots.now))) }
{
    let mut terms = Items::new(alloc);
    for root in roots {
        let whole = term(alloc, root, 0)?;
        terms.push(whole.core)?;
    }
    Ok(Cores { items: terms })
}
