// What statements are made of: their expressions, and the jumps and labels in them (6.8).

use c_arith::convert;
use c_ast::Expr;
use c_typed::{Block, Body, Entry, Typed};
use c_types::{IntKind, Ty};
use std::collections::BTreeSet;
use type_conversions::{as_if_assigned, promoted, truth};
use type_expressions::expression::{constant, expression};
use type_operands::{discarded, value_of};
use type_reasons::Reason;
use type_scope::{OpenSwitch, Source, State, TypeFault, placed, placed_for};
use type_values::take_label;
use ub_base::Items;

/// A full expression whose value isn't used (6.8.3p2).
pub fn unused(source: &Source<'_>, state: &mut State, e: &Expr) -> Result<Typed, TypeFault> {
    let operand = expression(source, state, e)?;
    placed(
        source.line(e.at),
        discarded(state.alloc, &state.tags, operand),
    )
}

/// The same where there is one.
pub fn unused_part(
    source: &Source<'_>,
    state: &mut State,
    e: &Option<Expr>,
) -> Result<Option<Typed>, TypeFault> {
    match e {
        None => Ok(None),
        Some(e) => Ok(Some(unused(source, state, e)?)),
    }
}

/// A controlling expression of scalar type (6.8.4.1p1, 6.8.5p2).
pub fn condition(
    source: &Source<'_>,
    state: &mut State,
    e: &Expr,
    reason: Reason,
) -> Result<Typed, TypeFault> {
    let operand = expression(source, state, e)?;
    let made = truth(state.alloc, &state.tags, operand);
    placed_for(source.line(e.at), reason, made)
}

/// The controlling expression of a `switch`, promoted, with its kind (6.8.4.2p1, 6.8.4.2p5).
pub fn selector(
    source: &Source<'_>,
    state: &mut State,
    e: &Expr,
) -> Result<(Typed, IntKind), TypeFault> {
    let line = source.line(e.at);
    let operand = expression(source, state, e)?;
    let made = value_of(state.alloc, &state.tags, operand);
    let tree = placed_for(line, Reason::SwitchTest, made)?;
    placed_for(line, Reason::SwitchTest, promoted(state.alloc, tree))
}

/// What `return` gives: nothing in a function that returns `void`, otherwise a value of its type (6.8.6.4p1, 6.8.6.4p3).
pub fn returned(
    source: &Source<'_>,
    state: &mut State,
    at: u32,
    e: &Option<Expr>,
) -> Result<Body, TypeFault> {
    let void = matches!(state.task.result, Ty::Void);
    match e {
        None if void => Ok(Body::Return(None)),
        Some(e) if !void => {
            let operand = expression(source, state, e)?;
            let result_type = &state.task.result;
            let made = as_if_assigned(state.alloc, &state.tags, operand, result_type);
            let line = source.line(e.at);
            Ok(Body::Return(Some(placed_for(line, Reason::ReturnedValue, made)?)))
        }
        _ => Err(source.fault(at, Reason::ReturnForm)),
    }
}

/// `continue`, inside a loop (6.8.6.2p1).
pub fn to_continue(source: &Source<'_>, state: &State, at: u32) -> Result<Body, TypeFault> {
    if state.task.loops > 0 {
        Ok(Body::Continue)
    } else {
        Err(source.fault(at, Reason::ContinuePlace))
    }
}

/// `break`, inside a loop or a `switch` (6.8.6.3p1).
pub fn to_break(source: &Source<'_>, state: &State, at: u32) -> Result<Body, TypeFault> {
    if state.task.breakable > 0 {
        Ok(Body::Break)
    } else {
        Err(source.fault(at, Reason::BreakPlace))
    }
}

/// `goto`: the number of its label (6.8.6.1).
pub fn to_label(source: &Source<'_>, state: &mut State, at: u32) -> Result<Body, TypeFault> {
    let number = state.task.label(source.symbol(at), source.line(at))?;
    Ok(Body::Goto(number))
}

/// A label in front of a statement: its number (6.8.1p3).
pub fn define_label(source: &Source<'_>, state: &mut State, at: u32) -> Result<u32, TypeFault> {
    match state.task.define_label(source.symbol(at), source.line(at))? {
        Some(number) => Ok(number),
        None => Err(source.fault(at, Reason::LabelTwice)),
    }
}

/// The value of a case label in the promoted type of its `switch`, where no other label has it (6.8.4.2p3, 6.8.4.2p5).
pub fn case_value(
    source: &Source<'_>,
    state: &mut State,
    at: u32,
    e: &Expr,
) -> Result<i128, TypeFault> {
    let number = constant(source, state, e, Reason::CaseLabels)?;
    let Some(switch) = state.task.switches.last_mut() else {
        return Err(source.fault(at, Reason::LabelPlace));
    };
    let number = convert(switch.kind, number);
    if take_label(&mut switch.values, number)? {
        Ok(number)
    } else {
        Err(source.fault(at, Reason::CaseLabels))
    }
}

/// At most one `default` in a `switch` (6.8.4.2p3).
pub fn default_label(source: &Source<'_>, state: &mut State, at: u32) -> Result<(), TypeFault> {
    match state.task.switches.last_mut() {
        Some(switch) if !switch.has_default => {
            switch.has_default = true;
            Ok(())
        }
        Some(_) => Err(source.fault(at, Reason::CaseLabels)),
        None => Err(source.fault(at, Reason::LabelPlace)),
    }
}

/// Begins the body of a `switch`.
pub fn open_switch(state: &mut State, kind: IntKind) -> Result<(), TypeFault> {
    let values = BTreeSet::new(state.alloc);
    state.task.switches.push(OpenSwitch {
        kind,
        values,
        has_default: false,
    })?;
    state.task.breakable = state.task.breakable.saturating_add(1);
    Ok(())
}

/// Ends it.
pub fn close_switch(state: &mut State) {
    let _switch = state.task.switches.pop();
    state.task.breakable = state.task.breakable.saturating_sub(1);
}

/// Begins the body of a loop.
pub fn open_loop(state: &mut State) {
    state.task.loops = state.task.loops.saturating_add(1);
    state.task.breakable = state.task.breakable.saturating_add(1);
}

/// Ends it.
pub fn close_loop(state: &mut State) {
    state.task.loops = state.task.loops.saturating_sub(1);
    state.task.breakable = state.task.breakable.saturating_sub(1);
}

/// The innermost block, which ends, with these entries.
pub fn ended_block(state: &mut State, entries: Items<Entry>) -> Block {
    let (number, objects) = state.task.leave(state.alloc);
    Block {
        number,
        objects,
        entries,
    }
}
