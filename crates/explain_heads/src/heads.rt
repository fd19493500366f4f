// The first line, and what stands behind carets.

use c_typed::{Access, Node, Typed};
use explain_case::{
    Act, Case, Pair, is_behind, is_write, last_store, mismatch_of, pair_of, place_of, put_a_type,
    put_accessed, put_integer, put_mismatch, put_subject, put_tokens, put_words_and, subject_name,
    token_at,
};
use explain_facts::{Touch, Verdict, is_within};
use explain_page::{Page, put_number, put_type};
use explain_places::{Extent, extent_of};
use explain_words::head_of;
use ub_base::{Bytes, Cause, Clause, Item, Kind, NoMemory};

fn is_read(item: Option<Item>) -> bool {
    matches!(item, Some(Item::Read { .. }))
}

fn is_load(tree: &Typed) -> bool {
    matches!(&tree.node, Node::Load(_))
}

// Whether the node stores.
fn stores(tree: &Typed) -> bool {
    matches!(&tree.node, Node::Assign { .. } | Node::Update { .. })
}

// The tokens beside the operator of a store.
fn target_extent(extent: Extent) -> Extent {
    if extent.operator == extent.first {
        return Extent {
            first: extent.first.saturating_add(1),
            ..extent
        };
    }
    Extent {
        operator: extent.first,
        last: extent.operator.saturating_sub(1),
        ..extent
    }
}

// The tokens of what an evaluation loads or stores.
fn place_extent(page: &Page<'_, '_>, act: &Act<'_>) -> Extent {
    match &act.tree.node {
        Node::Load(_) => act.extent,
        Node::Update { .. } => target_extent(act.extent),
        Node::Assign {
            initializing: false,
            ..
        } => target_extent(act.extent),
        _ => extent_of(page.tokens, place_of(act.tree)),
    }
}

// Adds what a race does to what.
fn put_race(
    out: &mut Bytes,
    case: &Case<'_, '_>,
    first: &Act<'_>,
    second: &Act<'_>,
) -> Result<(), NoMemory> {
    put_accessed(out, case, first)?;
    if is_write(first.item) && is_write(second.item) {
        out.append(b" is written twice, in no order")
    } else if is_write(first.item) {
        out.append(b" is written and read, in no order")
    } else {
        out.append(b" is read and written, in no order")
    }
}

fn is_body(act: &Act<'_>) -> bool {
    act.event.kind == Kind::Body
}

fn ends_program(act: &Act<'_>) -> bool {
    matches!(act.item, Some(Item::Ending))
}

fn put_fate(out: &mut Bytes, act: &Act<'_>) -> Result<(), NoMemory> {
    match &act.tree.node {
        Node::Load(_) => out.append(b" is read"),
        Node::Assign { .. } | Node::Update { .. } => out.append(b" is stored"),
        _ => out.append(b" is evaluated"),
    }
}

fn put_ending(
    out: &mut Bytes,
    case: &Case<'_, '_>,
    ends: &Act<'_>,
    other: &Act<'_>,
) -> Result<(), NoMemory> {
    put_tokens(out, case.page, &ends.extent)?;
    out.append(b" may end the program")?;
    if let Some(touch) = &case.trail.ending
        && let Some(token) = token_at(case, touch.opened, touch.node)
    {
        out.append(b", at ")?;
        case.page.put_token_place(out, token)?;
        out.push(b',')?;
    }
    put_words_and(out, b" before ", case.page, &other.extent)?;
    put_fate(out, other)
}

fn put_shared(out: &mut Bytes, case: &Case<'_, '_>, first: &Act<'_>) -> Result<(), NoMemory> {
    match first.item {
        Some(Item::Read { .. } | Item::Write { .. }) => {
            out.append(b" both use ")?;
            put_accessed(out, case, first)
        }
        Some(Item::Input) => out.append(b" both take input"),
        Some(Item::Output) => out.append(b" both put output"),
        _ => out.append(b" meet"),
    }
}

// Adds what depends on the order.
fn put_dependence(
    out: &mut Bytes,
    case: &Case<'_, '_>,
    first: &Act<'_>,
    second: &Act<'_>,
) -> Result<(), NoMemory> {
    if ends_program(first) {
        return put_ending(out, case, first, second);
    }
    if ends_program(second) {
        return put_ending(out, case, second, first);
    }
    put_tokens(out, case.page, &first.extent)?;
    put_words_and(out, b" and ", case.page, &second.extent)?;
    put_shared(out, case, first)?;
    out.append(b", in either order")
}

// Adds `A OP B isn't in TYPE` with the values of the operands.
fn put_out_of_range(
    out: &mut Bytes,
    case: &Case<'_, '_>,
    act: &Act<'_>,
    pair: &Pair<'_>,
) -> Result<(), NoMemory> {
    put_integer(out, pair.left)?;
    out.push(b' ')?;
    out.append(case.page.spelling(act.extent.operator))?;
    out.push(b' ')?;
    put_integer(out, pair.right)?;
    out.append(b" isn't in ")?;
    put_type(out, case.page, &act.tree.ty)
}

// Adds that an expression goes past an end of its object.
fn put_outside(out: &mut Bytes, case: &Case<'_, '_>, act: &Act<'_>) -> Result<(), NoMemory> {
    put_tokens(out, case.page, &place_extent(case.page, act))?;
    if stores(act.tree) {
        out.append(b" is written behind the end of ")?;
    } else {
        out.append(b" is read behind the end of ")?;
    }
    match subject_name(case) {
        Some(_) => put_subject(out, case),
        None => out.append(b"its object"),
    }
}

// Adds which type is read where another one was stored.
fn put_other_type(
    out: &mut Bytes,
    case: &Case<'_, '_>,
    act: &Act<'_>,
    stored: &Typed,
) -> Result<(), NoMemory> {
    put_tokens(out, case.page, &place_extent(case.page, act))?;
    out.append(b" reads ")?;
    put_a_type(out, case.page, &act.tree.ty)?;
    out.append(b" where ")?;
    put_a_type(out, case.page, &stored.ty)?;
    out.append(b" was stored")
}

// Adds the sentence of a clause that an event breaks.
fn put_broken(
    out: &mut Bytes,
    case: &Case<'_, '_>,
    clause: Clause,
    act: &Act<'_>,
) -> Result<(), NoMemory> {
    if let Some(mismatch) = mismatch_of(case) {
        return put_mismatch(out, case.page, &mismatch);
    }
    match (clause, &act.tree.node) {
        (Clause::Exceptional | Clause::Unrepresentable, Node::Bin(_, _)) => {
            if let Some(pair) = pair_of(case, act) {
                return put_out_of_range(out, case, act, &pair);
            }
        }
        (Clause::OutOfBounds, _) if is_behind(case, act) => return put_outside(out, case, act),
        (Clause::EffectiveType, Node::Load(_)) => {
            if let Some(stored) = last_store(case) {
                return put_other_type(out, case, act, stored);
            }
        }
        _ => {}
    }
    put_sentence(out, case, clause, act)
}

// Adds the sentence of the table.
fn put_sentence(
    out: &mut Bytes,
    case: &Case<'_, '_>,
    clause: Clause,
    act: &Act<'_>,
) -> Result<(), NoMemory> {
    let head = head_of(clause, stores(act.tree));
    out.append(head.before.as_bytes())?;
    put_tokens(out, case.page, &act.extent)?;
    out.append(head.behind.as_bytes())?;
    if head.is_typed {
        put_type(out, case.page, &act.tree.ty)?;
    }
    Ok(())
}

// Adds the call of the program that led into the library.
fn put_library_call(out: &mut Bytes, case: &Case<'_, '_>) -> Result<(), NoMemory> {
    match &case.call {
        Some(call) => {
            out.append(b"in ")?;
            put_tokens(out, case.page, &call.extent)?;
            out.append(b", ")
        }
        None => Ok(()),
    }
}

fn put_undefined(out: &mut Bytes, case: &Case<'_, '_>, clause: Clause) -> Result<(), NoMemory> {
    put_library_call(out, case)?;
    match (case.first, case.second) {
        (Some(first), Some(second)) => put_race(out, case, &first, &second),
        (Some(first), None) => put_broken(out, case, clause, &first),
        _ => out.append(b"an evaluation is undefined"),
    }
}

fn put_dependent(out: &mut Bytes, case: &Case<'_, '_>) -> Result<(), NoMemory> {
    put_library_call(out, case)?;
    match (case.first, case.second) {
        (Some(first), Some(second)) => put_dependence(out, case, &first, &second),
        _ => out.append(b"two evaluations depend on their order"),
    }
}

/// Adds the sentence of the first line.
pub fn put_head(out: &mut Bytes, case: &Case<'_, '_>) -> Result<(), NoMemory> {
    match case.found.verdict {
        Verdict::Undefined(clause) => put_undefined(out, case, clause),
        Verdict::OrderDependent => put_dependent(out, case),
        Verdict::Clean { status } => put_clean(out, status, case.found.output.len()),
        Verdict::OutOfSteps(picks) => put_out_of_steps(out, picks),
        Verdict::Outside { cause, number } => put_limit(out, cause, number),
    }
}

fn put_clean(out: &mut Bytes, status: u8, bytes: usize) -> Result<(), NoMemory> {
    out.append(b"every evaluation order that C11 permits ends with status ")?;
    put_number(out, u64::from(status))?;
    out.append(b" and these ")?;
    put_number(out, bytes as u64)?;
    out.append(b" bytes of output")
}

fn put_out_of_steps(out: &mut Bytes, picks: u64) -> Result<(), NoMemory> {
    out.append(b"nothing found in ")?;
    put_number(out, picks)?;
    out.append(b" steps, and the run goes on (`--steps N` goes to 100000000)")
}

fn limit_words(cause: Cause) -> &'static str {
    match cause {
        Cause::Output => "the bytes written would be ",
        Cause::Created => "the bytes of the objects created would be ",
        Cause::Depth => "the next call would be open call ",
        Cause::Conversion => "the bytes of one conversion would be ",
        Cause::Directive => "a directive that this tool leaves out stands in a format, at byte ",
    }
}

fn put_limit(out: &mut Bytes, cause: Cause, number: u64) -> Result<(), NoMemory> {
    out.append(limit_words(cause).as_bytes())?;
    put_number(out, number)
}

// Adds which store it is.
fn put_store(out: &mut Bytes, page: &Page<'_, '_>, act: &Act<'_>) -> Result<(), NoMemory> {
    match &act.tree.node {
        Node::Assign { .. } | Node::Update { .. } => {
            out.append(b": the store of ")?;
            out.append(page.spelling(act.extent.operator))
        }
        _ => Ok(()),
    }
}

// Adds what the event of a pair does.
fn put_access(out: &mut Bytes, case: &Case<'_, '_>, act: &Act<'_>) -> Result<(), NoMemory> {
    if is_body(act) {
        return put_call(out, case, act);
    }
    if is_write(act.item) {
        out.append(b"writes ")?;
        put_accessed(out, case, act)?;
        return put_store(out, case.page, act);
    }
    if is_read(act.item) || is_load(act.tree) {
        out.append(b"reads ")?;
        return put_accessed(out, case, act);
    }
    put_type(out, case.page, &act.tree.ty)
}

// The first access in the body of a call to the bytes that two events share.
fn touch_in(case: &Case<'_, '_>, act: &Act<'_>) -> Option<Touch> {
    for touch in case.trail.touches.as_slice() {
        if touch.writes == is_write(act.item) && is_within(case.found.frames, touch, &act.event) {
            return Some(*touch);
        }
    }
    None
}

// Adds what the call does to the object that two events share.
fn put_shared_access(out: &mut Bytes, case: &Case<'_, '_>, act: &Act<'_>) -> Result<(), NoMemory> {
    out.append(if is_write(act.item) {
        b"writes "
    } else {
        b"reads "
    })?;
    put_subject(out, case)?;
    if let Some(touch) = touch_in(case, act)
        && let Some(token) = token_at(case, touch.opened, touch.node)
    {
        out.append(b" at ")?;
        case.page.put_token_place(out, token)?;
    }
    Ok(())
}

fn put_call(out: &mut Bytes, case: &Case<'_, '_>, act: &Act<'_>) -> Result<(), NoMemory> {
    match act.item {
        Some(Item::Read { .. } | Item::Write { .. }) => put_shared_access(out, case, act),
        Some(Item::Input) => out.append(b"the call takes input"),
        Some(Item::Output) => out.append(b"the call puts output"),
        Some(Item::Ending) => out.append(b"the call ends the program"),
        _ => out.append(b"the call"),
    }
}

// Adds the types of the operands round the operator.
fn put_operand_types(out: &mut Bytes, page: &Page<'_, '_>, act: &Act<'_>) -> Result<(), NoMemory> {
    match (act.tree.children.get(0), act.tree.children.get(1)) {
        (Some(left), Some(right)) => {
            put_type(out, page, &left.ty)?;
            out.push(b' ')?;
            out.append(page.spelling(act.extent.operator))?;
            out.push(b' ')?;
            put_type(out, page, &right.ty)
        }
        _ => put_type(out, page, &act.tree.ty),
    }
}

// Adds what a node that broke a clause by itself does.
fn put_single(out: &mut Bytes, page: &Page<'_, '_>, act: &Act<'_>) -> Result<(), NoMemory> {
    match &act.tree.node {
        Node::Load(Access::Pointer | Access::Function) => {
            put_words_and(out, b"reads ", page, &place_extent(page, act))
        }
        Node::Load(_) | Node::Part { .. } => {
            out.append(b"reads ")?;
            put_a_type(out, page, &act.tree.ty)
        }
        Node::Assign { .. } | Node::Update { .. } => {
            put_words_and(out, b"writes ", page, &place_extent(page, act))
        }
        Node::Call { .. } => out.append(b"the call"),
        Node::Bin(_, _) => put_operand_types(out, page, act),
        _ => put_type(out, page, &act.tree.ty),
    }
}

/// Adds what stands behind the carets of an event.
pub fn put_does(out: &mut Bytes, case: &Case<'_, '_>, act: &Act<'_>) -> Result<(), NoMemory> {
    if case.call.is_some() {
        return out.append(b"the call");
    }
    if case.second.is_some() {
        put_access(out, case, act)
    } else {
        put_single(out, case.page, act)
    }
}
