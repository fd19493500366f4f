// What mends a program, with its names.

use c_typed::{Node, Typed};
use c_types::{IntKind, Ty};
use explain_case::{
    Act, Case, NamedObject, elements, is_write, mismatch_of, naming, origin_naming, pair_of,
    place_of, printing, put_tree, subject, token_at,
};
use explain_facts::parent_of;
use explain_page::{Page, put_excerpt, put_number, put_type};
use explain_places::declaration_of;
use explain_words::hint_of;
use ub_base::{Bytes, Clause, Kind, NoMemory};

fn put_words(out: &mut Bytes, words: &str) -> Result<(), NoMemory> {
    out.append(words.as_bytes())
}

fn put_general(out: &mut Bytes, clause: Clause) -> Result<(), NoMemory> {
    match hint_of(clause) {
        Some(words) => put_words(out, words),
        None => Ok(()),
    }
}

// Adds how two stores to one name are made one: `i++;` or `i = i + 1;`.
fn put_one_store(
    out: &mut Bytes,
    case: &Case<'_, '_>,
    first: &Act<'_>,
    second: &Act<'_>,
) -> Result<(), NoMemory> {
    let place = place_of(first.tree);
    put_words(out, "Write ")?;
    put_tree(out, case.page, place)?;
    put_words(out, " once in the expression: `")?;
    put_tree(out, case.page, second.tree)?;
    put_words(out, ";` or `")?;
    put_tree(out, case.page, place)?;
    put_words(out, " = ")?;
    put_tree(out, case.page, place)?;
    let sign = case.page.spelling(second.extent.operator);
    put_words(
        out,
        if sign == b"--".as_slice() {
            " - 1;`."
        } else {
            " + 1;`."
        },
    )
}

fn is_step(tree: &Typed) -> bool {
    matches!(&tree.node, Node::Update { old: true, .. })
}

// Whether both name the same object by the same one name.
fn is_same_name(first: &Act<'_>, second: &Act<'_>) -> bool {
    match (&place_of(first.tree).node, &place_of(second.tree).node) {
        (Node::Obj(one), Node::Obj(other)) => *one == *other,
        _ => false,
    }
}

fn put_pair(
    out: &mut Bytes,
    case: &Case<'_, '_>,
    first: &Act<'_>,
    second: &Act<'_>,
) -> Result<(), NoMemory> {
    if let (Node::Assign { .. }, true) = (&first.tree.node, is_step(second.tree)) {
        if is_write(second.item) && is_same_name(first, second) {
            return put_one_store(out, case, first, second);
        }
    }
    if first.event.kind == Kind::Body && !is_void(&first.tree.ty) {
        return put_first_call(out, case, first);
    }
    put_words(out, "Let one of the two be a statement of its own.")
}

fn is_void(ty: &Ty) -> bool {
    matches!(ty, Ty::Void)
}

fn put_first_call(out: &mut Bytes, case: &Case<'_, '_>, first: &Act<'_>) -> Result<(), NoMemory> {
    put_words(out, "Let one be a statement of its own: `")?;
    put_type(out, case.page, &first.tree.ty)?;
    put_words(out, " first = ")?;
    put_tree(out, case.page, first.tree)?;
    put_words(out, ";`.")
}

fn put_elements(out: &mut Bytes, case: &Case<'_, '_>) -> Result<(), NoMemory> {
    let Some(object) = subject(case) else {
        return Ok(());
    };
    let Some(named) = naming(case, object, case.trail) else {
        return Ok(());
    };
    let Some(count) = elements(case, object, named.ty) else {
        return Ok(());
    };
    put_words(out, "The elements of ")?;
    out.append(case.page.spelling(named.name))?;
    put_words(out, " are 0 to ")?;
    put_number(out, count.saturating_sub(1))?;
    put_words(out, ".")
}

fn is_simple(tree: &Typed) -> bool {
    match &tree.node {
        Node::Load(_) => match tree.children.get(0) {
            Some(place) => matches!(&place.node, Node::Obj(_)),
            None => false,
        },
        Node::Const(_) | Node::Call { .. } => true,
        _ => false,
    }
}

// Adds the text from one token to another one.
fn put_between(
    out: &mut Bytes,
    page: &Page<'_, '_>,
    first: u32,
    last: u32,
) -> Result<(), NoMemory> {
    put_excerpt(out, page.between(page.start(first), page.end(last)))
}

// Adds a cast to long before the left operand.
fn put_widened(out: &mut Bytes, case: &Case<'_, '_>, act: &Act<'_>) -> Result<(), NoMemory> {
    let (Node::Bin(_, IntKind::Int), Some(left), Some(right)) = (
        &act.tree.node,
        act.tree.children.get(0),
        act.tree.children.get(1),
    ) else {
        return put_words(out, "Widen an operand first, or test the operands before.");
    };
    if pair_of(case, act).is_none() || !is_simple(left) || !is_simple(right) {
        return put_words(out, "Widen an operand first, or test the operands before.");
    }
    let page = case.page;
    let extent = act.extent;
    put_words(out, "Widen an operand first: `(long)")?;
    put_between(out, page, extent.first, extent.operator.saturating_sub(1))?;
    put_words(out, " ")?;
    out.append(page.spelling(extent.operator))?;
    put_words(out, " ")?;
    put_between(out, page, extent.operator.saturating_add(1), extent.last)?;
    put_words(out, "`.")
}

// The name of the function whose call ended the object.
fn ending_call(case: &Case<'_, '_>) -> Option<u32> {
    let died = case.target.died?;
    token_at(case, died.opened, died.node)
}

// Adds what has to be read before a pointer's object ends.
fn put_read_before(out: &mut Bytes, case: &Case<'_, '_>, act: &Act<'_>) -> Result<(), NoMemory> {
    put_words(out, "Read what is still needed before ")?;
    match ending_call(case) {
        Some(token) => out.append(case.page.spelling(token))?,
        None => put_words(out, "the object ends")?,
    }
    if let Some(above) = parent_of(act.root, act.event.node)
        && let Node::Member { .. } = &above.node
    {
        put_words(out, ", here ")?;
        put_tree(out, case.page, above)?;
    }
    put_words(out, ".")
}

// Adds how the bytes of an element are copied.
fn put_copied(out: &mut Bytes, case: &Case<'_, '_>, act: &Act<'_>) -> Result<(), NoMemory> {
    let place = place_of(act.tree);
    let (
        Node::PtrAdd {
            subtract: false,
            ..
        },
        Some(pointer),
        Some(index),
    ) = (&place.node, place.children.get(0), place.children.get(1))
    else {
        return put_words(out, "Copy the bytes with memcpy.");
    };
    put_words(out, "Copy the bytes: `memcpy(&word, ")?;
    put_tree(out, case.page, pointer)?;
    put_words(out, " + ")?;
    put_tree(out, case.page, index)?;
    put_words(out, ", sizeof word);`.")
}

// Adds how an object is given a value where it is declared.
fn put_initialized(out: &mut Bytes, case: &Case<'_, '_>) -> Result<(), NoMemory> {
    match unset_object(case) {
        Some(named) => put_declaration(out, case, named),
        None => put_general(out, Clause::Indeterminate),
    }
}

// The object that was never given a value: the one that is read, or the one that was copied to it.
fn unset_object<'c>(case: &Case<'c, '_>) -> Option<NamedObject<'c>> {
    if case.trail.stored.is_some() {
        return origin_naming(case);
    }
    naming(case, subject(case)?, case.trail)
}

fn is_whole(ty: &Ty) -> bool {
    matches!(ty, Ty::Struct(_) | Ty::Union(_) | Ty::Int(_))
}

fn is_integer(ty: &Ty) -> bool {
    matches!(ty, Ty::Int(_))
}

fn put_declaration(
    out: &mut Bytes,
    case: &Case<'_, '_>,
    named: NamedObject<'_>,
) -> Result<(), NoMemory> {
    if !is_whole(named.ty) {
        return put_general(out, Clause::Indeterminate);
    }
    let name = named.name;
    put_words(
        out,
        if is_integer(named.ty) {
            "Give it a value first: `"
        } else {
            "Give every member a value first: `"
        },
    )?;
    put_type(out, case.page, named.ty)?;
    put_words(out, " ")?;
    out.append(case.page.spelling(name))?;
    match named.ty {
        Ty::Int(_) => put_words(out, " = 0;`")?,
        _ => put_words(out, " = {0};`")?,
    }
    if let Some(at) = declaration_of(case.page.tokens, name) {
        put_words(out, " at ")?;
        case.page.put_token_place(out, at)?;
    }
    put_words(out, ".")
}

// Adds which conversion prints what is given.
fn put_printing(out: &mut Bytes, case: &Case<'_, '_>) -> Result<(), NoMemory> {
    let Some(mismatch) = mismatch_of(case) else {
        return put_general(out, Clause::Conversion);
    };
    match printing(&mismatch.given.ty) {
        Some(words) => put_words(out, words),
        None => put_general(out, Clause::Conversion),
    }
}

fn put_single(
    out: &mut Bytes,
    case: &Case<'_, '_>,
    clause: Clause,
    act: &Act<'_>,
) -> Result<(), NoMemory> {
    match clause {
        Clause::OutOfBounds => put_elements(out, case),
        Clause::Exceptional => put_widened(out, case, act),
        Clause::DeadObject => put_read_before(out, case, act),
        Clause::EffectiveType => put_copied(out, case, act),
        Clause::Indeterminate => put_initialized(out, case),
        Clause::Conversion => put_printing(out, case),
        _ => put_general(out, clause),
    }
}

/// Adds what mends the program, where that doesn't hang on what is meant.
pub fn put_hint(out: &mut Bytes, case: &Case<'_, '_>) -> Result<(), NoMemory> {
    match (&case.first, &case.second, case.found.verdict.clause()) {
        (Some(first), Some(second), _) => put_pair(out, case, first, second),
        (Some(first), None, Some(clause)) => put_single(out, case, clause, first),
        _ => Ok(()),
    }
}
