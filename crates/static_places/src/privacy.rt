// Objects whose address nothing takes.
ghost use Rattle.std.specs.Prelude.{◌≡◌, map};
ghost use Rattle.c_typed.specs.declared.tree.Slot.{Slot as SlotOf};
ghost use Rattle.static_places.specs.Private.{same_slot, names_target, holds_address, some_holds, takes, takes_node, option_takes, body_takes, start_takes};
ghost use Rattle.static_places.specs.Private.{block_takes, entry_takes, function_takes, static_holds, any_of, is_private, full_takes, defined_takes};

use c_typed::{
    Block, Body, Constant, Content, Entry, ForStart, Function, Node, Program, Slot, Static, Target,
    Typed,
};

/// Whether an object that the text names is private: each node that names it is the place of a load, an assignment or an
/// update, or it is that of a list; and no constant bytes hold its address (own). The object is one of the function, or has
/// static storage. It costs a walk over the function, and for an object with static storage over the program.
pub fn private(p: &Program, function: u32, slot: Slot) -> bool
    ensures { result ≡ is_private p.now function slot }
{
    match slot {
        Slot::Static(_) => !functions_take(slot, p.functions.as_slice())
            && !statics_hold(slot, p.statics.as_slice()),
        Slot::Auto { .. } => match p.functions.get(function as usize) {
            Some(function) => !function_takes(slot, function),
            None => true,
        },
    }
}

/// Whether both name one object.
pub fn same_slot(a: Slot, b: Slot) -> bool
    ensures { result ≡ same_slot a b }
{
    match (a, b) {
        (Slot::Static(m), Slot::Static(n)) => m == n,
        (
            Slot::Auto { block, decl },
            Slot::Auto {
                block: other,
                decl: number,
            },
        ) => block == other && decl == number,
        (Slot::Static(_), Slot::Auto { .. }) | (Slot::Auto { .. }, Slot::Static(_)) => false,
    }
}

fn names_target(slot: Slot, target: Target) -> bool
    ensures { result ≡ names_target slot target }
{
    match (slot, target) {
        (Slot::Static(m), Target::Static(n)) => m == n,
        _ => false,
    }
}

fn holds_address(slot: Slot, content: &Content) -> bool
    ensures { result ≡ holds_address slot content.now }
{
    match content {
        Content::Address { target, .. } => names_target(slot, *target),
        Content::Zeros(_) | Content::Bytes(_) => false,
    }
}

/// Whether some constant bytes hold the object's address.
fn some_holds(slot: Slot, constants: &[Constant]) -> bool
    ensures { result ≡ some_holds slot constants.now }
{
    for constant in constants {
        if holds_address(slot, &constant.content) {
            return true;
        }
    }
    false
}

fn statics_hold(slot: Slot, statics: &[Static]) -> bool
    ensures { result ≡ any_of (map (static_holds slot) statics.now) }
{
    for object in statics {
        if some_holds(slot, object.constants.as_slice()) {
            return true;
        }
    }
    false
}

/// Whether the first operand of the node is the place of an access.
fn accesses(node: &Node) -> bool
    ensures { (slot : SlotOf) → result ≡ (takes_node slot node.now).accesses }
{
    matches!(
        node,
        Node::Load(_) | Node::Assign { .. } | Node::Update { .. }
    )
}

/// Whether the tree takes the object's address, itself or somewhere in it.
#[cycle(takes)]
fn takes(slot: Slot, tree: &Typed, place: bool) -> bool
    ensures { result ≡ takes slot tree.now place }
{
    if node_takes(slot, &tree.node, place) {
        return true;
    }
    let mut first = accesses(&tree.node);
    for operand in tree.children.as_slice() {
        if takes(slot, operand, first) {
            return true;
        }
        first = false;
    }
    false
}

/// Whether the node takes the object's address by itself.
#[cycle(takes)]
fn node_takes(slot: Slot, node: &Node, place: bool) -> bool
    ensures { result ≡ (takes_node slot node.now).own place }
{
    match node {
        Node::Obj(named) => same_slot(*named, slot) && !place,
        Node::List { bytes, .. } => some_holds(slot, bytes.as_slice()),
        Node::Isolated(tree) => takes(slot, tree.get(), false),
        _ => false,
    }
}

fn option_takes(slot: Slot, tree: &Option<Typed>) -> bool
    ensures { result ≡ option_takes slot tree.now }
{
    match tree {
        Some(tree) => takes(slot, tree, false),
        None => false,
    }
}

#[cycle(body_takes)]
fn body_takes(slot: Slot, body: &Body) -> bool
    ensures { result ≡ body_takes slot body.now }
{
    match body {
        Body::Simple(tree) | Body::Return(tree) => option_takes(slot, tree),
        Body::Block(block) => block_takes(slot, block),
        Body::If(test, yes, None) => takes(slot, test, false) || body_takes(slot, yes.get()),
        Body::If(test, yes, Some(no)) => {
            takes(slot, test, false) || body_takes(slot, yes.get()) || body_takes(slot, no.get())
        }
        Body::Switch(test, inner) | Body::While(test, inner) => {
            takes(slot, test, false) || body_takes(slot, inner.get())
        }
        Body::Do(inner, test) => body_takes(slot, inner.get()) || takes(slot, test, false),
        Body::For {
            start,
            test,
            step,
            body,
        } => {
            start_takes(slot, start)
                || option_takes(slot, test)
                || option_takes(slot, step)
                || body_takes(slot, body.get())
        }
        Body::Goto(_) | Body::Continue | Body::Break => false,
        Body::Label(_, inner) | Body::Case(_, inner) | Body::Default(inner) => {
            body_takes(slot, inner.get())
        }
    }
}

#[cycle(body_takes)]
fn start_takes(slot: Slot, start: &ForStart) -> bool
    ensures { result ≡ start_takes slot start.now }
{
    match start {
        ForStart::Empty => false,
        ForStart::Value(tree) => takes(slot, tree, false),
        ForStart::Declared(block) => block_takes(slot, block),
    }
}

#[cycle(body_takes)]
fn block_takes(slot: Slot, block: &Block) -> bool
    ensures { result ≡ block_takes slot block.now }
{
    for entry in block.entries.as_slice() {
        if entry_takes(slot, entry) {
            return true;
        }
    }
    false
}

#[cycle(body_takes)]
fn entry_takes(slot: Slot, entry: &Entry) -> bool
    ensures { result ≡ entry_takes slot entry.now }
{
    match entry {
        Entry::Statement(body) => body_takes(slot, body),
        Entry::Initializer(tree) => takes(slot, tree, false),
        Entry::Declare(_) => false,
    }
}

fn function_takes(slot: Slot, function: &Function) -> bool
    ensures { result ≡ function_takes slot function.now }
{
    match &function.body {
        Some(body) => body_takes(slot, body),
        None => false,
    }
}

fn functions_take(slot: Slot, functions: &[Function]) -> bool
    ensures { result ≡ any_of (map (function_takes slot) functions.now) }
{
    for function in functions {
        if function_takes(slot, function) {
            return true;
        }
    }
    false
}
