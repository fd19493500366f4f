// What of a tree's evaluations tells whether two of them may conflict.
ghost use Rattle.std.specs.Prelude.{◌≡◌};
ghost use Rattle.c_typed.specs.Tree.{tree_of};
ghost use Rattle.quiet_trees.specs.Loads.{loads_of, is_load};
ghost use Rattle.quiet_trees.specs.Summaries.{nothing, meet, is_open, reads_by, writes_by, body_by, loose_by, own_clash, joined, topped, summary_of};

use c_typed::{Class, Node, Typed, class_of};

/// What is said of the evaluations of a part of a tree: whether there are some, whether some may access memory, whether some write,
/// whether some are bodies, whether some writes come before the part's value in no order, and whether two may conflict.
#[derive(Clone, Copy)]
pub struct Summary {
    pub some: bool,
    pub touches: bool,
    pub writes: bool,
    pub body: bool,
    pub loose: bool,
    pub clash: bool,
}

/// The summary of a tree.
pub fn summarize(root: &Typed) -> Summary
    ensures { result ≡ summary_of (tree_of root.now) (loads_of root.now) }
{
    let class = class_of(root);
    let load = is_load(root);
    let mut below = nothing();
    for t in root.children.as_slice() {
        below = joined(class, below, summarize(t));
    }
    topped(class, load, below)
}

fn is_load(root: &Typed) -> bool
    ensures { result ≡ is_load (loads_of root.now) }
{
    match &root.node {
        Node::Load(_) => true,
        Node::Obj(_) | Node::Const(_) | Node::Func(_) | Node::Str(_) | Node::Conv(_) => false,
        Node::Member { .. } | Node::Assign { .. } | Node::List { .. } | Node::Update { .. } =>
            false,
        Node::And | Node::Or | Node::Cond | Node::Comma | Node::Call { .. } => false,
        Node::Isolated(_) | Node::Un(_) | Node::Bin(..) | Node::PtrAdd { .. } => false,
        Node::PtrDiff { .. } | Node::Rel { .. } | Node::Eq(_) | Node::Part { .. } => false,
    }
}

fn nothing() -> Summary
    ensures { result ≡ nothing }
{
    Summary {
        some: false,
        touches: false,
        writes: false,
        body: false,
        loose: false,
        clash: false,
    }
}

// The operands of a node up to one of them, with that one.
fn joined(class: Class, a: Summary, b: Summary) -> Summary
    ensures { result ≡ joined class a b }
{
    Summary {
        some: a.some || b.some,
        touches: a.touches || b.touches,
        writes: a.writes || b.writes,
        body: a.body || b.body,
        loose: a.loose || b.loose,
        clash: a.clash || b.clash || (is_open(class) && meet(a, b)),
    }
}

// Whether an evaluation of the one may conflict with one of the other.
fn meet(a: Summary, b: Summary) -> bool
    ensures { result ≡ meet a b }
{
    (a.body && b.some) || (a.some && b.body) || (a.writes && b.touches) || (a.touches && b.writes)
}

// A node over its operands.
fn topped(class: Class, load: bool, a: Summary) -> Summary
    ensures { result ≡ topped class load a }
{
    Summary {
        some: a.some || !class.is_quiet(),
        touches: a.touches || reads_by(class, load) || writes_by(class),
        writes: a.writes || writes_by(class),
        body: a.body || body_by(class),
        loose: loose_by(class, a.loose),
        clash: a.clash || own_clash(class, load, a),
    }
}

// Whether no rule of the node sequences its operands.
fn is_open(class: Class) -> bool
    ensures { result ≡ is_open class }
{
    match class {
        Class::Choice | Class::Comma => false,
        _ => true,
    }
}

fn reads_by(class: Class, load: bool) -> bool
    ensures { result ≡ reads_by class load }
{
    match class {
        Class::Plain => load,
        Class::Update => true,
        _ => false,
    }
}

fn writes_by(class: Class) -> bool
    ensures { result ≡ writes_by class }
{
    match class {
        Class::Store | Class::Update => true,
        _ => false,
    }
}

fn body_by(class: Class) -> bool
    ensures { result ≡ body_by class }
{
    match class {
        Class::Call | Class::Isolated => true,
        _ => false,
    }
}

// Whether a write comes before the node's value in no order: its own, or one of its operands, of which a call comes after all.
fn loose_by(class: Class, below: bool) -> bool
    ensures { result ≡ loose_by class below }
{
    match class {
        Class::Store | Class::Update => true,
        Class::Call => false,
        _ => below,
    }
}

// Whether an evaluation of the node itself may conflict with one of its operands.
fn own_clash(class: Class, load: bool, a: Summary) -> bool
    ensures { result ≡ own_clash class load a }
{
    match class {
        Class::Object | Class::Constant | Class::Isolated => a.some,
        Class::Plain => load && a.loose,
        Class::Store | Class::Update => a.loose,
        Class::Choice | Class::Comma | Class::Call => false,
    }
}
