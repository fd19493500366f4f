// Sequenced before, by going down to the operand that holds an event.
ghost use Rattle.std.specs.Prelude.{◌≡◌, suc, ◌+◌, ◌<◌, ◌^◌};
ghost use Rattle.c_typed.specs.Tree.{tree_of, operands, size, class_of as class_in};
ghost use Rattle.c_typed.specs.Decide.{is_before, rises, to_val};
ghost use Rattle.seq_order.specs.Marked.{taken_in};
ghost use Rattle.seq_order.specs.Relations.{relation_in};

use crate::Taken;
use crate::relations::Relation;
use crate::rules::{across, is_body, is_val, lifts, own_rule, value_leads};
use crate::spot::locate;
use c_typed::{Place, Typed, class_of};
use ub_base::Kind;

/// Whether u is sequenced before v. Both are due. It costs a walk over the nodes before them on each level.
pub fn before(root: &Typed, u: Place, v: Place, taken: &Taken) -> bool
    ensures { size (tree_of root.now) < 2 ^ 32 → result ≡ is_before (taken_in taken.now) 0 (tree_of root.now) u v }
{
    is_before(root, 0, u, v, taken)
}

/// How two different due events stand to one another.
pub fn relation(root: &Typed, u: Place, v: Place, taken: &Taken) -> Relation
    ensures { size (tree_of root.now) < 2 ^ 32 → result ≡ relation_in (taken_in taken.now) (tree_of root.now) u v }
{
    if before(root, u, v, taken) || before(root, v, u, taken) {
        Relation::Sequenced
    } else if is_body(u.kind) || is_body(v.kind) {
        Relation::Indeterminate
    } else {
        Relation::Unsequenced
    }
}

/// u comes before v in the tree whose root has the number k.
fn is_before(tree: &Typed, k: u32, u: Place, v: Place, taken: &Taken) -> bool
    ensures { k + size (tree_of tree.now) < 2 ^ 32 → result ≡ is_before (taken_in taken.now) k (tree_of tree.now) u v }
{
    if u.node == k {
        return v.node == k && own_rule(class_of(tree), u.kind, v.kind);
    }
    if v.node == k {
        return rises(tree, k, u, v.kind, taken);
    }
    let Some(a) = locate(tree, k, u.node) else {
        return false;
    };
    let Some(b) = locate(tree, k, v.node) else {
        return false;
    };
    if a.index == b.index {
        is_before(&tree.children.as_slice()[a.index], a.number, u, v, taken)
    } else {
        a.index < b.index && across(class_of(tree), taken.chosen(k), a.index, b.index)
    }
}

/// u in an operand comes before the event of this kind of the root.
#[cycle(value)]
fn rises(tree: &Typed, k: u32, u: Place, kind: Kind, taken: &Taken) -> bool
    ensures { k + size (tree_of tree.now) < 2 ^ 32 → result ≡ rises (taken_in taken.now) (class_in (tree_of tree.now)) (taken_in taken.now k) 0 (suc k)
        (operands (tree_of tree.now)) u kind }
{
    let Some(a) = locate(tree, k, u.node) else {
        return false;
    };
    let operand = &tree.children.as_slice()[a.index];
    let last = a.index + 1 == tree.children.len();
    lifts(class_of(tree), taken.chosen(k), a.index, last, kind)
        || value_leads(class_of(operand), kind) && to_value(operand, a.number, u, taken)
}

/// u is the value of the tree or comes before it.
#[cycle(value)]
fn to_value(tree: &Typed, k: u32, u: Place, taken: &Taken) -> bool
    ensures { k + size (tree_of tree.now) < 2 ^ 32 → result ≡ to_val (taken_in taken.now) k (tree_of tree.now) u }
{
    if u.node == k {
        is_val(u.kind) || own_rule(class_of(tree), u.kind, Kind::Val)
    } else {
        rises(tree, k, u, Kind::Val, taken)
    }
}
