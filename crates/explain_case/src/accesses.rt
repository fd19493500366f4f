// What an evaluation does to its object.

use crate::case::{Act, Case};
use crate::objects::subject;
use c_typed::{Node, Typed};
use explain_facts::tree_at;
use ub_base::Item;

/// Whether the item is a write.
pub fn is_write(item: Option<Item>) -> bool {
    matches!(item, Some(Item::Write { .. }))
}

/// Whether the access begins at the end of its object or behind it.
pub fn is_behind(case: &Case<'_, '_>, act: &Act<'_>) -> bool {
    match (&act.tree.node, case.moment.place, subject(case)) {
        (Node::Load(_) | Node::Assign { .. } | Node::Update { .. }, Some(aim), Some(object)) =>
            match case.found.map.row(object) {
                Some(row) => aim.addr >= row.base.saturating_add(row.size),
                None => false,
            },
        _ => false,
    }
}

/// The node that stored last to the bytes that are accessed.
pub fn last_store<'c>(case: &Case<'c, '_>) -> Option<&'c Typed> {
    let touch = case.trail.stored?;
    tree_at(case.roots, touch.opened.tree, touch.node)
}
