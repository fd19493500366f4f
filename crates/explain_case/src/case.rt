// What is explained: a finding with the nodes of its events.

use addr_map::{AddrMap, Mode};
use c_typed::{Program, Typed};
use explain_facts::{Events, Found, Moment, Outcome, Sought, Trail, node_at, root_with};
use explain_page::Page;
use explain_places::{Extent, extent_of};
use ub_base::{Event, Item};

/// An evaluation of a finding: its event, the full expression and the node of it with the tokens of that, and what it touches.
#[derive(Clone, Copy)]
pub struct Act<'p> {
    pub event: Event,
    pub root: &'p Typed,
    pub tree: &'p Typed,
    pub extent: Extent,
    pub item: Option<Item>,
}

/// The words of the audit that is explained, behind the command's name.
#[derive(Clone, Copy)]
pub struct Words<'a> {
    pub file: &'a [u8],
    /// The name of the input.
    pub input: Option<&'a str>,
    pub steps: u64,
    pub mode: Mode,
    /// The program's own arguments.
    pub args: &'a [String],
}

/// A run with its finding, on a page.
#[derive(Clone, Copy)]
pub struct Case<'c, 'a> {
    pub words: Words<'a>,
    pub page: &'c Page<'c, 'a>,
    pub program: &'c Program,
    pub roots: &'c [&'c Typed],
    pub found: Found<'c>,
    /// Before the last pick.
    pub moment: &'c Moment,
    /// What was done to the object that is touched.
    pub trail: &'c Trail,
    /// What was done to the object that the pointer there points to.
    pub target: &'c Trail,
    /// What was done to the object whose value was copied last to the bytes that are touched.
    pub origin: &'c Trail,
    pub first: Option<Act<'c>>,
    pub second: Option<Act<'c>>,
    /// The call of the program that led into a header of the library, where the finding stands in one.
    pub call: Option<Act<'c>>,
    /// How the run ends where the calls are made in the order of the text, and in the other one.
    pub both: Option<(&'c Outcome, &'c Outcome)>,
}

// An event with its node.
fn act_of<'p>(
    page: &Page<'_, '_>,
    roots: &[&'p Typed],
    event: Event,
    line: u32,
    item: Option<Item>,
) -> Option<Act<'p>> {
    let root = root_with(roots, event.node, line)?;
    let tree = node_at(root, event.node)?;
    Some(Act {
        event,
        root,
        tree,
        extent: extent_of(page.tokens, tree),
        item,
    })
}

/// The first event of a finding.
pub fn first_act<'p>(
    page: &Page<'_, '_>,
    roots: &[&'p Typed],
    events: Option<Events>,
) -> Option<Act<'p>> {
    let events = events?;
    let item = match events.items {
        Some((item, _)) => Some(item),
        None => None,
    };
    act_of(page, roots, events.event, events.line, item)
}

/// The event that it is against.
pub fn second_act<'p>(
    page: &Page<'_, '_>,
    roots: &[&'p Typed],
    events: Option<Events>,
) -> Option<Act<'p>> {
    let events = events?;
    let (event, line) = events.against?;
    let item = match events.items {
        Some((_, item)) => Some(item),
        None => None,
    };
    act_of(page, roots, event, line, item)
}

fn range_of(item: Item) -> Option<Sought> {
    match item {
        Item::Read { object, from, len } | Item::Write { object, from, len } => Some(Sought {
            object,
            from,
            len,
        }),
        Item::Born(object) | Item::Dies(object) | Item::Alive(object) => Some(Sought {
            object,
            from: 0,
            len: 1,
        }),
        _ => None,
    }
}

/// The bytes that two events share, or those that one accesses as it breaks a clause.
pub fn sought_of(events: Option<Events>, moment: &Moment, map: &AddrMap) -> Option<Sought> {
    match events?.items {
        Some((item, _)) => range_of(item),
        None => accessed(moment, map),
    }
}

fn accessed(moment: &Moment, map: &AddrMap) -> Option<Sought> {
    let aim = moment.place?;
    let row = map.row(aim.object?)?;
    Some(Sought {
        object: row.name,
        from: aim.addr.saturating_sub(row.base),
        len: 1,
    })
}
