// The events of open full expressions.
ghost use Rattle.std.specs.Prelude.{◌≡◌, ◌-◌, ◌||◌, true, OnOk, slice_get, Some};
ghost use Rattle.evaluation_log.specs.Touched.{some_stands, touched};
ghost use Rattle.evaluation_log.specs.Kept.{is_harmless, AllHarmless, HasAll, HasMore, IsMore};
ghost use Rattle.ub_base.specs.declared.names.Item.{Item};
ghost use Rattle.footprint.specs.Holds.{holds, stands_for};

use footprint::Foot;
use ub_base::{Item, Kind, NoMemory};

/// An event: its node and kind, where its items stand among all, what the body that it started touched, and whether that
/// is large.
#[derive(Drop)]
pub struct Logged {
    pub node: u32,
    pub kind: Kind,
    pub from: usize,
    pub to: usize,
    pub foot: Option<Box<Foot>>,
    pub large: bool,
}

/// The events so far of a node and of all below it, which stand together: the first of them, and where its items, its
/// events that come after its value in no order, and its large bodies begin.
#[derive(Drop)]
pub struct Segment {
    pub node: u32,
    pub first: usize,
    pub items: usize,
    pub loose: usize,
    pub large: usize,
    /// Its items conflict with none of their own kind: reads, and uses of living objects.
    pub harmless: bool,
    /// The items and the small bodies of all its events, where they were gathered.
    pub foot: Option<Box<Foot>>,
    /// The items of those of its events that come after its value in no order, where they were gathered.
    pub loose_foot: Option<Box<Foot>>,
}

impl Segment {
    /// An event of the segment touched these items.
    pub fn add(&mut self, items: &[Item]) -> Result<(), NoMemory>
        ensures { OnOk result (IsMore self.old self.new items.now) }
    {
        self.harmless = self.harmless && are_harmless(items);
        add_to(&mut self.foot, items)
    }
}

// Adds the items to the set, if one is kept.
fn add_to(foot: &mut Option<Box<Foot>>, items: &[Item]) -> Result<(), NoMemory>
    ensures { OnOk result (HasMore foot.old foot.new items.now) }
{
    if let Some(foot) = foot {
        add_each(foot, items)?;
    }
    Ok(())
}

fn add_each(foot: &mut Foot, items: &[Item]) -> Result<(), NoMemory>
    ensures more { OnOk result ((j : Item) → holds foot.old j ≡ true → holds foot.new j ≡ true) }
    ensures all { OnOk result (HasAll items.now foot.new) }
{
    for p in 0..items.len() {
        add_one(foot, items, p)?;
    }
    Ok(())
}

fn add_one(foot: &mut Foot, items: &[Item], p: usize) -> Result<(), NoMemory>
    ensures more { OnOk result ((j : Item) → holds foot.old j ≡ true → holds foot.new j ≡ true) }
    ensures one { OnOk result
        ((x j : Item) → slice_get items.now p ≡ Some x → stands_for x j ≡ true → holds foot.new j ≡ true) }
{
    match items.get(p) {
        Some(item) => foot.add(*item),
        None => Ok(()),
    }
}

/// Whether each of the items is.
pub fn are_harmless(items: &[Item]) -> bool
    ensures { result ≡ true → AllHarmless items.now }
{
    for p in 0..items.len() {
        if !is_harmless_at(items, p) {
            return false;
        }
    }
    true
}

fn is_harmless_at(items: &[Item], p: usize) -> bool
    ensures { result ≡ true → (x : Item) → slice_get items.now p ≡ Some x → is_harmless x ≡ true }
{
    match items.get(p) {
        Some(item) => is_harmless(item),
        None => true,
    }
}

/// Whether the item conflicts with no read and with no other use of a living object.
pub fn is_harmless(item: &Item) -> bool
    ensures { result ≡ is_harmless item.now }
{
    match *item {
        Item::Read { .. } | Item::Alive(_) => true,
        _ => false,
    }
}

/// Adds the items of a list from one place up to another.
pub fn add_range(items: &[Item], from: usize, to: usize, foot: &mut Foot) -> Result<(), NoMemory>
    ensures { OnOk result ((i : Item) → holds foot.new i ≡ (holds foot.old i || touched items.now from (to - from) i)) }
{
    for at in from..to {
        add_at(items, at, foot)?;
    }
    Ok(())
}

// Adds an item of a list, if there is one at this place.
fn add_at(items: &[Item], at: usize, foot: &mut Foot) -> Result<(), NoMemory>
    ensures { OnOk result ((i : Item) → holds foot.new i ≡ (holds foot.old i || some_stands (slice_get items.now at) i)) }
{
    match items.get(at) {
        Some(item) => foot.add(*item),
        None => Ok(()),
    }
}
