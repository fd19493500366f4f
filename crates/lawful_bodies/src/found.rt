// What the statements so far hold.
ghost use Rattle.std.specs.Prelude.{◌≡◌, ◌≢◌, ◌+◌, ◌<◌, ◌^◌, ◌++◌, ◌∷◌, [], false, true, length, map, IsTrue, OnOk};
ghost use Rattle.std.specs.List.{All, AllPairs};
ghost use Rattle.c_types.specs.Types.{type_of, qualified_of};
ghost use Rattle.c_typed.specs.Lawful.{IsSized};

use crate::distinct::are_distinct;
use crate::stop::{Stop, must};
use c_types::{Qual, Tags, Ty};
use std::alloc::Global;
use ub_base::Items;

/// What stands round a statement: whether a `break`, and whether a `continue` has something to leave.
#[derive(Clone, Copy, PartialEq, Eq)]
pub(crate) struct Inside {
    pub breaks: bool,
    pub continues: bool,
}

/// What the statements so far hold.
#[derive(Drop)]
pub(crate) struct Found {
    pub alloc: Global,
    /// The number of the next block.
    pub next: u32,
    pub labels: Items<u32>,
    pub jumps: Items<u32>,
    /// The values of the case labels of the innermost `switch`.
    pub cases: Items<i128>,
    pub has_default: bool,
}

/// The labels of a `switch` that another one interrupts.
#[derive(Drop)]
pub(crate) struct Labels {
    pub cases: Items<i128>,
    pub has_default: bool,
}

fn is_sized(tags: &Tags, ty: &Ty) -> bool
    ensures { IsTrue result → IsSized tags.now (type_of ty.now) }
{
    match tags.extent(ty) {
        Some(extent) => 0 < extent.size,
        None => false,
    }
}

fn is_sized_object(tags: &Tags, object: &Qual) -> bool
    ensures { IsTrue result → IsSized tags.now (qualified_of object.now).ty }
{
    is_sized(tags, &object.ty)
}

fn are_sized(tags: &Tags, objects: &[Qual]) -> bool
    ensures { IsTrue result → All (λ q. IsSized tags.now q.ty) (map qualified_of objects.now) }
{
    for object in objects {
        if !is_sized_object(tags, object) {
            return false;
        }
    }
    true
}

/// Begins a block.
pub(crate) fn begin_block(
    found: &mut Found,
    tags: &Tags,
    number: u32,
    objects: &[Qual],
) -> Result<(), Stop>
    ensures number { OnOk result (number ≡ found.old.next) }
    ensures found { OnOk result (found.new ≡ record found.old { next = found.old.next + 1 }) }
    ensures sized { OnOk result (All (λ q. IsSized tags.now q.ty) (map qualified_of objects.now)) }
    ensures few { OnOk result (length objects.now < 2 ^ 32) }
{
    must(number == found.next && number < u32::MAX)?;
    must(objects.len() < 0x1_0000_0000 && are_sized(tags, objects))?;
    found.next += 1;
    Ok(())
}

/// Sets the labels of the `switch` round another one aside.
pub(crate) fn begin_switch(found: &mut Found) -> Labels
    ensures outer { result ≡ record { cases = found.old.cases; has_default = found.old.has_default } }
    ensures inner { found.new ≡ record found.old { cases = []; has_default = false } }
{
    let cases = std::mem::replace(&mut found.cases, Items::new(found.alloc));
    let has_default = std::mem::replace(&mut found.has_default, false);
    Labels { cases, has_default }
}

/// Ends a `switch`, whose labels differ, and brings back those of the one round it.
pub(crate) fn end_switch(found: &mut Found, outer: Labels) -> Result<(), Stop>
    ensures distinct { OnOk result (AllPairs ◌≢◌ found.old.cases) }
    ensures outer { OnOk result (found.new ≡ record found.old { cases = outer.cases; has_default = outer.has_default }) }
{
    must(are_distinct(found.alloc, found.cases.as_slice())?)?;
    let Labels { cases, has_default } = outer;
    found.cases = cases;
    found.has_default = has_default;
    Ok(())
}

pub(crate) fn add_label(found: &mut Found, label: u32) -> Result<(), Stop>
    ensures { OnOk result (found.new ≡ record found.old { labels = found.old.labels ++ label ∷ [] }) }
{
    found.labels.push(label)?;
    Ok(())
}

pub(crate) fn add_jump(found: &mut Found, label: u32) -> Result<(), Stop>
    ensures { OnOk result (found.new ≡ record found.old { jumps = found.old.jumps ++ label ∷ [] }) }
{
    found.jumps.push(label)?;
    Ok(())
}

pub(crate) fn add_case(found: &mut Found, value: &i128) -> Result<(), Stop>
    ensures { OnOk result (found.new ≡ record found.old { cases = found.old.cases ++ value.now ∷ [] }) }
{
    found.cases.push(*value)?;
    Ok(())
}

pub(crate) fn add_default(found: &mut Found) -> Result<(), Stop>
    ensures first { OnOk result (found.old.has_default ≡ false) }
    ensures found { OnOk result (found.new ≡ record found.old { has_default = true }) }
{
    must(!found.has_default)?;
    found.has_default = true;
    Ok(())
}
