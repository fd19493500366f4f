// The way to a node of a full expression.
ghost use Rattle.std.specs.Prelude.{◌≡◌, ◌<◌, ◌+◌, ◌^◌, ◌++◌, ◌∷◌, ◌-◌, [], suc, min, IfOk, OnOk};
ghost use Rattle.std.specs.Option.{option_or};
ghost use Rattle.c_typed.specs.Tree.{tree_of, operands, size};
ghost use Rattle.evaluation_log.specs.Sides.{opened, own_lefts, own_rights, lefts_in, rights_in, first_loud, free_by, left_spot, right_spot};
ghost use Rattle.evaluation_log.specs.Ways.{above_in};

use crate::rules::Rules;
use crate::trees::{first_before, first_behind, locate};
use c_typed::Typed;
use std::alloc::Global;
use ub_base::NoMemory;

/// The way from the root of a full expression to a node: the nodes above it, from the root on, and of the operands beside the way that no
/// rule sequences with the one on it, those whose value is the first before the node, and the first behind it.
#[derive(Drop)]
pub struct Way {
    pub above: Vec<u32>,
    pub before: Option<u32>,
    pub behind: Option<u32>,
}

impl Way {
    // The way goes on below this node.
    fn pass(
        &mut self,
        tree: &Typed,
        number: u32,
        target: u32,
        rules: &Rules,
    ) -> Result<(), NoMemory>
        requires { number < target }
        ensures above { OnOk result (self.new.above.items ≡ self.old.above.items ++ (number ∷ [])) }
        ensures before { number + size (tree_of tree.now) < 2 ^ 32 → OnOk result (self.new.before ≡ option_or self.old.before
            (first_loud (opened (free_by rules.now number) (own_lefts (suc number) (operands (tree_of tree.now)) target)))) }
        ensures behind { number + size (tree_of tree.now) < 2 ^ 32 → OnOk result (self.new.behind ≡ option_or
            (first_loud (opened (free_by rules.now number) (own_rights (suc number) (operands (tree_of tree.now)) target))) self.old.behind) }
    {
        self.above.push(number)?;
        if rules.get(number).is_unsequenced() {
            self.meet(tree, number, target);
        }
        Ok(())
    }

    // The operands of this node beside the way count.
    fn meet(&mut self, tree: &Typed, number: u32, target: u32)
        ensures above { self.new.above ≡ self.old.above }
        ensures before { self.new.before ≡ option_or self.old.before
            (left_spot (min (number + 1) (2 ^ 32 - 1)) (operands (tree_of tree.now)) target) }
        ensures behind { self.new.behind ≡ option_or
            (right_spot (min (number + 1) (2 ^ 32 - 1)) (operands (tree_of tree.now)) target) self.old.behind }
    {
        self.before = self.before.or(first_before(tree, number, target));
        self.behind = first_behind(tree, number, target).or(self.behind);
    }
}

/// The way from the root to the node of this number.
pub fn way_to(alloc: Global, root: &Typed, rules: &Rules, target: u32) -> Result<Way, NoMemory>
    ensures above { size (tree_of root.now) < 2 ^ 32 → IfOk result (λ way. way.above.items ≡ above_in 0 (tree_of root.now) target) }
    ensures before { size (tree_of root.now) < 2 ^ 32 → IfOk result
        (λ way. way.before ≡ first_loud (lefts_in (free_by rules.now) 0 (tree_of root.now) target)) }
    ensures behind { size (tree_of root.now) < 2 ^ 32 → IfOk result
        (λ way. way.behind ≡ first_loud (rights_in (free_by rules.now) 0 (tree_of root.now) target)) }
{
    let mut way = Way {
        above: Vec::new(alloc),
        before: None,
        behind: None,
    };
    add_way(root, 0, target, rules, &mut way)?;
    Ok(way)
}

// Adds the way from the root of a tree, which has this number, to a node below it.
fn add_way(
    tree: &Typed,
    number: u32,
    target: u32,
    rules: &Rules,
    way: &mut Way,
) -> Result<(), NoMemory>
    ensures above { number + size (tree_of tree.now) < 2 ^ 32 → OnOk result
        (way.new.above.items ≡ way.old.above.items ++ above_in number (tree_of tree.now) target) }
    ensures before { number + size (tree_of tree.now) < 2 ^ 32 → OnOk result
        (way.new.before ≡ option_or way.old.before (first_loud (lefts_in (free_by rules.now) number (tree_of tree.now) target))) }
    ensures behind { number + size (tree_of tree.now) < 2 ^ 32 → OnOk result
        (way.new.behind ≡ option_or (first_loud (rights_in (free_by rules.now) number (tree_of tree.now) target)) way.old.behind) }
{
    if number >= target {
        return Ok(());
    }
    way.pass(tree, number, target, rules)?;
    let Some(spot) = locate(tree, number, target) else {
        return Ok(());
    };
    add_way(
        &tree.children.as_slice()[spot.index],
        spot.number,
        target,
        rules,
        way,
    )?;
    Ok(())
}
