// How the nodes of a full expression sequence their operands.
ghost use Rattle.std.specs.Prelude.{◌≡◌, ◌-◌, ◌^◌, ◌++◌, ◌==◌, min, [], length, set, OnOk, IfOk};
ghost use Rattle.c_typed.specs.declared.tree.Node.{fold-Node};
ghost use Rattle.evaluation_log.specs.Ruled.{NodeRule, TreeRules, node_rule, tree_rules, rules_of};
ghost use Rattle.evaluation_log.specs.Ways.{rule_in};
ghost use Rattle.evaluation_log.specs.Kept.{is_unsequenced};

use c_typed::{Node, Typed};
use std::alloc::Global;
use ub_base::NoMemory;

/// How a node sequences its operands and its own events.
#[derive(Clone, Copy, PartialEq, Eq)]
pub enum Rule {
    /// The operands are unsequenced, and only their values come before the node's own events (6.5p2).
    Open,
    /// The operands are unsequenced, and all of them come before the node's value (6.5.2.2p10, 6.7.9p23).
    Closed,
    /// All of the first operand comes before all of the one that is evaluated next and before the node's value, where one
    /// is (6.5.13p4, 6.5.14p4, 6.5.15p4).
    Choice,
    /// All of each operand comes before all of the later ones, and all but the last, whose number this is, before the
    /// node's value (6.5.17p2).
    Comma(u32),
}

/// The rules of a full expression's nodes, by their preorder numbers.
#[derive(Drop)]
pub struct Rules {
    list: Vec<Rule>,
}

impl Rules {
    /// No rules.
    pub fn new(alloc: Global) -> Self
        ensures { result.list.items ≡ [] }
    {
        Rules {
            list: Vec::new(alloc),
        }
    }

    /// The rules of the nodes of this tree.
    pub fn of(alloc: Global, root: &Typed) -> Result<Rules, NoMemory>
        ensures rules { IfOk result (λ rules. rules.list.items ≡ rules_of root.now 0) }
    {
        let mut list = Vec::new(alloc);
        add_rules(root, &mut list)?;
        Ok(Rules { list })
    }

    /// Whether there are none.
    pub fn is_empty(&self) -> bool
        ensures { result ≡ (length self.now.list.items == 0) }
    {
        self.list.is_empty()
    }

    /// The rule of a node; Open where there is no such node.
    pub fn get(&self, node: u32) -> Rule
        ensures { result ≡ rule_in self.now node }
    {
        match self.list.get(node as usize) {
            Some(rule) => *rule,
            None => Rule::Open,
        }
    }
}

impl Rule {
    /// Whether no operand of a node of this rule is sequenced before another (6.5p3).
    pub fn is_unsequenced(self) -> bool
        ensures { result ≡ is_unsequenced self }
    {
        match self {
            Rule::Open | Rule::Closed => true,
            _ => false,
        }
    }
}

// Adds the rules of a tree, whose root has the number of those that are there.
fn add_rules(tree: &Typed, list: &mut Vec<Rule>) -> Result<(), NoMemory>
    ensures { OnOk result (list.new.items ≡ list.old.items ++ rules_of tree.now (length list.old.items)) }
{
    let number = list.len();
    list.push(Rule::Open)?;
    let mut last = number;
    for operand in tree.children.as_slice() {
        last = list.len();
        add_rules(operand, list)?;
    }
    set_rule(list, number, rule_of(&tree.node, number_of(last)));
    Ok(())
}

fn set_rule(list: &mut Vec<Rule>, number: usize, rule: Rule)
    ensures { list.new.items ≡ set list.old.items number rule }
{
    if number < list.len() {
        list[number] = rule;
    }
}

fn number_of(place: usize) -> u32
    ensures { result ≡ min place (2 ^ 32 - 1) }
{
    u32::try_from(place).unwrap_or(u32::MAX)
}

// The rule of a node whose last operand has this number.
fn rule_of(node: &Node, last: u32) -> Rule
    ensures { result ≡ fold-Node NodeRule TreeRules node_rule tree_rules node.now last }
{
    match node {
        Node::And | Node::Or | Node::Cond => Rule::Choice,
        Node::Comma => Rule::Comma(last),
        Node::Call { .. } | Node::List { .. } | Node::Isolated(_) => Rule::Closed,
        _ => Rule::Open,
    }
}
