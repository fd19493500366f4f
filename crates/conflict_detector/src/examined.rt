// What is known of full expressions once they have begun.
ghost use Rattle.std.specs.Borrow.{Bor};
ghost use Rattle.std.specs.Prelude.{◌≡◌, ◌<◌, [], ◌==◌, List, Some, None, length, set, vec_len, true, false, not, IfOk, IfSome, OnOk, slice_get};
ghost use Rattle.c_typed.specs.declared.tree.Typed.{Typed};
ghost use Rattle.c_typed.specs.Tree.{tree_of};
ghost use Rattle.evaluation_log.specs.Ruled.{rules_of};
ghost use Rattle.quiet_trees.specs.Loads.{loads_of};
ghost use Rattle.quiet_trees.specs.Quiet.{IsQuiet};
ghost use Rattle.quiet_trees.specs.Summaries.{summary_of};
ghost use Rattle.run_evaluations.specs.First.{SequencesNone};
ghost use Rattle.run_evaluations.specs.Scopes.{IsRuled};
ghost use Rattle.run_evaluations.specs.Told.{Opened};
ghost use Rattle.conflict_detector.specs.Shown.{IsShown};
ghost use Rattle.conflict_detector.specs.Telling.{TellsAt};
ghost use Rattle.conflict_detector.specs.declared.examined.Examined.{Examined};
ghost use Rattle.conflict_detector.specs.Examined.{AreRight, HasRules, IsNumbered, is_known, is_said_quiet, rule_by};

use c_typed::Typed;
use evaluation_log::{Rule, Rules};
use quiet_trees::is_quiet;
use run_state::Begun;
use std::alloc::Global;
use ub_base::NoMemory;

/// The rules of a tree's nodes, and whether no two of its evaluations may conflict of which neither is sequenced before the other.
#[derive(Drop)]
pub struct Examined {
    pub rules: Rules,
    pub quiet: bool,
}

impl Examined {
    /// Of a tree that hasn't begun.
    pub fn none(alloc: Global) -> Self
        ensures quiet { result.quiet ≡ false }
        ensures rules { result.rules.list.items ≡ [] }
    {
        Examined {
            rules: Rules::new(alloc),
            quiet: false,
        }
    }

    /// Of this tree.
    pub fn of(alloc: Global, root: &Typed) -> Result<Self, NoMemory>
        ensures quiet { IfOk result (λ e. e.quiet ≡ true → IsQuiet (tree_of root.now) (loads_of root.now)) }
        ensures told { IfOk result (λ e. e.quiet ≡ not (summary_of (tree_of root.now) (loads_of root.now)).clash) }
        ensures rules { IfOk result (λ e. e.rules.list.items ≡ rules_of root.now 0) }
    {
        Ok(Examined {
            rules: Rules::of(alloc, root)?,
            quiet: is_quiet(root),
        })
    }

    /// Whether the tree hasn't begun.
    pub fn is_none(&self) -> bool
        ensures { result ≡ (length self.now.rules.list.items == 0) }
    {
        self.rules.is_empty()
    }
}

/// What is known of each full expression that has begun once, by its number among the program's.
#[derive(Drop)]
pub struct Expressions {
    pub(crate) list: Vec<Examined>,
}

impl Expressions {
    /// None has begun.
    pub fn new(alloc: Global) -> Self
        ensures empty { result.list.items ≡ [] }
    {
        Expressions {
            list: Vec::new(alloc),
        }
    }

    /// The full expression of this number begins, whose tree is examined if it is the first time.
    pub fn examine(&mut self, alloc: Global, number: u32, root: &Typed) -> Result<(), NoMemory>
        ensures right { OnOk result ((roots : List (Bor Typed)) → AreRight roots self.old → IsNumbered roots number root.now → AreRight roots self.new) }
        ensures rules { OnOk result ((roots : List (Bor Typed)) → AreRight roots self.old → IsNumbered roots number root.now →
            HasRules self.new number root.now) }
    {
        if self.is_known(number) {
            return Ok(());
        }
        self.grow(alloc, number)?;
        let examined = Examined::of(alloc, root)?;
        self.put(number, examined);
        Ok(())
    }

    // Whether the full expression of this number has begun once.
    fn is_known(&self, number: u32) -> bool
        ensures { result ≡ is_known (slice_get self.now.list.items number) }
    {
        match self.list.get(number as usize) {
            Some(examined) => !examined.is_none(),
            None => false,
        }
    }

    // There are so many that this one is among them.
    fn grow(&mut self, alloc: Global, number: u32) -> Result<(), NoMemory>
        ensures right { OnOk result ((roots : List (Bor Typed)) → AreRight roots self.old → AreRight roots self.new) }
        ensures there { OnOk result (number < vec_len self.new.list) }
    {
        let at = number as usize;
        for _ in self.list.len()..at + 1 {
            self.list.push(Examined::none(alloc))?;
        }
        Ok(())
    }

    fn put(&mut self, number: u32, examined: Examined)
        ensures { self.new.list.items ≡ set self.old.list.items number examined }
    {
        let at = number as usize;
        if at < self.list.len() {
            self.list[at] = examined;
        }
    }

    /// The rule of a node of the full expression of this number; Open where it hasn't begun.
    pub fn rule(&self, number: u32, node: u32) -> Rule
        ensures { result ≡ rule_by (slice_get self.now.list.items number) node }
    {
        match self.list.get(number as usize) {
            Some(examined) => examined.rules.get(node),
            None => Rule::Open,
        }
    }

    /// The rules of the full expression of this number, where it has begun once.
    pub fn rules(&self, number: u32) -> Option<&Rules>
        ensures some { IfSome result (λ r. (e : Examined) × (slice_get self.now.list.items number ≡ Some e) × (r.now ≡ e.rules)) }
        ensures none { result ≡ None → (e : Examined) → slice_get self.now.list.items number ≡ Some e → ⊥ }
    {
        match self.list.get(number as usize) {
            Some(examined) => Some(&examined.rules),
            None => None,
        }
    }

    /// The rule of a node of this full expression, and whether the node has chosen a further operand.
    pub(crate) fn rule_of(
        &mut self,
        alloc: Global,
        begun: &Begun,
        node: u32,
    ) -> Result<(Rule, bool), NoMemory>
        ensures right { OnOk result ((roots : List (Bor Typed)) → AreRight roots self.old → IsNumbered roots begun.now.tree begun.now.root.now →
            AreRight roots self.new) }
        ensures ruled { IfOk result (λ r. (roots : List (Bor Typed)) (t : Opened) (own : TellsAt t node) → AreRight roots self.old →
            IsShown roots begun.now t → IsRuled t.scope node own.class own.operands r.0 r.1) }
        ensures known { OnOk result ((roots : List (Bor Typed)) → AreRight roots self.old → IsNumbered roots begun.now.tree begun.now.root.now →
            HasRules self.new begun.now.tree begun.now.root.now) }
        ensures free { IfOk result (λ r. (roots : List (Bor Typed)) (t : Opened) → AreRight roots self.old → IsShown roots begun.now t →
            SequencesNone t.scope node r.0) }
    {
        let number = begun.tree;
        self.examine(alloc, number, begun.root)?;
        Ok((self.rule(number, node), begun.taken.chosen(node).is_some()))
    }

    /// Whether the full expression of this number is known to be quiet.
    pub fn is_quiet(&self, number: u32) -> bool
        ensures { result ≡ is_said_quiet (slice_get self.now.list.items number) }
    {
        match self.list.get(number as usize) {
            Some(examined) => examined.quiet,
            None => false,
        }
    }
}
