// Which operands were chosen.
ghost use Rattle.std.specs.Prelude.{◌≡◌, [], OnOk, OnErr, Some, ℕ, ◌==◌, if◌then◌else◌};
ghost use Rattle.seq_order.specs.Marked.{taken_in};

use std::alloc::Global;
use std::marker::Model;
use ub_base::NoMemory;

/// Which operand each `&&`, `||` and `?:` evaluates next, by node. A node that evaluates no further operand has none.
#[derive(Drop)]
pub struct Taken {
    choices: Vec<Option<u32>>,
}

impl Model for Taken {
    ghost use Rattle.std.specs.Prelude.{ℕ, List, Option};

    ghost Value = { List (Option ℕ) };

    ghost view = { λ t. t.choices.items };
}

impl Taken {
    pub fn new(alloc: Global) -> Self
        ensures { result ≡ [] }
    {
        Taken {
            choices: Vec::new(alloc),
        }
    }

    /// Notes a choice. It costs a push where the node is beyond all before, and a write elsewhere.
    pub fn set(&mut self, node: u32, operand: u32) -> Result<(), NoMemory>
        ensures ok { OnOk result ((n : ℕ) → taken_in self.new n ≡ (if n == node then Some operand else taken_in self.old n)) }
        ensures err { OnErr result ((n : ℕ) → taken_in self.new n ≡ taken_in self.old n) }
    {
        let at = node as usize;
        for _ in self.choices.len()..at + 1 {
            self.choices.push(None)?;
        }
        self.choices[at] = Some(operand);
        Ok(())
    }

    /// The operand that the node chose.
    pub fn chosen(&self, node: u32) -> Option<u32>
        ensures { result ≡ taken_in self.now node }
    {
        match self.choices.get(node as usize) {
            Some(choice) => *choice,
            None => None,
        }
    }

    /// Forgets all choices, and keeps the room.
    pub fn clear(&mut self)
        ensures { self.new ≡ [] }
    {
        self.choices.clear();
    }
}
