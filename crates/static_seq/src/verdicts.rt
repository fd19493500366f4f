// What is said of each full expression.
ghost use Rattle.std.specs.Prelude.{◌≡◌, ◌++◌, ◌∷◌, [], OnOk, OnErr};

use crate::Accessed;
use std::alloc::Global;
use std::marker::Model;
use ub_base::NoMemory;

/// What is said of a full expression: its function and its number in it, counted from 0 in the order of the text, the line of
/// its first token, and the least pair of its accesses of which nothing shows that they never race.
#[derive(Clone, Copy)]
pub struct Verdict {
    pub function: u32,
    pub expression: u32,
    pub line: u32,
    pub unparted: Option<(Accessed, Accessed)>,
}

/// One verdict for each full expression of a program, by function and number.
#[derive(Drop)]
pub struct Verdicts {
    items: Vec<Verdict>,
}

impl Model for Verdicts {
    ghost use Rattle.std.specs.Prelude.{List};
    ghost use Rattle.static_seq.specs.declared.verdicts.Verdict.{Verdict};

    ghost Value = { List Verdict };

    ghost view = { λ v. v.items.items };
}

impl Verdicts {
    pub(crate) fn new(alloc: Global) -> Self
        ensures { result ≡ [] }
    {
        Verdicts {
            items: Vec::new(alloc),
        }
    }

    pub(crate) fn push(&mut self, verdict: Verdict) -> Result<(), NoMemory>
        ensures ok { OnOk result (self.new ≡ self.old ++ verdict ∷ []) }
        ensures err { OnErr result (self.new ≡ self.old) }
    {
        self.items.push(verdict)?;
        Ok(())
    }

    pub fn as_slice(&self) -> &[Verdict]
        ensures { result.now ≡ self.now }
    {
        &self.items
    }
}
