// Where jumps go: the labels of functions, and the cases of `switch` statements.

ghost use Rattle.std.specs.Prelude.{◌≡◌, ◌≢◌, ℕ, ◌≤◌, true, false, [], ◌∷◌, ◌++◌, List, length, map, Option, Some, slice_get, IfOk, OnOk};
ghost use Rattle.std.specs.Borrow.{Bor};
ghost use Rattle.run_control.specs.declared.statement.Statement.{Statement as StatementOf};
ghost use Rattle.run_control.specs.declared.statement.Switch.{Switch as SwitchOf};
ghost use Rattle.run_control.specs.Search.{Older};
ghost use Rattle.run_statements.specs.Jumping.{HasJumps, HaveCases, IsCase, IsFound, cases_of};

use crate::switches_of;
use run_control::{Found, Link, Place, Statement, Switch, Target, find, targets_of};
use std::alloc::Global;
use ub_base::NoMemory;

/// The work round targets; the labels of each function, and the cases of each `switch`, by their numbers, with the number of the function in whose body
/// it stands.
#[derive(Drop)]
pub struct Jumps<'p> {
    pub links: Vec<Link<'p>>,
    pub labels: Vec<Vec<Found<'p>>>,
    pub cases: Vec<Vec<Found<'p>>>,
    pub owners: Vec<usize>,
}

impl<'p> Jumps<'p> {
    /// No function was added.
    pub fn new(alloc: Global) -> Jumps<'p>
        ensures { HasJumps result [] }
    {
        Jumps {
            links: Vec::new(alloc),
            labels: Vec::new(alloc),
            cases: Vec::new(alloc),
            owners: Vec::new(alloc),
        }
    }

    /// Adds the next function, with its body where it is defined. The `switch` statements are to be numbered in the order of the
    /// text.
    pub fn add(&mut self, alloc: Global, body: Option<&'p Statement>) -> Result<(), NoMemory>
        ensures { (bodies : List (Option (Bor StatementOf))) → HasJumps self.old bodies → OnOk result (HasJumps self.new (bodies ++ body.entry ∷ [])) }
    {
        let Some(body) = body else {
            self.labels.push(Vec::new(alloc))?;
            return Ok(());
        };
        let mut switches = Vec::new(alloc);
        switches_of(body, &mut switches)?;
        let function = self.labels.len();
        self.add_cases(alloc, function, &switches)?;
        self.labels
            .push(targets_of(alloc, &mut self.links, body, true)?)?;
        Ok(())
    }

    // The next `switch` statements, which stand in the body of this function.
    fn add_cases(
        &mut self,
        alloc: Global,
        function: usize,
        switches: &[&'p Switch],
    ) -> Result<(), NoMemory>
        ensures labels { OnOk result (self.new.labels ≡ self.old.labels) }
        ensures older { OnOk result (Older self.old.links.items self.new.links.items) }
        ensures longer { OnOk result (length self.old.links.items ≤ length self.new.links.items) }
        ensures cases { OnOk result ((ss : List SwitchOf) → HaveCases self.old.links.items 0 ss (cases_of self.old)
            → HaveCases self.new.links.items 0 (ss ++ map (λ s. s.now) switches.now) (cases_of self.new)) }
        ensures owners { OnOk result (self.new.owners.items ≡ self.old.owners.items ++ map (λ s. function) switches.now) }
    {
        for switch in switches {
            if switch.number as usize != self.cases.len() {
                return Err(NoMemory);
            }
            let cases = targets_of(alloc, &mut self.links, switch.body.get(), false)?;
            self.cases.push(cases)?;
            self.owners.push(function)?;
        }
        Ok(())
    }

    /// Where a label of the function stands. None that isn't there is asked for.
    pub fn label(&self, function: u32, label: u32) -> Result<Place<'p>, NoMemory>
        ensures { (bodies : List (Option (Bor StatementOf))) (body : Bor StatementOf) → HasJumps self.now bodies
            → slice_get bodies function ≡ Some (Some body) → IfOk result (IsFound self.now.links.items body.now label) }
    {
        let Some(labels) = self.labels.get(function as usize) else {
            return Err(NoMemory);
        };
        match find(labels, Target::Label(label)) {
            Some(place) => Ok(place),
            None => Err(NoMemory),
        }
    }

    /// Where the `switch` of this number in the function's body goes by the value of its test, if there is a case for it (6.8.4.2p5). None of another
    /// function is asked for.
    pub fn case(
        &self,
        function: u32,
        switch: u32,
        value: i128,
    ) -> Result<Option<Place<'p>>, NoMemory>
        ensures { (bodies : List (Option (Bor StatementOf))) (body : Bor StatementOf) → HasJumps self.now bodies
            → slice_get bodies function ≡ Some (Some body) → IfOk result (IsCase self.now.links.items body.now switch value) }
    {
        if !self.is_of(function, switch) {
            return Err(NoMemory);
        }
        let Some(cases) = self.cases.get(switch as usize) else {
            return Err(NoMemory);
        };
        match find(cases, Target::Case(value)) {
            Some(place) => Ok(Some(place)),
            None => Ok(find(cases, Target::Default)),
        }
    }

    // Whether the `switch` of this number stands in the body of this function.
    fn is_of(&self, function: u32, switch: u32) -> bool
        ensures own { result ≡ true → slice_get self.now.owners.items switch ≡ Some function }
        ensures other { result ≡ false → slice_get self.now.owners.items switch ≢ Some function }
    {
        match self.owners.get(switch as usize) {
            Some(owner) => *owner == function as usize,
            None => false,
        }
    }
}
