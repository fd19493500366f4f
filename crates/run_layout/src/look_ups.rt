// Look-ups in a program that is laid out: what is named is there.
ghost use Rattle.std.specs.Prelude.{◌≡◌, ◌<◌, ◌≤◌, Some, length, slice_get, IfSome, IfNone};
ghost use Rattle.std.specs.List.{All};
ghost use Rattle.run_layout.specs.declared.steps.Choice.{Choice as ChoiceOf};
ghost use Rattle.run_layout.specs.InRange.{IsRange, IsObject, part_of, way_of};
ghost use Rattle.run_layout.specs.Roots.{HasCode};

use crate::steps::{BlockCode, Choice, Expression, FunctionCode, ObjectCode, Range, Way};
use crate::whole::Code;

// The entries of a range of a table.
fn part<'c, T>(table: &'c [T], range: Range) -> &'c [T]
    requires { IsRange (length table.now) range }
    ensures { result.now ≡ part_of table.now range }
{
    let (_, rest) = table.split_at(range.first as usize);
    let (entries, _) = rest.split_at(range.count as usize);
    entries
}

// How a choice goes.
fn way_by(choice: &Choice, truth: bool) -> Way
    ensures { result ≡ way_of choice.now truth }
{
    if truth { choice.yes } else { choice.no }
}

impl<'p> Code<'p> {
    /// The block of this number, with its objects; none where there are not so many.
    pub fn block(&self, number: u32) -> Option<(BlockCode, &[ObjectCode])>
        ensures found { IfSome result (λ b. (slice_get self.now.tables.blocks.items number ≡ Some b.0)
            × (b.1.now ≡ part_of self.now.tables.objects.items b.0.objects)) }
        ensures none { IfNone result (length self.now.tables.blocks.items ≤ number) }
        ensures stores { IfSome result (λ b. All (IsObject (length self.now.tables.stores.items)) b.1.now) }
    {
        let block = self.tables.blocks.get(number as usize)?;
        Some((*block, part(self.tables.objects.as_slice(), block.objects)))
    }

    /// The full expression of this number, with what is chosen as it begins; none where there are not so many.
    pub fn expression(&self, number: u32) -> Option<(&Expression<'p>, &[(u32, u32)])>
        ensures found { IfSome result (λ e. (slice_get self.now.expressions.items number ≡ Some e.0.now)
            × (e.1.now ≡ part_of self.now.tables.chosen.items e.0.now.chosen)) }
        ensures none { IfNone result (length self.now.expressions.items ≤ number) }
    {
        let expression = self.expressions.get(number as usize)?;
        Some((
            expression,
            part(self.tables.chosen.as_slice(), expression.chosen),
        ))
    }

    /// The code of the function of this number, which the program defines.
    pub fn function(&self, number: u32) -> &FunctionCode
        requires there { HasCode self.now number }
        ensures { slice_get self.now.functions.items number ≡ Some (Some result.now) }
    {
        match &self.functions[number as usize] {
            Some(function) => function,
            None => unreachable!(),
        }
    }

    /// The choice of this number.
    pub fn choice(&self, number: u32) -> &Choice
        requires there { number < length self.now.tables.choices.items }
        ensures { slice_get self.now.tables.choices.items number ≡ Some result.now }
    {
        &self.tables.choices[number as usize]
    }

    /// How the choice of this number goes by the truth of its test, and what is chosen with it.
    pub fn way(&self, number: u32, truth: bool) -> (Way, &[(u32, u32)])
        requires there { number < length self.now.tables.choices.items }
        ensures way { (c : ChoiceOf) → slice_get self.now.tables.choices.items number ≡ Some c → result.0 ≡ way_of c truth }
        ensures chosen { result.1.now ≡ part_of self.now.tables.chosen.items result.0.chosen }
    {
        let way = way_by(&self.tables.choices[number as usize], truth);
        (way, part(self.tables.chosen.as_slice(), way.chosen))
    }
}
