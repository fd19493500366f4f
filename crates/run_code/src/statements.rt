// The code of a program.
ghost use Rattle.std.specs.Prelude.{◌≡◌, ◌≤◌, ◌++◌, [], length, drop, map, flat_map, IfOk, OnOk};
ghost use Rattle.std.specs.List.{All};
ghost use Rattle.elaborate.specs.Expressions.{block_trees, program_trees};
ghost use Rattle.c_typed.specs.Tree.{tree_of};
ghost use Rattle.c_typed.specs.declared.statement.Body.TheVariants as body_form;
ghost use Rattle.run_statements.specs.Bodies.{Grows, IsStatement};
ghost use Rattle.run_statements.specs.declared.numbers.Numbers.{Numbers as NumbersOf};
ghost use Rattle.run_layout.specs.Roots.{roots_in, code_trees, HaveCode, AreInBlocks};
ghost use Rattle.run_code.specs.Statements.{IsNumberedBy};
ghost use Rattle.run_layout.specs.Blocks.{rows_of_block};
ghost use Rattle.run_layout.specs.Functions.{HasBlocks, HaveBlocks, HasExpressions, HaveExpressions, IsMore, AddsExpressions, laid_in};
ghost use Rattle.c_types.specs.declared.ty.FuncTy.{out-FuncTy};
ghost use Rattle.run_layout.specs.EventActs.{AreGrown};
ghost use Rattle.run_layout.specs.LaidOut.{IsLaidOut};
ghost use Rattle.run_layout.specs.OfTrees.{AreOfTerms, ListsTrees, AreTermsOf};
ghost use Rattle.elaborate.specs.Formed.{EachFormed};
ghost use Rattle.run_layout.specs.Fitting.{TreeFits, AreFit};
ghost use Rattle.c_typed.specs.declared.program.Program.{Program as ProgramOf};

use crate::draft::{Draft, finished};
use c_typed::{Block, Body, Function, Program, Typed};
use c_types::Tags;
use core_ir::Core;
use run_control::Statement;
use run_layout::{
    Code, Expressions, FunctionCode, FunctionDraft, Objects, Range, next_number, number_of,
    range_from,
};
use run_statements::{Numbers, block};
use std::alloc::Global;
use ub_base::NoMemory;

impl<'p> Draft<'p> {
    // These full expressions in turn, but for the first so many.
    fn expressions(
        &mut self,
        roots: &[&'p Typed],
        passed: usize,
        terms: &[Core],
    ) -> Result<Range, NoMemory>
        requires { passed ≤ length roots.now }
        ensures listed { AreOfTerms terms.now self.old.expressions.laid → OnOk result (AreOfTerms terms.now self.new.expressions.laid) }
        ensures order { OnOk result (roots_in self.new.expressions.laid.all.items ≡ roots_in self.old.expressions.laid.all.items ++ drop passed
            (map (λ root. root.now) roots.now)) }
        ensures fit { (p : ProgramOf) → All (TreeFits p) (drop passed (map (λ root. root.now) roots.now)) → AreFit p self.old.expressions.tables →
            OnOk result (AreFit p self.new.expressions.tables) }
        ensures grown { OnOk result (AreGrown self.old.expressions.tables self.new.expressions.tables) }
        ensures range { IfOk result (λ r. (r.first ≡ length self.old.expressions.laid.all.items)
            × (r.count ≡ length (drop passed (map (λ root. root.now) roots.now)))) }
        ensures added { OnOk result (AddsExpressions self.old.function.objects.first.items
            (drop passed (map (λ root. root.now) roots.now)) self.new.expressions.tables self.old.expressions.laid self.new.expressions.laid) }
    {
        let first = next_number(&self.expressions.laid.all)?;
        let (_, rest) = roots.split_at(passed);
        for root in rest {
            self.expression(root, terms)?;
        }
        range_from(&self.expressions.laid.all, first)
    }

    fn function(
        &mut self,
        tags: &Tags,
        function: &'p Function,
        body: &'p Block,
        numbers: &mut Numbers<'p>,
        terms: &[Core],
    ) -> Result<FunctionCode, NoMemory>
        ensures listed { AreOfTerms terms.now self.old.expressions.laid → OnOk result (AreOfTerms terms.now self.new.expressions.laid) }
        ensures order { OnOk result (roots_in self.new.expressions.laid.all.items ≡ roots_in self.old.expressions.laid.all.items ++ block_trees body.now) }
        ensures numbers { OnOk result (map (λ root. root.now) numbers.new.roots.items ≡ map
            (λ root. root.now) numbers.old.roots.items ++ block_trees body.now) }
        ensures grows { OnOk result (Grows numbers.old numbers.new) }
        ensures fit { (p : ProgramOf) → All (TreeFits p) (block_trees body.now) → AreFit p self.old.expressions.tables →
            OnOk result (AreFit p self.new.expressions.tables) }
        ensures body { IfOk result (λ code. IsStatement numbers.new (body_form.Block body.now) code.body) }
        ensures grown { OnOk result (AreGrown self.old.expressions.tables self.new.expressions.tables) }
        ensures more { OnOk result (IsMore self.old.expressions.laid self.new.expressions.laid) }
        ensures blocks { IfOk result (λ code. HasBlocks tags.now (length (out-FuncTy function.now.ty).params)
            (rows_of_block body.now) self.new.expressions.tables code) }
        ensures expressions { IfOk result (λ code. HasExpressions body.now self.new.expressions.tables self.new.expressions.laid code.expressions) }
    {
        self.function = start_function(self.alloc);
        let blocks = next_number(&self.expressions.tables.blocks)?;
        let arguments = number_of(function.ty.params.len())?;
        self.survey_block(tags, body, arguments)?;
        let objects = self.function.count;
        let first = numbers.roots.len();
        let body = Statement::Block(block(self.alloc, body, numbers)?);
        let expressions = self.expressions(&numbers.roots, first, terms)?;
        Ok(FunctionCode {
            body,
            blocks,
            objects,
            expressions,
        })
    }
}

fn start_function(alloc: Global) -> FunctionDraft
    ensures count { result.count ≡ 0 }
    ensures objects { result.objects.first.items ≡ [] }
{
    FunctionDraft {
        objects: Objects {
            first: Vec::new(alloc),
        },
        count: 0,
    }
}

/// The code of a program, with these terms of its full expressions in turn.
pub fn code_of<'p>(
    alloc: Global,
    program: &'p Program,
    terms: &[Core],
) -> Result<Code<'p>, NoMemory>
    // Each event that is listed of a full expression is one of its nodes, and has the act of that node.
    ensures laid_out { IfOk result (λ code. ∥ All (IsLaidOut code.tables code.listing.items) code.expressions.items ∥₁) }
    // The full expressions are those of the functions in turn, in the order of the text.
    ensures order { IfOk result (λ code. roots_in code.expressions.items ≡ flat_map code_trees program.now.functions) }
    // So they are those of the terms, where what is defined is defined by a block.
    ensures trees { AreInBlocks program.now.functions → IfOk result (λ code. map tree_of (roots_in code.expressions.items) ≡ program_trees program.now) }
    // The listing of each is that of its tree, where the terms are elaborate's and the nodes have the operands that their operators take.
    ensures listed { AreInBlocks program.now.functions → AreTermsOf program.now terms.now → EachFormed (program_trees program.now) →
        IfOk result (λ code. ListsTrees code) }
    // Each function that is defined by a block has its code, and no other has.
    ensures functions { IfOk result (HaveCode program.now.functions) }
    // The statements are those of the functions, in which numbers stand for these full expressions.
    ensures bodies { IfOk result (λ code. (numbers : NumbersOf) × IsNumberedBy numbers program.now.functions code) }
    // Where each of their nodes is lawful in it, a pointer is stored by its own type, and the constants that objects are filled with are lawful.
    ensures fit { (p : ProgramOf) → All (TreeFits p) (flat_map code_trees program.now.functions) → IfOk result (λ code. AreFit p code.tables) }
    // The blocks of each function are those of its body, with their objects as the types of these say.
    ensures blocks { IfOk result (λ code. HaveBlocks program.now.tags code.tables program.now.functions code.functions.items) }
    // The full expressions of each function are those of its block, laid out where the objects of its blocks have the numbers that the code gives them.
    ensures expressions { IfOk result (λ code. HaveExpressions code.tables (laid_in code) program.now.functions code.functions.items) }
{
    let mut draft = Draft {
        alloc,
        expressions: Expressions::new(alloc),
        function: start_function(alloc),
    };
    let mut numbers = Numbers::new(alloc);
    let mut functions = Vec::new(alloc);
    for function in program.functions.as_slice() {
        let code = match &function.body {
            Some(body) => match body {
                Body::Block(block) => Some(draft.function(
                    &program.tags,
                    function,
                    block,
                    &mut numbers,
                    terms,
                )?),
                _ => None,
            },
            None => None,
        };
        functions.push(code)?;
    }
    Ok(finished(draft, functions))
}
