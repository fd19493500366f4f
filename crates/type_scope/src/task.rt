// The function definition that is being resolved.
ghost use Rattle.std.specs.Prelude.{◌≡◌, ℕ, ◌==◌, ◌||◌, not, is_some, slice_get, length, map, IsSome, IfSome, IfOk, OnOk, OnErr};
ghost use Rattle.c_types.specs.Types.{type_of, qualified_of};
ghost use Rattle.typing_env.specs.Env as env;
ghost use Rattle.typing_env.specs.Env.{no_task};
ghost use Rattle.typing_env.specs.Tasks.{open_block, close_block, innermost, another_object, retyped_task, one_object, retyped_object};
ghost use Rattle.type_scope.specs.Labels.{label_symbols, is_defined_label, one_symbol, place_of, has_number, label_named, label_defined, is_undefined};
ghost use Rattle.type_scope.specs.Labels.{labels_defined, HasLabels};
ghost use Rattle.type_scope.specs.Working.{task_seen, blocks_seen, block_seen};

use c_types::{IntKind, Qual, Ty};
use indexmap::IndexMap;
use std::alloc::Global;
use std::collections::BTreeSet;
use ub_base::{Items, NoMemory};

/// A label of the function: the line where it is first named, or defined, and whether it is defined.
#[derive(Clone, Copy, Debug, PartialEq, Eq)]
pub struct Label {
    pub line: u32,
    pub defined: bool,
}

/// A `switch` that is open: the promoted type of its controlling expression, and its labels so far (6.8.4.2p3).
#[derive(Drop)]
pub struct OpenSwitch {
    pub kind: IntKind,
    pub values: BTreeSet<u64>,
    pub has_default: bool,
}

/// A block that is open: its number in the function, and its objects so far.
#[derive(Drop)]
pub struct OpenBlock {
    number: u32,
    objects: Items<Qual>,
}

impl OpenBlock {
    // Adds an object; the answer is the number of the block and that of the object in it.
    fn add(&mut self, qual: Qual) -> Result<(u32, u32), NoMemory>
        ensures place { IfOk result (λ place. (place.0 ≡ self.old.number) × (place.1 ≡ length self.old.objects)) }
        ensures ok { OnOk result (block_seen self.new ≡ one_object (qualified_of qual) (block_seen self.old)) }
        ensures err { OnErr result (self.new ≡ self.old) }
    {
        let Ok(decl) = u32::try_from(self.objects.len()) else {
            return Err(NoMemory);
        };
        self.objects.push(qual)?;
        Ok((self.number, decl))
    }

    fn complete(&mut self, decl: u32, qual: Qual)
        ensures { block_seen self.new ≡ retyped_object decl (qualified_of qual) (block_seen self.old) }
    {
        if (decl as usize) < self.objects.len() {
            self.objects.set(decl as usize, qual);
        }
    }
}

/// What is known of the function whose body is read. Outside bodies it is that of no function.
#[derive(Drop)]
pub struct Task {
    /// What it returns.
    pub result: Ty,
    /// By symbol, in the order in which the text names them.
    pub labels: IndexMap<u32, Label>,
    /// How many blocks have begun.
    pub blocks: u32,
    /// The blocks that are open, outermost first.
    pub open_blocks: Vec<OpenBlock>,
    /// How many loops, and how many loops and `switch` statements, are open.
    pub loops: u32,
    pub breakable: u32,
    pub switches: Vec<OpenSwitch>,
}

impl Task {
    /// A function that returns this type.
    pub fn new(alloc: Global, returned: Ty) -> Task
        ensures { task_seen result no_task ≡ record no_task { result = type_of returned } }
    {
        Task {
            result: returned,
            labels: IndexMap::new(alloc),
            blocks: 0,
            open_blocks: Vec::new(alloc),
            loops: 0,
            breakable: 0,
            switches: Vec::new(alloc),
        }
    }

    /// Begins a block, which has the next number; there are numbers for 2^32 - 1 of them.
    pub fn enter(&mut self, alloc: Global) -> Result<u32, NoMemory>
        ensures number { IfOk result (λ number. number ≡ self.old.blocks) }
        ensures ok { OnOk result ((was : env.Task) → task_seen self.new was ≡ open_block (task_seen self.old was)) }
        ensures err { OnErr result ((was : env.Task) → task_seen self.new was ≡ task_seen self.old was) }
        ensures rest { self.new ≡ record self.old { blocks = self.new.blocks; open_blocks = self.new.open_blocks } }
    {
        let number = self.blocks;
        let Some(next) = number.checked_add(1) else {
            return Err(NoMemory);
        };
        let objects = Items::new(alloc);
        self.open_blocks.push(OpenBlock { number, objects })?;
        self.blocks = next;
        Ok(number)
    }

    /// Ends the innermost block; the answer is its number and its objects.
    pub fn leave(&mut self, alloc: Global) -> (u32, Items<Qual>)
        ensures number { result.0 ≡ (innermost (blocks_seen self.old)).number }
        ensures objects { map qualified_of result.1 ≡ (innermost (blocks_seen self.old)).objects }
        ensures closed { (was : env.Task) → task_seen self.new was ≡ close_block (task_seen self.old was) }
        ensures rest { self.new ≡ record self.old { open_blocks = self.new.open_blocks } }
    {
        match self.open_blocks.pop() {
            Some(OpenBlock { number, objects }) => (number, objects),
            None => (0, Items::new(alloc)),
        }
    }

    /// Adds an object to the innermost block; the answer is the number of the block and its number in it.
    pub fn add(&mut self, qual: Qual) -> Result<(u32, u32), NoMemory>
        ensures block { IfOk result (λ place. place.0 ≡ (innermost (blocks_seen self.old)).number) }
        ensures number { IfOk result (λ place. place.1 ≡ length (innermost (blocks_seen self.old)).objects) }
        ensures ok { OnOk result ((was : env.Task) → task_seen self.new was ≡ another_object (qualified_of qual) (task_seen self.old was)) }
        ensures rest { self.new ≡ record self.old { open_blocks = self.new.open_blocks } }
    {
        match self.open_blocks.last_mut() {
            Some(block) => block.add(qual),
            None => Ok((0, 0)),
        }
    }

    /// Gives an object of the innermost block its type.
    pub fn complete(&mut self, decl: u32, qual: Qual)
        ensures completed { (was : env.Task) → task_seen self.new was ≡ retyped_task decl (qualified_of qual) (task_seen self.old was) }
        ensures rest { self.new ≡ record self.old { open_blocks = self.new.open_blocks } }
    {
        if let Some(block) = self.open_blocks.last_mut() {
            block.complete(decl, qual);
        }
    }

    // Its place among the labels, in the order in which the text names them.
    fn place_of(&mut self, symbol: u32, line: u32) -> Result<usize, NoMemory>
        ensures place { IfOk result (λ place. place ≡ place_of symbol 0 (label_symbols self.old)) }
        ensures symbols { OnOk result (label_symbols self.new ≡ one_symbol symbol (label_symbols self.old)) }
        ensures defined { OnOk result ((s : ℕ) → is_defined_label self.new s ≡ is_defined_label self.old s) }
        ensures rest { self.new ≡ record self.old { labels = self.new.labels } }
    {
        if let Some(place) = self.labels.get_index_of(&symbol) {
            return Ok(place);
        }
        let label = Label {
            line,
            defined: false,
        };
        let (place, _) = self.labels.insert_full(symbol, label)?;
        Ok(place)
    }

    /// The number of a label, which is first named here where it is new; there are numbers for 2^32 labels.
    pub fn label(&mut self, symbol: u32, line: u32) -> Result<u32, NoMemory>
        ensures number { IfOk result (λ number. (was : env.Task) → HasLabels self.old was → number ≡ place_of symbol 0 was.labels) }
        ensures named { OnOk result ((was : env.Task) → HasLabels self.old was → HasLabels self.new (label_named symbol was)) }
        ensures rest { self.new ≡ record self.old { labels = self.new.labels } }
    {
        let place = self.place_of(symbol, line)?;
        let Ok(number) = u32::try_from(place) else {
            return Err(NoMemory);
        };
        Ok(number)
    }

    // Whether the label is defined.
    fn is_defined(&self, symbol: u32) -> bool
        ensures { result ≡ is_defined_label self.now symbol }
    {
        match self.labels.get(&symbol) {
            Some(label) => label.defined,
            None => false,
        }
    }

    // Defines a label; the answer is its place among the labels.
    fn with_label(&mut self, symbol: u32, line: u32) -> Result<usize, NoMemory>
        ensures place { IfOk result (λ place. place ≡ place_of symbol 0 (label_symbols self.old)) }
        ensures symbols { OnOk result (label_symbols self.new ≡ one_symbol symbol (label_symbols self.old)) }
        ensures defined { OnOk result ((s : ℕ) → is_defined_label self.new s ≡ (is_defined_label self.old s || (symbol == s))) }
        ensures rest { self.new ≡ record self.old { labels = self.new.labels } }
    {
        let label = Label {
            line,
            defined: true,
        };
        let (place, _) = self.labels.insert_full(symbol, label)?;
        Ok(place)
    }

    /// Defines a label; `None` where it is defined already (6.8.1p3).
    pub fn define_label(&mut self, symbol: u32, line: u32) -> Result<Option<u32>, NoMemory>
        ensures twice { IfOk result (λ found. (was : env.Task) → HasLabels self.old was → is_some found ≡ not (has_number symbol was.defined)) }
        ensures number { IfOk result (λ found. IfSome found (λ number. (was : env.Task) → HasLabels self.old was → number ≡ place_of symbol 0 was.labels)) }
        ensures defined { IfOk result (λ found. IsSome found → (was : env.Task) → HasLabels self.old was → HasLabels self.new (label_defined symbol was)) }
        ensures rest { self.new ≡ record self.old { labels = self.new.labels } }
    {
        if self.is_defined(symbol) {
            return Ok(None);
        }
        let place = self.with_label(symbol, line)?;
        let Ok(number) = u32::try_from(place) else {
            return Err(NoMemory);
        };
        Ok(Some(number))
    }

    // The line of a label, by its place, where it isn't defined.
    fn undefined_at(&self, place: usize) -> Option<u32>
        ensures { (was : env.Task) → HasLabels self.now was → is_some result ≡ is_undefined (slice_get was.labels place) was.defined }
    {
        match self.labels.get_index(place) {
            Some((_, label)) => {
                if label.defined {
                    None
                } else {
                    Some(label.line)
                }
            }
            None => None,
        }
    }

    /// The line of a label that is named and not defined (6.8.6.1p1).
    pub fn undefined_label(&self) -> Option<u32>
        ensures { (was : env.Task) → HasLabels self.now was → is_some result ≡ not (labels_defined was) }
    {
        for place in 0..self.labels.len() {
            if let Some(line) = self.undefined_at(place) {
                return Some(line);
            }
        }
        None
    }
}
