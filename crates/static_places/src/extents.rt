// How many bytes objects and literals have.
ghost use Rattle.std.specs.Prelude.{◌≡◌, slice_get};
ghost use Rattle.static_places.specs.Extents.{slot_size, body_size, start_size, block_size, entry_size, literal_size};

use c_typed::{Block, Body, Entry, ForStart, Program, Slot};
use c_types::Tags;
use layout::size;

/// The bytes of an object that a function names; none where it isn't there. An automatic one is looked for in the blocks of
/// the function in the order of the text.
pub fn slot_size(p: &Program, function: u32, slot: Slot) -> Option<u64>
    ensures { result ≡ slot_size p.now function slot }
{
    match slot {
        Slot::Static(number) => match p.statics.get(number as usize) {
            Some(object) => Some(size(&p.tags, &object.qual.ty)),
            None => None,
        },
        Slot::Auto { block, decl } => match p.functions.get(function as usize) {
            Some(function) => match &function.body {
                Some(body) => body_size(&p.tags, block, decl, body),
                None => None,
            },
            None => None,
        },
    }
}

/// The bytes of a literal; none where it isn't there.
pub fn literal_size(p: &Program, number: u32) -> Option<u64>
    ensures { result ≡ literal_size (slice_get p.now.literals number) }
{
    match p.literals.get(number as usize) {
        Some(bytes) => Some(bytes.len() as u64),
        None => None,
    }
}

#[cycle(body_size)]
fn body_size(tags: &Tags, number: u32, decl: u32, body: &Body) -> Option<u64>
    ensures { result ≡ body_size tags.now number decl body.now }
{
    match body {
        Body::Block(block) => block_size(tags, number, decl, block),
        Body::If(_, yes, no) => match body_size(tags, number, decl, yes.get()) {
            Some(size) => Some(size),
            None => match no {
                Some(no) => body_size(tags, number, decl, no.get()),
                None => None,
            },
        },
        Body::For { start, body, .. } => match start_size(tags, number, decl, start) {
            Some(size) => Some(size),
            None => body_size(tags, number, decl, body.get()),
        },
        Body::Switch(_, inner) | Body::While(_, inner) | Body::Do(inner, _) => {
            body_size(tags, number, decl, inner.get())
        }
        Body::Label(_, inner) | Body::Case(_, inner) | Body::Default(inner) => {
            body_size(tags, number, decl, inner.get())
        }
        Body::Simple(_) | Body::Return(_) => None,
        Body::Goto(_) | Body::Continue | Body::Break => None,
    }
}

#[cycle(body_size)]
fn start_size(tags: &Tags, number: u32, decl: u32, start: &ForStart) -> Option<u64>
    ensures { result ≡ start_size tags.now number decl start.now }
{
    match start {
        ForStart::Declared(block) => block_size(tags, number, decl, block),
        ForStart::Empty | ForStart::Value(_) => None,
    }
}

#[cycle(body_size)]
fn block_size(tags: &Tags, number: u32, decl: u32, block: &Block) -> Option<u64>
    ensures { result ≡ block_size tags.now number decl block.now }
{
    if block.number == number {
        return match block.objects.get(decl as usize) {
            Some(object) => Some(size(tags, &object.ty)),
            None => None,
        };
    }
    for entry in block.entries.as_slice() {
        if let Some(size) = entry_size(tags, number, decl, entry) {
            return Some(size);
        }
    }
    None
}

#[cycle(body_size)]
fn entry_size(tags: &Tags, number: u32, decl: u32, entry: &Entry) -> Option<u64>
    ensures { result ≡ entry_size tags.now number decl entry.now }
{
    match entry {
        Entry::Statement(body) => body_size(tags, number, decl, body),
        Entry::Initializer(_) | Entry::Declare(_) => None,
    }
}
