// The files that a text was made of, as its line markers name them.
ghost use Rattle.std.specs.Prelude.{◌≡◌};

use explain_report::{FileName, Written, next_file};
use std::alloc::Global;
use ub_base::{Bytes, Fetched, FileFault, Files, NoMemory};

// The most bytes of a file that is read.
const MOST: usize = 1_048_576;

// The most files that are read.
const MOST_FILES: usize = 64;

// The bytes of a name, as far as they are there.
fn name_in(text: &[u8], name: FileName) -> &[u8] {
    let (front, _) = text.split_at(name.end.min(text.len()));
    let (_, behind) = front.split_at(name.start.min(front.len()));
    behind
}

fn is_known(files: &[Written], name: &[u8]) -> bool {
    files.iter().any(|file| file.name.as_slice() == name)
}

// Whether the name is one of a file: `<built-in>` and such aren't, and `-` is what the text itself may have come from.
fn is_of_file(name: &[u8]) -> bool {
    match name.first() {
        Some(first) => *first != b'<' && *first != b'-',
        None => false,
    }
}

// The first names in line markers, each once, with no text.
fn named_in(alloc: Global, text: &[u8]) -> Result<Vec<Written>, NoMemory> {
    let mut found = Vec::new(alloc);
    let mut from = 0usize;
    for _turn in 0..text.len() {
        let Some(name) = next_file(text, from) else {
            return Ok(found);
        };
        from = name.end;
        let name = name_in(text, name);
        if is_of_file(name) && found.len() < MOST_FILES && !is_known(found.as_slice(), name) {
            found.push(Written {
                name: Bytes::from_slice(alloc, name)?,
                text: Bytes::from_vec(Vec::new(alloc)),
            })?;
        }
    }
    Ok(found)
}

// The bytes of a file; none where it isn't read.
fn text_of<F: Files>(alloc: Global, name: &[u8], files: &mut F) -> Result<Bytes, NoMemory>
    ensures held { F.held files.new ≡ F.held files.old }
    ensures writes { F.write_faults files.new ≡ F.write_faults files.old }
{
    let Ok(name) = str::from_utf8(name) else {
        return Ok(Bytes::from_vec(Vec::new(alloc)));
    };
    match files.fetch(alloc, name, MOST) {
        Ok(Fetched::Whole(bytes)) => Ok(bytes),
        Ok(Fetched::TooLong | Fetched::Absent) | Err(FileFault::Failed) => {
            Ok(Bytes::from_vec(Vec::new(alloc)))
        }
        Err(FileFault::NoMemory) => Err(NoMemory),
    }
}

// The file of this name with its text.
fn file_of<F: Files>(alloc: Global, named: &Written, files: &mut F) -> Result<Written, NoMemory>
    ensures held { F.held files.new ≡ F.held files.old }
    ensures writes { F.write_faults files.new ≡ F.write_faults files.old }
{
    let text = text_of(alloc, named.name.as_slice(), files)?;
    match Bytes::from_slice(alloc, named.name.as_slice()) {
        Ok(name) => Ok(Written { name, text }),
        Err(fault) => Err(fault),
    }
}

// Reads the file of this name, and adds it.
fn add_file<F: Files>(
    alloc: Global,
    found: &mut Vec<Written>,
    named: &Written,
    files: &mut F,
) -> Result<(), NoMemory>
    ensures held { F.held files.new ≡ F.held files.old }
    ensures writes { F.write_faults files.new ≡ F.write_faults files.old }
{
    let file = file_of(alloc, named, files)?;
    match found.push(file) {
        Ok(()) => Ok(()),
        Err(_) => Err(NoMemory),
    }
}

/// The files that the text was made of, as far as they can be read.
pub fn written_of<F: Files>(
    alloc: Global,
    text: &[u8],
    files: &mut F,
) -> Result<Vec<Written>, NoMemory>
    ensures held { F.held files.new ≡ F.held files.old }
    ensures writes { F.write_faults files.new ≡ F.write_faults files.old }
{
    let mut found = Vec::new(alloc);
    let names = named_in(alloc, text)?;
    for named in names.as_slice() {
        match add_file(alloc, &mut found, named, files) {
            Ok(()) => {}
            Err(fault) => return Err(fault),
        }
    }
    Ok(found)
}
