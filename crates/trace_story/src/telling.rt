// The run that is told.
ghost use Rattle.std.specs.Prelude.{◌≡◌, ◌≤◌, map, [], IfOk, IsTrue, Some, None};
ghost use Rattle.core_run.specs.Calls.{StartedBy, picks_in};
ghost use Rattle.core_run.specs.Ends.{picks_of, told_of};
ghost use Rattle.trace_story.specs.Named.{IsNamed};
ghost use Rattle.trace_story.specs.Stories.{mark_of, story_in, sought_in};

use crate::entry::{Entries, Story};
use crate::named::{are_same, named_in};
use crate::told::Sought;
use crate::watcher::Teller;
use addr_map::Mode;
use core_ir::CoreProgram;
use core_run::{Calls, RunState, run};
use std::alloc::Global;
use ub_base::{Frames, NoMemory, ObjName};

/// The story of an object, which `frames` name, over the first picks of a program's run in canonical order on this input, with
/// these arguments behind the program's name, its objects placed in this mode: for each pick the items that name the object, or
/// look up an address that the object contains or has one past at last; bytes joined to the longest ranges, in the order of items,
/// each once. Two runs are made, of which the first finds the object's frame and place. Needs what `run` needs.
pub fn story(
    alloc: Global,
    p: &CoreProgram,
    input: &[u8],
    args: &[String],
    mode: Mode,
    picks: u64,
    frames: &Frames,
    object: &ObjName,
) -> Result<Story, NoMemory>
    requires { picks ≤ 100000000 }

    // The object is that of the same name, none only where its frame isn't among those of the run.
    ensures named { IfOk result (λ s. IsNamed frames.now object.now s.frames s.named) }

    // The entries are what the calls of the watch tell of the object where it stands at last, none missing and none added.
    ensures told { IfOk result (λ s. map mark_of s.entries ≡ story_in s.frames (sought_in s.map s.named) s.calls) }

    // The watch was told each pick but one that raised, at most so many; each frame was started by an event that it was told.
    ensures counted { IfOk result (λ s. picks_in s.calls ≡ told_of s.ran) }
    ensures within { IfOk result (λ s. picks_of s.ran ≤ picks) }
    ensures started { IfOk result (λ s. StartedBy (Some s.calls) s.frames) }
{
    let no_frames = Frames::new(alloc);
    let mut listener = Teller::new(alloc, &no_frames, None);
    let first = run(alloc, p, input, args, mode, picks, &mut listener)?;
    let Some(named) = named_in(alloc, frames, object, &first.frames)? else {
        let (_, calls) = listener.into_parts();
        return Ok(without_object(alloc, first, calls));
    };
    let row = first.map.row(named);
    let sought = Sought { object: named, row };
    let mut teller = Teller::new(alloc, &first.frames, Some(sought));
    let second = run(alloc, p, input, args, mode, picks, &mut teller)?;
    let place = second.map.row(named);
    let again = Sought {
        object: named,
        row: place,
    };
    // One program has one run.
    if !agree(&teller, &again, &first.frames, &second.frames) {
        return Err(NoMemory);
    }
    let (entries, calls) = teller.into_parts();
    Ok(Story {
        entries,
        frames: second.frames,
        named: Some(named),
        map: second.map,
        ran: second.ran,
        calls,
    })
}

/// Whether two runs with these frames are one, of which a watch tells that seeks this object.
fn agree(teller: &Teller, sought: &Sought, first: &Frames, second: &Frames) -> bool
    ensures frames { IsTrue result → first.now ≡ second.now }
    ensures sought { IsTrue result → teller.now.sought ≡ Some sought.now }
    ensures told_frames { IsTrue result → teller.now.frames.now ≡ second.now }
{
    are_same(first, second) && teller.seeks(sought, second)
}

/// The story of an object whose frame the run hasn't started.
fn without_object(alloc: Global, state: RunState, calls: Calls) -> Story
    ensures entries { result.entries ≡ [] }
    ensures frames { result.frames ≡ state.frames }
    ensures named { result.named ≡ None }
    ensures ran { result.ran ≡ state.ran }
    ensures calls { result.calls ≡ calls }
{
    Story {
        entries: Entries::new(alloc),
        frames: state.frames,
        named: None,
        map: state.map,
        ran: state.ran,
        calls,
    }
}
