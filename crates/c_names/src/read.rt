// Texts read as names.
ghost use Rattle.std.specs.Prelude.{◌≡◌, ◌≢◌, ◌<◌, ◌^◌, ◌++◌, length, codes, IfOk, IfSome, OnErr, MatchOption};
ghost use Rattle.ub_base.specs.Frames.{path_of};
ghost use Rattle.c_names.specs.Names.{IsEvent, IsObject, IsPlace, event_name, object_name};
ghost use Rattle.c_names.specs.Texts.{event_text, object_text, frame_text, numbers_text, IsNoEventText, IsNoObjectText};
ghost use Rattle.c_names.specs.Parts.{IsNoPlaceText};
ghost use Rattle.c_names.specs.Ways.{Extends, Reaches, ReachesObject};
ghost use Rattle.c_names.specs.Words.{sort_text, IsNoSort};

use crate::ways::read_frame;
use crate::words::{cut, event_words, place_words, small_number};
use std::alloc::Global;
use ub_base::{Event, Frame, Frames, NoMemory, ObjName};

/// The event that has this text, None where no event has. Starts the frames of its path that are missing; where None
/// is answered `frames` stays, and after NoMemory it may have gained rows.
pub fn read_event(
    alloc: Global,
    frames: &mut Frames,
    text: &[u8],
) -> Result<Option<Event>, NoMemory>
    requires { length frames.old < 2 ^ 31 }
    ensures answer { IfOk result (λ found. MatchOption found (IsNoEventText text.now) (λ e. event_text frames.new e ≡ text.now)) }
    ensures bounds { IfOk result (λ found. IfSome found (λ e. IsEvent (event_name frames.new e))) }
    ensures frames { IfOk result (λ found. MatchOption found (frames.new ≡ frames.old) (λ e. Reaches frames.old frames.new e.frame.0)) }
    ensures err { OnErr result (Extends frames.old frames.new) }
{
    let Some(words) = event_words(text) else {
        return Ok(None);
    };
    let Some(frame) = read_frame(alloc, frames, words.frame)? else {
        return Ok(None);
    };
    Ok(Some(Event {
        frame,
        turn: words.turn,
        node: words.node,
        kind: words.kind,
    }))
}

/// The object that has this text, None where no object has. Starts the frames of its path that are missing; where None
/// is answered `frames` stays, and after NoMemory it may have gained rows.
pub fn read_object(
    alloc: Global,
    frames: &mut Frames,
    text: &[u8],
) -> Result<Option<ObjName>, NoMemory>
    requires { length frames.old < 2 ^ 31 }
    ensures answer { IfOk result (λ found. MatchOption found (IsNoObjectText text.now) (λ o. object_text frames.new o ≡ text.now)) }
    ensures bounds { IfOk result (λ found. IfSome found (λ o. IsObject (object_name frames.new o))) }
    ensures frames { IfOk result (λ found. MatchOption found (frames.new ≡ frames.old) (λ o. ReachesObject frames.old frames.new o)) }
    ensures err { OnErr result (Extends frames.old frames.new) }
{
    if text == b"argv".as_slice() {
        return Ok(Some(ObjName::Argv));
    }
    let Some((word, rest)) = cut(text, b' ') else {
        return Ok(None);
    };
    let Some(sort) = sort_of(word) else {
        return Ok(None);
    };
    sorted_object(alloc, frames, sort, rest)
}

/// The sorts of objects whose text says more than a word.
#[derive(Clone, Copy)]
enum Sort {
    Static,
    Lit,
    Arg,
    Auto,
    Heap,
}

fn sort_of(word: &[u8]) -> Option<Sort>
    ensures { MatchOption result (IsNoSort word.now) (λ s. sort_text s ≡ word.now) }
{
    if word == b"static".as_slice() {
        Some(Sort::Static)
    } else if word == b"lit".as_slice() {
        Some(Sort::Lit)
    } else if word == b"arg".as_slice() {
        Some(Sort::Arg)
    } else if word == b"auto".as_slice() {
        Some(Sort::Auto)
    } else if word == b"heap".as_slice() {
        Some(Sort::Heap)
    } else {
        None
    }
}

/// The object of this sort of which this is the text behind the word and a space.
fn sorted_object(
    alloc: Global,
    frames: &mut Frames,
    sort: Sort,
    text: &[u8],
) -> Result<Option<ObjName>, NoMemory>
    requires { length frames.old < 2 ^ 31 }
    ensures answer { IfOk result (λ found. MatchOption found (IsNoObjectText (sort_text sort ++ (codes " " ++ text.now)))
        (λ o. object_text frames.new o ≡ sort_text sort ++ (codes " " ++ text.now))) }
    ensures bounds { IfOk result (λ found. IfSome found (λ o. IsObject (object_name frames.new o))) }
    ensures frames { IfOk result (λ found. MatchOption found (frames.new ≡ frames.old) (λ o. ReachesObject frames.old frames.new o)) }
    ensures err { OnErr result (Extends frames.old frames.new) }
{
    match sort {
        Sort::Static => match small_number(text) {
            Some(number) => Ok(Some(ObjName::Static(number))),
            None => Ok(None),
        },
        Sort::Lit => match small_number(text) {
            Some(number) => Ok(Some(ObjName::Lit(number))),
            None => Ok(None),
        },
        Sort::Arg => match small_number(text) {
            Some(number) => Ok(Some(ObjName::Arg(number))),
            None => Ok(None),
        },
        Sort::Auto => auto_object(alloc, frames, text),
        Sort::Heap => heap_object(alloc, frames, text),
    }
}

/// The automatic object of this place.
fn auto_object(alloc: Global, frames: &mut Frames, text: &[u8]) -> Result<Option<ObjName>, NoMemory>
    requires { length frames.old < 2 ^ 31 }
    ensures answer { IfOk result (λ found. MatchOption found (IsNoObjectText (codes "auto " ++ text.now))
        (λ o. object_text frames.new o ≡ codes "auto " ++ text.now)) }
    ensures bounds { IfOk result (λ found. IfSome found (λ o. IsObject (object_name frames.new o))) }
    ensures frames { IfOk result (λ found. MatchOption found (frames.new ≡ frames.old) (λ o. ReachesObject frames.old frames.new o)) }
    ensures err { OnErr result (Extends frames.old frames.new) }
{
    let Some(place) = read_place(alloc, frames, text)? else {
        return Ok(None);
    };
    Ok(Some(ObjName::Auto {
        frame: place.frame,
        turn: place.turn,
        decl: place.number,
    }))
}

/// The allocated object of this place.
fn heap_object(alloc: Global, frames: &mut Frames, text: &[u8]) -> Result<Option<ObjName>, NoMemory>
    requires { length frames.old < 2 ^ 31 }
    ensures answer { IfOk result (λ found. MatchOption found (IsNoObjectText (codes "heap " ++ text.now))
        (λ o. object_text frames.new o ≡ codes "heap " ++ text.now)) }
    ensures bounds { IfOk result (λ found. IfSome found (λ o. IsObject (object_name frames.new o))) }
    ensures frames { IfOk result (λ found. MatchOption found (frames.new ≡ frames.old) (λ o. ReachesObject frames.old frames.new o)) }
    ensures err { OnErr result (Extends frames.old frames.new) }
{
    let Some(place) = read_place(alloc, frames, text)? else {
        return Ok(None);
    };
    Ok(Some(ObjName::Heap {
        frame: place.frame,
        turn: place.turn,
        node: place.number,
    }))
}

/// A frame, a turn and a number that tells apart what that turn has.
#[derive(Clone, Copy)]
struct Place {
    frame: Frame,
    turn: u64,
    number: u32,
}

/// The place that has this text.
fn read_place(alloc: Global, frames: &mut Frames, text: &[u8]) -> Result<Option<Place>, NoMemory>
    requires { length frames.old < 2 ^ 31 }
    ensures answer { IfOk result (λ found. MatchOption found (IsNoPlaceText text.now)
        (λ p. frame_text (path_of frames.new p.frame.0) ++ numbers_text p.turn p.number ≡ text.now)) }
    ensures bounds { IfOk result (λ found. IfSome found (λ p. IsPlace (path_of frames.new p.frame.0) p.turn p.number)) }
    ensures frames { IfOk result (λ found. MatchOption found (frames.new ≡ frames.old) (λ p. Reaches frames.old frames.new p.frame.0)) }
    ensures err { OnErr result (Extends frames.old frames.new) }
{
    let Some(words) = place_words(text) else {
        return Ok(None);
    };
    let Some(frame) = read_frame(alloc, frames, words.frame)? else {
        return Ok(None);
    };
    Ok(Some(Place {
        frame,
        turn: words.turn,
        number: words.number,
    }))
}
