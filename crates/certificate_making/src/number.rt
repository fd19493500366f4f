// The frames that a certificate keeps, and their new numbers.
ghost use Rattle.std.specs.Prelude.{◌≡◌, ◌≤◌, ◌<◌, ◌-◌, ◌^◌, true, false, get_or, IfOk, length};
ghost use Rattle.ub_base.specs.Frames.{IsFrameList};
ghost use Rattle.certificate_making.specs.Making.{SameClaim};
ghost use Rattle.certificate_making.specs.Marking.{is_marked};
ghost use Rattle.certificate_making.specs.Numbering.{IsKept, IsNumbered, IsStarted, number, renamed_claim, renamed_event, renamed_name, renamed_row};

use addr_map::Row;
use certificate::Claim;
use std::alloc::Global;
use ub_base::{Event, Frame, Frames, NoMemory, ObjName};

/// Which number each frame gets, and how many are kept beside `main`, which keeps its 0.
#[derive(Drop)]
pub struct Numbering {
    pub numbers: Vec<u32>,
    pub count: u32,
}

// The new number of a frame, where so many are kept.
fn number(numbers: &[u32], count: u32, frame: Frame) -> u32
    ensures { result ≡ number numbers.now count frame.0 }
{
    numbers
        .get(frame.0 as usize)
        .copied()
        .unwrap_or(0)
        .min(count)
}

impl Numbering {
    fn frame(&self, frame: Frame) -> Frame
        ensures { result.0 ≡ number self.now.numbers.items self.now.count frame.0 }
    {
        Frame(number(&self.numbers, self.count, frame))
    }

    fn event(&self, event: Event) -> Event
        ensures { result ≡ renamed_event self.now.numbers.items self.now.count event }
    {
        Event {
            frame: self.frame(event.frame),
            ..event
        }
    }

    fn name(&self, name: ObjName) -> ObjName
        ensures { result ≡ renamed_name self.now.numbers.items self.now.count name }
    {
        match name {
            ObjName::Auto { frame, turn, decl } => ObjName::Auto {
                frame: self.frame(frame),
                turn,
                decl,
            },
            ObjName::Heap { frame, turn, node } => ObjName::Heap {
                frame: self.frame(frame),
                turn,
                node,
            },
            other => other,
        }
    }

    /// The row, its frame by its new number.
    pub fn row(&self, row: Row) -> Row
        ensures { result ≡ renamed_row self.now.numbers.items self.now.count row }
    {
        Row {
            name: self.name(row.name),
            ..row
        }
    }

    /// The claim, the frames of its events by their new numbers.
    pub fn claim(&self, claim: Claim) -> Claim
        ensures { result ≡ renamed_claim self.now.numbers.items self.now.count claim }
    {
        match claim {
            Claim::Undefined {
                clause,
                pair: Some((event, against)),
            } => Claim::Undefined {
                clause,
                pair: Some((self.event(event), self.event(against))),
            },
            Claim::OrderDependent { event, against } => Claim::OrderDependent {
                event: self.event(event),
                against: self.event(against),
            },
            other => other,
        }
    }
}

// The frame of this row, which is added where it is missing.
fn started(frames: &mut Frames, parent: Frame, turn: u64, node: u32) -> Result<u32, NoMemory>
    requires parent { parent.0 ≤ length frames.old }
    requires room { length frames.old < 2 ^ 32 - 1 }
    ensures { IfOk result (IsStarted frames.old frames.new (parent, turn, node)) }
{
    match frames.find(parent, turn, node) {
        Some(frame) => Ok(frame.0),
        None => Ok(frames.call(parent, turn, node)?.0),
    }
}

// The new number of the frame of this row: that of the kept frame, or 0 where it isn't marked.
fn kept_number(
    kept: &mut Frames,
    is_kept: bool,
    parent: Frame,
    turn: u64,
    node: u32,
) -> Result<u32, NoMemory>
    requires parent { parent.0 ≤ length kept.old }
    requires room { length kept.old < 2 ^ 32 - 1 }
    ensures { IfOk result (IsKept is_kept kept.old kept.new (parent, turn, node)) }
{
    if is_kept {
        started(kept, parent, turn, node)
    } else {
        Ok(0)
    }
}

/// The frames that are marked, in their order, and their new numbers.
pub fn numbered(
    alloc: Global,
    frames: &Frames,
    marks: &[bool],
) -> Result<(Frames, Numbering), NoMemory>
    ensures numbers { IfOk result (λ made. IsNumbered frames.now marks.now (length frames.now) made.0 made.1.numbers.items) }
    ensures count { IfOk result (λ made. made.1.count ≡ length made.0) }
    ensures rows { IfOk result (λ made. IsFrameList made.0) }
    ensures all { IfOk result (λ made. IsFrameList frames.now) }
{
    let mut kept = Frames::new(alloc);
    let mut numbers = vec![in alloc; 0u32]?;
    for at in 0..frames.len() {
        let (parent, turn, node) = frames.row(Frame(at + 1));
        let parent = Frame(number(&numbers, kept.len(), parent));
        let is_kept = marks.get(at as usize + 1).copied().unwrap_or(false);
        numbers.push(kept_number(&mut kept, is_kept, parent, turn, node)?)?;
    }
    let count = kept.len();
    Ok((kept, Numbering { numbers, count }))
}
