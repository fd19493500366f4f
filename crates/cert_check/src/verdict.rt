// The check of a certificate.
ghost use Rattle.std.specs.Prelude.{◌≡◌, ◌≢◌, ◌↔◌, [], None, true, IfOk};
ghost use Rattle.certificate.specs.declared.answer.Answer.TheVariants.{Yes, No};
ghost use Rattle.certificate.specs.declared.answer.Part.TheVariants.{Map};
ghost use Rattle.cert_check.specs.Parts.{NamesRace, added, is_formed, is_none, is_of_form, is_one, is_within, picks_of};

use crate::claim::{Witness, claim_holds};
use crate::run::{Course, Run};
use addr_map::{AddrMap, Row};
use c_typed::{Place, Program};
use certificate::{Answer, Cert, Claim, Part, Segment};
use core_ir::Core;
use elaborate::{elaborate, roots_of};
use prov_memory::Memory;
use run_machine::{Code, Halt, MOST_CREATED, Machine, code_of, prepare};
use run_standing::start_bytes;
use std::alloc::Global;
use ub_base::{Bytes, Cause, NoMemory, ObjName};

// How many picks an order may have (own).
const MOST_PICKS: u64 = 100_000_000;

/// Whether a certificate holds for a program's runs on this input, with these arguments behind the program's name: that
/// its rows are those of an address map, that its order is permitted under that map, and that its claim is so.
pub fn check(
    alloc: Global,
    p: &Program,
    input: &[u8],
    args: &[String],
    c: &Cert,
) -> Result<Answer, NoMemory>
    // The map is refused exactly where a row breaks a rule.
    ensures map { IfOk result (λ a. (a ≡ No Map) ↔ (added [] c.now.map ≡ None)) }
    // Only orders of the form that the claim asks for are answered Yes.
    ensures form { IfOk result (λ a. a ≡ Yes → is_formed c.now.claim c.now.order ≡ true) }
    // A pair of undefined behaviour is a race.
    ensures race { IfOk result (λ a. a ≡ Yes → NamesRace c.now.claim) }
{
    let Some(map) = map_of(alloc, c.map.as_slice())? else {
        return Ok(Answer::No(Part::Map));
    };
    if !is_formed(c) || !names_listed(c) {
        return Ok(Answer::No(Part::Order));
    }
    let reached = start_bytes(p, args);
    if reached > MOST_CREATED {
        return Ok(unstarted(c, reached));
    }
    lowered(alloc, p, input, args, map, c)
}

// The answer to a certificate of this form, whose rows are those of a map.
fn lowered(
    alloc: Global,
    p: &Program,
    input: &[u8],
    args: &[String],
    map: AddrMap,
    c: &Cert,
) -> Result<Answer, NoMemory>
    ensures map { IfOk result (λ a. a ≢ No Map) }
    ensures race { IfOk result (λ a. a ≡ Yes → NamesRace c.now.claim) }
{
    let core = elaborate(alloc, p)?;
    laid_out(alloc, p, core.terms.items.as_slice(), input, args, map, c)
}

// The same of a program with these terms.
fn laid_out(
    alloc: Global,
    p: &Program,
    terms: &[Core],
    input: &[u8],
    args: &[String],
    map: AddrMap,
    c: &Cert,
) -> Result<Answer, NoMemory>
    ensures map { IfOk result (λ a. a ≢ No Map) }
    ensures race { IfOk result (λ a. a ≡ Yes → NamesRace c.now.claim) }
{
    let code = code_of(alloc, p, terms)?;
    prepared(alloc, p, &code, input, args, map, c)
}

// The same of a program with this code.
fn prepared(
    alloc: Global,
    p: &Program,
    code: &Code,
    input: &[u8],
    args: &[String],
    map: AddrMap,
    c: &Cert,
) -> Result<Answer, NoMemory>
    ensures map { IfOk result (λ a. a ≢ No Map) }
    ensures race { IfOk result (λ a. a ≡ Yes → NamesRace c.now.claim) }
{
    let input = Bytes::from_slice(alloc, input)?;
    let memory = Memory::with_map(alloc, map, None);
    match prepare(alloc, p, code, input, args, memory) {
        Ok(machine) => begun(alloc, p, machine, c),
        Err(Halt::NoMemory) => Err(NoMemory),
        Err(_) => Ok(Answer::No(Part::Order)),
    }
}

// The map of these rows, None where one of them breaks a rule.
fn map_of(alloc: Global, rows: &[Row]) -> Result<Option<AddrMap>, NoMemory>
    ensures { IfOk result (λ map. map ≡ added [] rows.now) }
{
    let mut map = AddrMap::new(alloc);
    for row in rows {
        if !map.add(*row)? {
            return Ok(None);
        }
    }
    Ok(Some(map))
}

// Whether the order has the form that its claim asks for, at most so many picks, and no empty stretch.
fn is_formed(c: &Cert) -> bool
    ensures { result ≡ is_formed c.now.claim c.now.order }
{
    let order = c.order.as_slice();
    is_of_form(&c.claim, order) && is_within(order)
}

fn is_of_form(claim: &Claim, order: &[Segment]) -> bool
    ensures { result ≡ is_of_form claim.now order.now }
{
    match claim {
        Claim::Undefined { .. } => true,
        Claim::Outside { .. } => order.is_empty() || is_one(order),
        _ => is_one(order),
    }
}

// Whether the order is one canonical stretch.
fn is_one(order: &[Segment]) -> bool
    ensures { result ≡ is_one order.now }
{
    match order {
        [Segment::Canonical(_)] => true,
        _ => false,
    }
}

fn picks_of(segment: &Segment) -> u64
    ensures { result ≡ picks_of segment.now }
{
    match segment {
        Segment::Canonical(count) => *count,
        Segment::Pick { .. } => 1,
    }
}

fn is_within(order: &[Segment]) -> bool
    ensures { result ≡ is_within 100000000 order.now }
{
    let mut left = MOST_PICKS;
    for segment in order {
        let count = picks_of(segment);
        if count == 0 || count > left {
            return false;
        }
        left -= count;
    }
    true
}

// Whether the frames that the rows and the claim name are listed.
fn names_listed(c: &Cert) -> bool {
    let count = c.frames.len();
    for row in c.map.as_slice() {
        if frame_of(row.name) > count {
            return false;
        }
    }
    match &c.claim {
        Claim::Undefined {
            clause: _,
            pair: Some((event, against)),
        }
        | Claim::OrderDependent { event, against } => {
            event.frame.0 <= count && against.frame.0 <= count
        }
        _ => true,
    }
}

// The number of the frame that a name has, that of `main` where it has none.
fn frame_of(name: ObjName) -> u32 {
    match name {
        ObjName::Auto { frame, .. } | ObjName::Heap { frame, .. } => frame.0,
        _ => 0,
    }
}

// The answer where the start passes the limit on created bytes.
fn unstarted(c: &Cert, reached: u64) -> Answer
    ensures map { result ≢ No Map }
    ensures race { result ≡ Yes → NamesRace c.now.claim }
{
    match &c.claim {
        Claim::Outside { cause, number } => {
            if !c.order.is_empty() {
                Answer::No(Part::Order)
            } else if *cause == Cause::Created && *number == reached {
                Answer::Yes
            } else {
                Answer::No(Part::Claim)
            }
        }
        _ => Answer::No(Part::Order),
    }
}

// The same of a run that is at its start.
fn begun(alloc: Global, p: &Program, machine: Machine, c: &Cert) -> Result<Answer, NoMemory>
    ensures map { IfOk result (λ a. a ≢ No Map) }
    ensures race { IfOk result (λ a. a ≡ Yes → NamesRace c.now.claim) }
{
    let mut run = Run {
        machine,
        frames: &c.frames,
        last: c.frames.len(),
    };
    watched(alloc, p, &mut run, c)
}

fn watched(alloc: Global, p: &Program, run: &mut Run, c: &Cert) -> Result<Answer, NoMemory>
    ensures map { IfOk result (λ a. a ≢ No Map) }
    ensures race { IfOk result (λ a. a ≡ Yes → NamesRace c.now.claim) }
{
    let roots = roots_of(alloc, p)?;
    let mut witness = Witness::of(alloc, roots.as_slice(), &c.claim)?;
    follow(run, &mut witness, c)
}

fn follow(run: &mut Run, witness: &mut Witness, c: &Cert) -> Result<Answer, NoMemory>
    ensures map { IfOk result (λ a. a ≢ No Map) }
    ensures race { IfOk result (λ a. a ≡ Yes → NamesRace c.now.claim) }
{
    let course = led(run, witness, c.order.as_slice())?;
    if course == Course::Broken {
        return Ok(Answer::No(Part::Order));
    }
    if claim_holds(&mut run.machine, witness, course, &c.claim)? {
        Ok(Answer::Yes)
    } else {
        Ok(Answer::No(Part::Claim))
    }
}

// How far the order leads.
fn led(run: &mut Run, witness: &mut Witness, order: &[Segment]) -> Result<Course, NoMemory> {
    let mut course = Course::Going;
    for segment in order {
        course = match segment {
            Segment::Canonical(count) => run.stretch(witness, course, *count)?,
            Segment::Pick { node, kind } => {
                let place = Place {
                    node: *node,
                    kind: *kind,
                };
                run.single(witness, course, place)?
            }
        };
        if course == Course::Broken {
            return Ok(course);
        }
    }
    Ok(course)
}
