// The words of a certificate's text.
ghost use Rattle.std.specs.Prelude.{◌≡◌};
ghost use Rattle.certificate_text.specs.Reading.{verdict_named, kind_named, cause_named, is_member, is_further, is_common, is_of_clean, is_of_undefined};
ghost use Rattle.certificate_text.specs.Reading.{is_of_outside};

use ub_base::{Cause, Kind};

/// The verdict that a certificate claims.
#[derive(Clone, Copy, PartialEq, Eq)]
pub enum Verdict {
    Clean,
    Undefined,
    OrderDependent,
    OutOfSteps,
    Outside,
}

pub fn verdict_of(text: &str) -> Option<Verdict>
    ensures { result ≡ verdict_named text.now }
{
    if text == "clean" {
        Some(Verdict::Clean)
    } else if text == "undefined" {
        Some(Verdict::Undefined)
    } else if text == "order-dependent" {
        Some(Verdict::OrderDependent)
    } else if text == "out-of-steps" {
        Some(Verdict::OutOfSteps)
    } else if text == "outside" {
        Some(Verdict::Outside)
    } else {
        None
    }
}

/// Whether a certificate of this verdict has a member of this name; of an unknown verdict, whether any has.
pub fn is_member(verdict: Option<Verdict>, name: &str) -> bool
    ensures { result ≡ is_member verdict name.now }
{
    is_common(name) || is_further(verdict, name)
}

fn is_further(verdict: Option<Verdict>, name: &str) -> bool
    ensures { result ≡ is_further verdict name.now }
{
    match verdict {
        Some(Verdict::Clean) => is_of_clean(name),
        Some(Verdict::Undefined) => is_of_undefined(name),
        Some(Verdict::OrderDependent) => name == "pair",
        Some(Verdict::OutOfSteps) => false,
        Some(Verdict::Outside) => is_of_outside(name),
        None => is_of_clean(name) || is_of_undefined(name) || is_of_outside(name),
    }
}

fn is_common(name: &str) -> bool
    ensures { result ≡ is_common name.now }
{
    name == "version" || name == "verdict" || name == "frames" || name == "map" || name == "order"
}

fn is_of_clean(name: &str) -> bool
    ensures { result ≡ is_of_clean name.now }
{
    name == "output" || name == "status"
}

fn is_of_undefined(name: &str) -> bool
    ensures { result ≡ is_of_undefined name.now }
{
    name == "clause" || name == "pair"
}

fn is_of_outside(name: &str) -> bool
    ensures { result ≡ is_of_outside name.now }
{
    name == "cause" || name == "number"
}

pub fn kind_of(text: &str) -> Option<Kind>
    ensures { result ≡ kind_named text.now }
{
    if text == "val" {
        Some(Kind::Val)
    } else if text == "eff" {
        Some(Kind::Eff)
    } else if text == "body" {
        Some(Kind::Body)
    } else {
        None
    }
}

pub fn cause_of(text: &str) -> Option<Cause>
    ensures { result ≡ cause_named text.now }
{
    if text == "output" {
        Some(Cause::Output)
    } else if text == "created" {
        Some(Cause::Created)
    } else if text == "depth" {
        Some(Cause::Depth)
    } else if text == "conversion" {
        Some(Cause::Conversion)
    } else if text == "directive" {
        Some(Cause::Directive)
    } else {
        None
    }
}
