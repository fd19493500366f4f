// A certificate from its text.
ghost use Rattle.std.specs.Prelude.{◌≡◌, IfOk, IfErr, string_bytes};
ghost use Rattle.std.specs.BTreeMap.{keys};
ghost use Rattle.std.specs.List.{list_all};
ghost use Rattle.serde_json.specs.View.{view};
ghost use Rattle.certificate.specs.Form.{IsInForm};
ghost use Rattle.certificate_text.specs.Reading.{version_in, verdict_in, is_member, is_root, cert_in, Answers, IsJsonOf, States, IsRefused, parts_in};

use crate::read_claim::read_claim;
use crate::read_frames::read_frames;
use crate::read_map::read_map;
use crate::read_order::read_order;
use crate::words::{Verdict, is_member, verdict_of};
use certificate::{Cert, CertFault, Field, Version};
use serde_json::{Map, Value};
use std::alloc::Global;

// The value of a text.
fn parsed(alloc: Global, text: &[u8]) -> Result<Value, CertFault>
    ensures value { IfOk result (λ value. IsJsonOf text.now (view value)) }
    ensures refused { IfErr result (IsRefused text.now) }
{
    let Ok(text) = std::str::from_utf8(text) else {
        return Err(CertFault::NotJson);
    };
    match Value::from_str(alloc, text) {
        Ok(value) => Ok(value),
        Err(fault) => {
            if fault.is_memory() {
                Err(CertFault::NoMemory)
            } else {
                Err(CertFault::NotJson)
            }
        }
    }
}

// Whether a certificate of this verdict has all of these members.
fn has_members(members: &Map<String, Value>, verdict: Option<Verdict>) -> bool
    ensures { result ≡ list_all (λ name. is_member verdict (string_bytes name)) (keys members.now) }
{
    members.keys().all(|name| is_member(verdict, name.as_str()))
}

// Whether the value is an object whose members a certificate of this verdict has.
fn is_root(value: &Value, verdict: Option<Verdict>) -> bool
    ensures { result ≡ is_root verdict (view value.now) }
{
    match value.as_object() {
        Some(members) => has_members(members, verdict),
        None => false,
    }
}

fn version_of(value: &Value) -> Option<Version>
    ensures { result ≡ version_in (view value.now) }
{
    match value.get("version")?.as_u64()? {
        1 => Some(Version::One),
        2 => Some(Version::Two),
        _ => None,
    }
}

fn verdict(value: &Value) -> Option<Verdict>
    ensures { result ≡ verdict_in (view value.now) }
{
    verdict_of(value.get("verdict")?.as_str()?)
}

// The parts after the verdict.
fn read_parts(
    alloc: Global,
    value: &Value,
    version: Version,
    verdict: Verdict,
) -> Result<Cert, CertFault>
    ensures { Answers (parts_in version verdict (view value.now)) result }
{
    let frames = read_frames(alloc, value)?;
    let count = frames.len();
    let map = read_map(alloc, value, version, count)?;
    let order = read_order(alloc, value, version, verdict)?;
    let claim = read_claim(alloc, value, verdict, count)?;
    Ok(Cert {
        frames,
        map,
        order,
        claim,
    })
}

// The certificate that a value states.
fn read_value(alloc: Global, value: &Value) -> Result<Cert, CertFault>
    ensures { Answers (cert_in (view value.now)) result }
{
    let verdict = verdict(value);
    if !is_root(value, verdict) {
        return Err(CertFault::BadShape(Field::Root));
    }
    let Some(version) = version_of(value) else {
        return Err(CertFault::BadShape(Field::Version));
    };
    let Some(verdict) = verdict else {
        return Err(CertFault::BadShape(Field::Verdict));
    };
    read_parts(alloc, value, version, verdict)
}

/// The certificate that a text states. Versions 1 and 2 are read.
pub fn from_json(alloc: Global, text: &[u8]) -> Result<Cert, CertFault>
    ensures states { IfOk result (States text.now) }
    ensures form { IfOk result IsInForm }
    ensures refused { IfErr result (IsRefused text.now) }
{
    let value = parsed(alloc, text)?;
    read_value(alloc, &value)
}
