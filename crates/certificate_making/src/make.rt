// The certificate of an audit.
ghost use Rattle.std.specs.Prelude.{◌≡◌, ◌≤◌, ◌<◌, ◌+◌, ◌^◌, IfOk, length, map as map_list};
ghost use Rattle.certificate.specs.Form.{HasForm};
ghost use Rattle.certificate.specs.declared.cert.Version.TheVariants.{Two};
ghost use Rattle.certificate_making.specs.Making.{HasNeeded, IsOfRun, KeepsPaths, Rises, SameClaim, canonical_order, unframed, whole};
ghost use Rattle.certificate_making.specs.Numbering.{renamed_row};

use crate::keep::marks_of;
use crate::number::{Numbering, numbered};
use addr_map::{AddrMap, Row};
use certificate::{Cert, Claim, Rows, Segment, Segments};
use std::alloc::Global;
use ub_base::{Frames, Items, NoMemory};

// The rows of a map, in the order of their bases.
fn rows_of(alloc: Global, map: &AddrMap) -> Result<Vec<Row>, NoMemory>
    ensures { Rises 0 map.now → IfOk result (λ rows. rows.items ≡ map.now) }
{
    let mut rows = Vec::new(alloc);
    let mut from = 0;
    for _turn in 0..u64::MAX {
        match map.next(from) {
            Some(row) => {
                rows.push(row)?;
                from = row.base.saturating_add(1);
            }
            None => return Ok(rows),
        }
    }
    Ok(rows)
}

fn renamed_rows(alloc: Global, rows: &[Row], numbering: &Numbering) -> Result<Rows, NoMemory>
    ensures { IfOk result (λ renamed. renamed ≡ map_list (renamed_row numbering.now.numbers.items numbering.now.count) rows.now) }
{
    let mut renamed = Items::new(alloc);
    for row in rows {
        renamed.push(numbering.row(*row))?;
    }
    Ok(renamed)
}

// So many picks of the canonical order.
fn order_of(alloc: Global, picks: u64) -> Result<Segments, NoMemory>
    ensures { IfOk result (λ order. order ≡ canonical_order picks) }
{
    let mut order = Items::new(alloc);
    if picks > 0 {
        order.push(Segment::Canonical(picks))?;
    }
    Ok(order)
}

/// The certificate of an audit that made this claim after so many picks of the canonical order, under this map and with
/// these frames. The frames that a row or the claim names, and those that started them, keep their order.
pub fn of_audit(
    alloc: Global,
    claim: Claim,
    picks: u64,
    map: &AddrMap,
    frames: &Frames,
) -> Result<Cert, NoMemory>
    // The rows and the claim are those of the run, but for the numbers of frames.
    ensures rows { Rises 0 map.now → IfOk result (λ c. map_list unframed c.map ≡ map_list unframed map.now) }
    ensures order { IfOk result (λ c. c.order ≡ canonical_order picks) }
    ensures claim { IfOk result (λ c. SameClaim claim c.claim) }
    // They name the same frames as before.
    ensures paths { IsOfRun frames.now map.now claim → IfOk result (KeepsPaths frames.now map.now claim) }
    // No other frame is kept than those that they name and those that started them.
    ensures frames { IfOk result (λ c. length c.frames ≤ length frames.now) }
    ensures needed { IsOfRun frames.now map.now claim → IfOk result HasNeeded }
    // Where all frames together keep the form of version 2, these do.
    ensures form { IsOfRun frames.now map.now claim → HasForm Two (whole frames.now map.now picks claim) → IfOk result (HasForm Two) }
{
    let rows = rows_of(alloc, map)?;
    let marks = marks_of(alloc, &rows, &claim, frames)?;
    let (frames, numbering) = numbered(alloc, frames, &marks)?;
    Ok(Cert {
        frames,
        map: renamed_rows(alloc, &rows, &numbering)?,
        order: order_of(alloc, picks)?,
        claim: numbering.claim(claim),
    })
}
