// Rows that follow one another at even steps.
ghost use Rattle.std.specs.Prelude.{◌≡◌, ◌+◌, ◌*◌, ◌^◌, nat_lt};
ghost use Rattle.certificate_text.specs.Reading.{kept, moved_name, row_at};

use addr_map::Row;
use ub_base::ObjName;

/// The end of the numbers of a certificate (own).
pub const NUMBER_END: u64 = 1 << 63;

/// The most rows that a map may stand for (own).
pub const MAX_ROWS: usize = 4_194_304;

fn raised(number: u32, by: u64) -> Option<u32>
    ensures { result ≡ kept (λ n. nat_lt n (2 ^ 32)) (number + by) }
{
    let sum = u64::from(number).checked_add(by)?;
    if sum < 1 << 32 {
        Some(sum as u32)
    } else {
        None
    }
}

fn raised_turn(turn: u64, by: u64) -> Option<u64>
    ensures { result ≡ kept (λ n. nat_lt n (2 ^ 63)) (turn + by) }
{
    let sum = turn.checked_add(by)?;
    if sum < NUMBER_END { Some(sum) } else { None }
}

// The name with its moving number raised: the number of a static, a literal or an argument, and the turn of the others.
fn moved_name(name: ObjName, by: u64) -> Option<ObjName>
    ensures { result ≡ moved_name name by }
{
    match name {
        ObjName::Static(k) => Some(ObjName::Static(raised(k, by)?)),
        ObjName::Lit(k) => Some(ObjName::Lit(raised(k, by)?)),
        ObjName::Argv => None,
        ObjName::Arg(k) => Some(ObjName::Arg(raised(k, by)?)),
        ObjName::Auto { frame, turn, decl } => Some(ObjName::Auto {
            frame,
            turn: raised_turn(turn, by)?,
            decl,
        }),
        ObjName::Heap { frame, turn, node } => Some(ObjName::Heap {
            frame,
            turn: raised_turn(turn, by)?,
            node,
        }),
    }
}

/// How far the rows of a run stand apart: the bases, and the moving numbers of the names.
#[derive(Clone, Copy, PartialEq, Eq)]
pub struct Stride {
    pub step: u64,
    pub raise: u64,
}

// The base of the row of this number in a run.
fn moved_base(base: u64, step: u64, at: u64) -> Option<u64>
    ensures { result ≡ kept (λ n. nat_lt n (2 ^ 63)) (base + at * step) }
{
    let base = base.checked_add(at.checked_mul(step)?)?;
    if base < NUMBER_END { Some(base) } else { None }
}

// The name of the row of this number in a run.
fn name_at(name: ObjName, raise: u64, at: u64) -> Option<ObjName>
    ensures { result ≡ moved_name name (at * raise) }
{
    match at.checked_mul(raise) {
        Some(by) => moved_name(name, by),
        None => None,
    }
}

/// The row of this number in a run that begins with `first`, counted from 0; none where a number of it would pass its
/// bound.
pub fn row_at(first: Row, stride: Stride, at: u64) -> Option<Row>
    ensures { result ≡ row_at first stride at }
{
    let base = moved_base(first.base, stride.step, at)?;
    let name = name_at(first.name, stride.raise, at)?;
    Some(Row {
        name,
        base,
        size: first.size,
        align: first.align,
    })
}

/// A run of rows: how many, their stride, and the first.
#[derive(Clone, Copy, PartialEq, Eq)]
pub struct Run {
    pub count: u64,
    pub stride: Stride,
    pub first: Row,
}
