// The longest run of rows that follow one another at even steps.
ghost use Rattle.std.specs.Prelude.{◌≡◌, ◌↔◌, ◌≤◌, ◌<◌, ℕ, length, take, Some, None, IfSome, IsTrue};
ghost use Rattle.certificate_text.specs.Reading.{row_at, run_rows};
ghost use Rattle.certificate_text.specs.declared.row.Run.{Run};
ghost use Rattle.certificate_text.specs.declared.row.Stride.{Stride};
ghost use Rattle.certificate_writing.specs.Writing.{moving, BeginsWith, IsLongest};

use addr_map::Row;
use certificate_text::{Run, Stride, row_at};
use ub_base::ObjName;

// The moving number of a name.
fn moving(name: ObjName) -> u64
    ensures { result ≡ moving name }
{
    match name {
        ObjName::Static(k) | ObjName::Lit(k) | ObjName::Arg(k) => u64::from(k),
        ObjName::Argv => 0,
        ObjName::Auto { turn, .. } | ObjName::Heap { turn, .. } => turn,
    }
}

// The stride of a run whose first two rows are these.
fn stride_of(first: Row, second: Row) -> Option<Stride>
    ensures apart { IfSome result (λ stride. 0 < stride.step) }
    ensures only { (stride : Stride) → 0 < stride.step → row_at first stride 1 ≡ Some second → result ≡ Some stride }
{
    let step = second.base.checked_sub(first.base)?;
    let raise = moving(second.name).checked_sub(moving(first.name))?;
    if step == 0 {
        return None;
    }
    Some(Stride { step, raise })
}

/// The longest run with which these rows begin, where it has at least 3.
pub fn longest_run(rows: &[Row]) -> Option<Run>
    ensures found { IfSome result (IsLongest rows.now) }
    ensures three { IfSome result (λ run. 3 ≤ run.count) }
    ensures within { IfSome result (λ run. run.count ≤ length rows.now) }
    ensures short { result ≡ None → (run : Run) → BeginsWith rows.now run → run.count < 3 }
{
    if rows.len() < 3 {
        return None;
    }
    let first = rows[0];
    let stride = stride_of(first, rows[1])?;
    let count = run_len(first, stride, rows);
    if count < 3 {
        return None;
    }
    Some(Run {
        count: count as u64,
        stride,
        first,
    })
}

fn is_row(made: Option<Row>, row: Row) -> bool
    ensures { IsTrue result ↔ (made ≡ Some row) }
{
    made == Some(row)
}

// How many rows stand in the run that begins with `first`.
fn run_len(first: Row, stride: Stride, rows: &[Row]) -> usize
    ensures stands { run_rows first stride 0 result ≡ Some (take result rows.now) }
    ensures within { result ≤ length rows.now }
    ensures longest { (count : ℕ) → run_rows first stride 0 count ≡ Some (take count rows.now) → count ≤ result }
{
    for at in 0..rows.len() {
        if !is_row(row_at(first, stride, at as u64), rows[at]) {
            return at;
        }
    }
    rows.len()
}
