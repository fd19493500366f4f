// Whether two that are sought are one.
ghost use Rattle.std.specs.Prelude.{◌≡◌};
ghost use Rattle.trace_story.specs.Same.{same_row, same_place, same_sought};

use crate::told::Sought;
use addr_map::Row;

fn same_row(row: &Row, other: &Row) -> bool
    ensures { result ≡ same_row row.now other.now }
{
    row.name == other.name
        && (row.base == other.base && (row.size == other.size && row.align == other.align))
}

fn same_place(row: &Option<Row>, other: &Option<Row>) -> bool
    ensures { result ≡ same_place row.now other.now }
{
    match (row, other) {
        (Some(row), Some(other)) => same_row(row, other),
        (None, None) => true,
        _ => false,
    }
}

/// Two objects with their places are one.
pub fn same_sought(sought: &Sought, other: &Sought) -> bool
    ensures { result ≡ same_sought sought.now other.now }
{
    sought.object == other.object && same_place(&sought.row, &other.row)
}
