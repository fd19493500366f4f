// Lines of source with carets under them.
ghost use Rattle.std.specs.Prelude.{◌≡◌};
ghost use Rattle.explain_page.specs.Columns.{caret_under};

use crate::page::{Page, Stretch, part};
use crate::pieces::piece_from;
use crate::shown::{column_behind, put_number, put_shown, put_times, width_of};
use crate::written::Lined;
use explain_places::{definition_before, line_end, line_number, line_start};
use ub_base::{Bytes, NoMemory};

/// A stretch of the text and what stands behind its carets.
#[derive(Clone, Copy)]
pub struct Mark<'m> {
    pub stretch: Stretch,
    pub number: u8,
    pub does: &'m [u8],
}

// A line, or a part of one: the offset in the text at which it begins, and the blanks before it where it is shown.
#[derive(Clone, Copy)]
struct Line<'t> {
    start: usize,
    bytes: &'t [u8],
    indent: usize,
}

fn line_at<'t>(text: &'t [u8], at: usize) -> Line<'t> {
    let start = line_start(text, at);
    Line {
        start,
        bytes: part(text, start, line_end(text, at)),
        indent: 0,
    }
}

// How many digits a number has, up to 10.
fn digits_of(number: u32) -> usize {
    let mut rest = number / 10;
    let mut count = 1usize;
    for _ in 0..9 {
        if rest > 0 {
            count = count.saturating_add(1);
        }
        rest /= 10;
    }
    count
}

fn put_source_line(out: &mut Bytes, number: u32, line: &[u8]) -> Result<(), NoMemory> {
    put_times(out, b' ', 5usize.saturating_sub(digits_of(number)))?;
    put_number(out, u64::from(number))?;
    out.append(b" | ")?;
    put_shown(out, line)?;
    out.push(b'\n')
}

// What stands under a byte of the text.
fn caret_under(stretch: &Stretch, at: usize) -> u8
    ensures { result ≡ caret_under stretch.now at }
{
    if at < stretch.start {
        b' '
    } else if at >= stretch.operator && at < stretch.operator_end {
        b'^'
    } else {
        b'~'
    }
}

// The columns of the carets: up to the end of the stretch, or of the line.
fn columns_of(line: &Line<'_>, stretch: &Stretch) -> usize {
    let width = width_of(part(line.bytes, 0, stretch.end.saturating_sub(line.start)));
    line.indent.saturating_add(width)
}

fn put_carets(out: &mut Bytes, line: &Line<'_>, stretch: &Stretch) -> Result<(), NoMemory> {
    put_times(out, b' ', line.indent)?;
    let mut column = 0usize;
    let marked = part(line.bytes, 0, stretch.end.saturating_sub(line.start));
    for (i, byte) in marked.iter().enumerate() {
        let next = column_behind(column, *byte);
        let caret = caret_under(stretch, line.start.saturating_add(i));
        put_times(out, caret, next.saturating_sub(column))?;
        column = next;
    }
    Ok(())
}

fn put_row(
    out: &mut Bytes,
    line: &Line<'_>,
    mark: &Mark<'_>,
    columns: usize,
) -> Result<(), NoMemory> {
    out.append(b"      | ")?;
    put_carets(out, line, &mark.stretch)?;
    let blanks = columns.saturating_sub(columns_of(line, &mark.stretch));
    put_times(out, b' ', blanks.saturating_add(2))?;
    put_number(out, u64::from(mark.number))?;
    out.push(b' ')?;
    out.append(mark.does)?;
    out.push(b'\n')
}

// Two stretches of one line, or one.
fn put_rows(
    out: &mut Bytes,
    line: &Line<'_>,
    first: &Mark<'_>,
    second: Option<&Mark<'_>>,
) -> Result<(), NoMemory> {
    let columns = columns_of(line, &first.stretch);
    let Some(second) = second else {
        return put_row(out, line, first, columns);
    };
    let columns = columns.max(columns_of(line, &second.stretch));
    put_row(out, line, first, columns)?;
    put_row(out, line, second, columns)
}

// The stretch in the written line, where it stands there.
fn written_stretch(lined: &Lined<'_>, stretch: &Stretch) -> Option<Stretch> {
    Some(Stretch {
        start: lined.begin_of(stretch.start)?,
        end: lined.end_of(stretch.end)?,
        operator: lined.begin_of(stretch.operator)?,
        operator_end: lined.end_of(stretch.operator_end)?,
        line: stretch.line,
    })
}

fn written_mark<'m>(lined: &Lined<'_>, mark: &Mark<'m>) -> Option<Mark<'m>> {
    let stretch = written_stretch(lined, &mark.stretch)?;
    Some(Mark { stretch, ..*mark })
}

// The written line with the marks under it; nothing where one doesn't stand in it.
fn put_written(
    out: &mut Bytes,
    lined: &Lined<'_>,
    first: &Mark<'_>,
    second: Option<&Mark<'_>>,
) -> Result<bool, NoMemory> {
    let Some(one) = written_mark(lined, first) else {
        return Ok(false);
    };
    let line = Line {
        start: 0,
        bytes: lined.written,
        indent: 0,
    };
    let Some(second) = second else {
        put_source_line(out, one.stretch.line, lined.written)?;
        put_rows(out, &line, &one, None)?;
        return Ok(true);
    };
    let Some(other) = written_mark(lined, second) else {
        return Ok(false);
    };
    put_source_line(out, one.stretch.line, lined.written)?;
    put_rows(out, &line, &one, Some(&other))?;
    Ok(true)
}

// Whether the mark stands in what isn't alike in the line of the text.
fn is_expanded(lined: &Lined<'_>, mark: &Mark<'_>) -> bool {
    let alone = lined.made_alone();
    mark.stretch.start >= lined.start.saturating_add(alone.start)
        && mark.stretch.end <= lined.start.saturating_add(alone.end)
}

// Adds where the macro is defined whose name this piece of a written line begins with, where a line of the text tells it.
fn put_macro(out: &mut Bytes, page: &Page<'_, '_>, name: &[u8], at: usize) -> Result<(), NoMemory> {
    let Some(found) = definition_before(page.text, name, at) else {
        return out.append(b" to\n");
    };
    out.append(b", by ")?;
    page.put_place(out, found, line_number(page.text, found))?;
    out.append(b", to\n")
}

// Adds the written line with `~` under what is expanded, and what it is expanded to.
fn put_expansion(
    out: &mut Bytes,
    page: &Page<'_, '_>,
    lined: &Lined<'_>,
    first: &Mark<'_>,
    second: Option<&Mark<'_>>,
) -> Result<(), NoMemory> {
    let written = lined.written_alone();
    let made = lined.made_alone();
    let name = piece_from(lined.written, written.start);
    let indent = width_of(part(lined.written, 0, written.start));
    let width = width_of(part(lined.written, 0, written.end));
    let line = Line {
        start: lined.start.saturating_add(made.start),
        bytes: part(lined.made, made.start, made.end),
        indent,
    };
    put_source_line(out, first.stretch.line, lined.written)?;
    out.append(b"      | ")?;
    put_times(out, b' ', indent)?;
    put_times(out, b'~', width.saturating_sub(indent))?;
    out.append(b"  expands")?;
    put_macro(
        out,
        page,
        part(lined.written, name.start, name.end),
        line.start,
    )?;
    out.append(b"      | ")?;
    put_times(out, b' ', indent)?;
    put_shown(out, line.bytes)?;
    out.push(b'\n')?;
    put_rows(out, &line, first, second)
}

fn are_expanded(lined: &Lined<'_>, first: &Mark<'_>, second: Option<&Mark<'_>>) -> bool {
    let is_second = match second {
        Some(second) => is_expanded(lined, second),
        None => true,
    };
    is_expanded(lined, first) && is_second
}

// The line of one mark, or of two, as it was written; nothing where that isn't known.
fn put_as_written(
    out: &mut Bytes,
    page: &Page<'_, '_>,
    first: &Mark<'_>,
    second: Option<&Mark<'_>>,
) -> Result<bool, NoMemory> {
    let Some(lined) = page.lined(first.stretch.start, first.stretch.line) else {
        return Ok(false);
    };
    if put_written(out, &lined, first, second)? {
        return Ok(true);
    }
    if !are_expanded(&lined, first, second) {
        return Ok(false);
    }
    put_expansion(out, page, &lined, first, second)?;
    Ok(true)
}

// The line of one mark, or of two.
fn put_line(
    out: &mut Bytes,
    page: &Page<'_, '_>,
    first: &Mark<'_>,
    second: Option<&Mark<'_>>,
) -> Result<(), NoMemory> {
    if put_as_written(out, page, first, second)? {
        return Ok(());
    }
    let line = line_at(page.text, first.stretch.start);
    put_source_line(out, first.stretch.line, line.bytes)?;
    put_rows(out, &line, first, second)
}

/// Adds the line of source of one stretch, or of two, with carets under them.
pub fn put_marks(
    out: &mut Bytes,
    page: &Page<'_, '_>,
    first: &Mark<'_>,
    second: Option<&Mark<'_>>,
) -> Result<(), NoMemory> {
    let Some(other) = second else {
        return put_line(out, page, first, None);
    };
    let start = line_start(page.text, first.stretch.start);
    if start == line_start(page.text, other.stretch.start) {
        return put_line(out, page, first, second);
    }
    put_line(out, page, first, None)?;
    put_line(out, page, other, None)
}
