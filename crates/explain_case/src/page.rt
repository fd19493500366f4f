// Words on a page.

use explain_page::{Page, put_excerpt};
use explain_places::Extent;
use ub_base::{Bytes, NoMemory};

/// Adds the text of these tokens, in one line.
pub fn put_tokens(out: &mut Bytes, page: &Page<'_, '_>, extent: &Extent) -> Result<(), NoMemory> {
    let stretch = page.stretch(*extent);
    put_excerpt(out, page.between(stretch.start, stretch.end))
}

/// Adds these words, then the text of these tokens.
pub fn put_words_and(
    out: &mut Bytes,
    words: &[u8],
    page: &Page<'_, '_>,
    extent: &Extent,
) -> Result<(), NoMemory> {
    out.append(words)?;
    put_tokens(out, page, extent)
}
