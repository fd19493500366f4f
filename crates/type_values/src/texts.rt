// The string of an array of characters (6.7.9p14).
ghost use Rattle.std.specs.Prelude.{◌≡◌};
ghost use Rattle.type_values.specs.Texts.{text_in};

use ub_base::Bytes;

/// The bytes that a string gives an array of so many characters: its zero only where there is room (6.7.9p14). `None` where it is
/// too long (6.7.9p2).
pub fn text_of(bytes: Bytes, count: Option<u64>) -> Option<Bytes>
    ensures { result ≡ text_in bytes count }
{
    let Some(count) = count else {
        return Some(bytes);
    };
    let length = bytes.len() as u64;
    if length <= count {
        Some(bytes)
    } else if length - 1 == count {
        let mut bytes = bytes;
        bytes.truncate(length as usize - 1);
        Some(bytes)
    } else {
        None
    }
}
