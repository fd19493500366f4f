// Numbers, words and lists in the value of a JSON text.
ghost use Rattle.std.specs.Prelude.{◌≡◌, option_map, map};
ghost use Rattle.serde_json.specs.View.{view};
ghost use Rattle.certificate_text.specs.Reading.{number_in, small_in, kind_in, frame_in, list_in, list_at};

use crate::row::NUMBER_END;
use crate::words::kind_of;
use serde_json::Value;
use ub_base::{Frame, Kind};

/// A whole number below 2^63.
pub fn number(value: &Value) -> Option<u64>
    ensures { result ≡ number_in (view value.now) }
{
    let number = value.as_u64()?;
    if number < NUMBER_END {
        Some(number)
    } else {
        None
    }
}

/// A whole number below 2^32.
pub fn small_number(value: &Value) -> Option<u32>
    ensures { result ≡ small_in (view value.now) }
{
    let number = value.as_u64()?;
    if number < 1 << 32 {
        Some(number as u32)
    } else {
        None
    }
}

/// A frame that is there, `count` being how many there are beside `main`.
pub fn frame(value: &Value, count: u32) -> Option<Frame>
    ensures { result ≡ frame_in count (view value.now) }
{
    let number = small_number(value)?;
    if number <= count {
        Some(Frame(number))
    } else {
        None
    }
}

/// Which part of an evaluation an event is.
pub fn kind(value: &Value) -> Option<Kind>
    ensures { result ≡ kind_in (view value.now) }
{
    kind_of(value.as_str()?)
}

/// The items of a list.
pub fn items(value: &Value) -> Option<&[Value]>
    ensures { option_map (λ items. map view items.now) result ≡ list_in (view value.now) }
{
    Some(value.as_array()?.as_slice())
}

/// The items of the list that is the member of this name.
pub fn list_member<'v>(value: &'v Value, name: &str) -> Option<&'v [Value]>
    ensures { option_map (λ items. map view items.now) result ≡ list_at name.now (view value.now) }
{
    items(value.get(name)?)
}
