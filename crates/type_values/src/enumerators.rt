// Enumeration constants (6.7.2.2).
ghost use Rattle.std.specs.Prelude.{◌≡◌};
ghost use Rattle.type_values.specs.Enumerators as spec;

/// The value of an enumeration constant: that of its expression, otherwise one more than the one before it, of the first one 0
/// (6.7.2.2p3). `None` where it isn't one of `int` (6.7.2.2p2).
pub fn enumerator(value: Option<i128>, before: Option<i32>) -> Option<i32>
    ensures { result ≡ spec.enumerator value before }
{
    let number = match value {
        Some(number) => number,
        None => match before {
            Some(before) => i128::from(before) + 1,
            None => 0,
        },
    };
    i32::try_from(number).ok()
}
