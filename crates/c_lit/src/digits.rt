// Digits and the numbers that they spell.
ghost use Rattle.std.specs.Prelude.{◌≡◌, ◌≤◌, ◌<◌, ◌+◌, ◌*◌, ◌^◌, IfSome, IfNone};
ghost use Rattle.c_lit.specs.Digits.{value_from};

use c_lex::digit_value;

fn with_digit(number: u64, radix: u64, digit: u64) -> Option<u64>
    ensures some { IfSome result (λ n. n ≡ number * radix + digit) }
    ensures none { IfNone result (2 ^ 64 ≤ number * radix + digit) }
{
    number.checked_mul(radix)?.checked_add(digit)
}

/// The number that these digits spell, if 64 bits hold it.
pub fn value(digits: &[u8], radix: u64) -> Option<u64>
    requires { 0 < radix }
    ensures some { IfSome result (λ n. n ≡ value_from radix 0 digits.now) }
    ensures none { IfNone result (2 ^ 64 ≤ value_from radix 0 digits.now) }
{
    let mut number = 0;
    for d in digits {
        match with_digit(number, radix, digit_value(*d)) {
            Some(next) => number = next,
            None => return None,
        }
    }
    Some(number)
}
