// The texts of conversions (7.21.6.1p4 to p8).

ghost use Rattle.std.specs.Prelude.{◌≡◌, reverse, ◌<◌, ◌≤◌, ◌+◌, ◌^◌, ◌++◌, ◌∷◌, [], ◌==◌, min, unsigned_abs, replicate, IfOk, OnOk, if◌then◌else◌};
ghost use Rattle.libc_spec.specs.Print.{digit, base_of, field, padded, own_size, whole_size, sign, hex_prefix, zeros_before, integer_field};
ghost use Rattle.libc_spec.specs.Print.{is_signed_conversion, spaced, bare};
ghost use Rattle.libc_directives.specs.Seen.{flags_seen, base_number, is_upper, digits_of, parts_with, integer_parts_of, address_parts_of, parts_seen};
ghost use Rattle.libc_directives.specs.Seen.{field_seen};
ghost use Rattle.libc_directives.specs.Seen.{width_seen};
ghost use Rattle.libc_directives.specs.Answers.{PutsBytes};

use crate::directive::{Flags, MOST};
use crate::refusal::Refusal;
use std::alloc::Global;
use ub_base::{Cause, NoMemory};

/// The limit on the bytes of one conversion (own).
const CONVERSION: u64 = 4095;

/// How a number is written.
#[derive(Clone, Copy, PartialEq, Eq)]
pub enum Base {
    Octal,
    Decimal,
    Lower,
    Upper,
}

impl Base {
    /// That of a conversion.
    fn of(conversion: u8) -> Base
        ensures number { base_number result ≡ base_of conversion }
        ensures letters { is_upper result ≡ (conversion == 88) }
    {
        match conversion {
            b'o' => Base::Octal,
            b'x' => Base::Lower,
            b'X' => Base::Upper,
            _ => Base::Decimal,
        }
    }

    fn number(self) -> u128
        ensures value { result ≡ base_number self }
        ensures least { 0 < result }
        ensures greatest { result ≤ 16 }
    {
        match self {
            Base::Octal => 8,
            Base::Decimal => 10,
            Base::Lower | Base::Upper => 16,
        }
    }

    fn digit(self, value: u128) -> u8
        requires { value < 16 }
        ensures { result ≡ digit (is_upper self) value }
    {
        let letter = match self {
            Base::Upper => 55,
            _ => 87,
        };
        let value = value as u8;
        if value < 10 {
            b'0' + value
        } else {
            letter + value
        }
    }
}

/// The digits of a number without leading zeros; none for 0.
pub fn digits(alloc: Global, number: u128, base: Base) -> Result<Vec<u8>, NoMemory>
    ensures { IfOk result (λ v. v.items ≡ digits_of (is_upper base) (base_number base) number) }
{
    let mut digits = lowest_first(alloc, number, base)?;
    digits.reverse();
    Ok(digits)
}

fn lowest_first(alloc: Global, number: u128, base: Base) -> Result<Vec<u8>, NoMemory>
    ensures { IfOk result (λ v. reverse v.items ≡ digits_of (is_upper base) (base_number base) number) }
{
    let mut digits = Vec::new(alloc);
    let mut rest = number;
    for _turn in 0..64u32 {
        if rest == 0 {
            return Ok(digits);
        }
        digits.push(base.digit(rest % base.number()))?;
        rest /= base.number();
    }
    Ok(digits)
}

/// The parts of a conversion: what stands before it, zeros, and the rest.
#[derive(Drop)]
pub struct Parts<'a> {
    pub prefix: &'a [u8],
    pub zeros: u64,
    pub body: &'a [u8],
}

/// How a conversion is padded.
#[derive(Clone, Copy, PartialEq, Eq)]
pub struct Field {
    pub width: u64,
    /// Spaces go on the right.
    pub is_left: bool,
    /// Zeros behind the prefix in place of spaces.
    pub has_zeros: bool,
}

/// A width from the directive or an argument.
#[derive(Clone, Copy, PartialEq, Eq)]
pub struct Width {
    pub size: u64,
    /// Spaces go on the right, by a negative width.
    pub is_left: bool,
}

/// Adds a byte.
pub fn put_one(out: &mut Vec<u8>, byte: u8) -> Result<(), NoMemory>
    ensures { OnOk result (out.new.items ≡ out.old.items ++ byte ∷ []) }
{
    out.push(byte)?;
    Ok(())
}

fn put_many(out: &mut Vec<u8>, byte: u8, count: u64) -> Result<(), NoMemory>
    ensures { OnOk result (out.new.items ≡ out.old.items ++ replicate count byte) }
{
    for _turn in 0..count {
        out.push(byte)?;
    }
    Ok(())
}

fn put_all(out: &mut Vec<u8>, bytes: &[u8]) -> Result<(), NoMemory>
    ensures { OnOk result (out.new.items ≡ out.old.items ++ bytes.now) }
{
    out.extend_from_slice(bytes)?;
    Ok(())
}

impl Parts<'_> {
    // The bytes without padding; those past 2^62 aren't counted.
    fn own_size(&self) -> u64
        ensures { min result (2 ^ 62) ≡ min (own_size (parts_seen self.now)) (2 ^ 62) }
    {
        (self.prefix.len() as u64)
            .saturating_add(self.zeros)
            .saturating_add(self.body.len() as u64)
    }

    // With this many zeros.
    fn put(&self, out: &mut Vec<u8>, zeros: u64) -> Result<(), NoMemory>
        ensures { OnOk result (out.new.items ≡ out.old.items ++ (self.now.prefix.now ++ (replicate zeros 48 ++ self.now.body.now))) }
    {
        put_all(out, self.prefix)?;
        put_many(out, b'0', zeros)?;
        put_all(out, self.body)
    }

    fn put_padded(&self, out: &mut Vec<u8>, fill: Field, padding: u64) -> Result<(), NoMemory>
        requires { self.now.zeros + padding < 2 ^ 64 }
        ensures { OnOk result (out.new.items ≡ out.old.items ++ padded (parts_seen self.now) (field_seen fill) padding) }
    {
        if fill.is_left {
            self.put(out, self.zeros)?;
            put_many(out, b' ', padding)
        } else if fill.has_zeros {
            self.put(out, self.zeros + padding)
        } else {
            put_many(out, b' ', padding)?;
            self.put(out, self.zeros)
        }
    }
}

/// Adds a conversion, padded; Outside where it has more than 4,095 bytes.
pub fn put_field(out: &mut Vec<u8>, parts: &Parts<'_>, fill: Field) -> Result<(), Refusal>
    ensures { PutsBytes result out.old.items out.new.items (field (parts_seen parts.now) (field_seen fill)) }
{
    let own = parts.own_size();
    let whole = own.max(fill.width).min(MOST);
    if whole > CONVERSION {
        return Err(Refusal::Outside(Cause::Conversion, whole));
    }
    parts.put_padded(out, fill, whole - own)?;
    Ok(())
}

/// The sign of a signed number.
fn sign_of(is_negative: bool, flags: Flags) -> &'static [u8]
    ensures { result.now ≡ (if is_negative then 45 ∷ [] else (if flags.plus then 43 ∷ [] else (if flags.space then 32 ∷ [] else []))) }
{
    if is_negative {
        b"-"
    } else if flags.plus {
        b"+"
    } else if flags.space {
        b" "
    } else {
        b""
    }
}

// What `#` puts before hexadecimal digits.
fn hex_prefix(flags: Flags, conversion: u8, magnitude: u128) -> &'static [u8]
    ensures { result.now ≡ hex_prefix (flags_seen flags) conversion magnitude }
{
    match conversion {
        b'x' if flags.hash && magnitude != 0 => b"0x",
        b'X' if flags.hash && magnitude != 0 => b"0X",
        _ => b"",
    }
}

fn prefix_of(flags: Flags, conversion: u8, number: i128) -> &'static [u8]
    ensures { result.now ≡ (if is_signed_conversion conversion then sign (flags_seen flags) number else hex_prefix (flags_seen flags) conversion
        (unsigned_abs number)) }
{
    if is_signed(conversion) {
        sign_of(number < 0, flags)
    } else {
        hex_prefix(flags, conversion, number.unsigned_abs())
    }
}

/// Whether the conversion is one of a signed number.
pub fn is_signed(conversion: u8) -> bool
    ensures { result ≡ is_signed_conversion conversion }
{
    matches!(conversion, b'd' | b'i')
}

// How many zeros stand before the digits.
fn zeros_before(flags: Flags, conversion: u8, precision: Option<u64>, digits: &[u8]) -> u64
    ensures { result ≡ zeros_before (flags_seen flags) conversion precision digits.now }
{
    let least = precision.unwrap_or(1);
    let len = digits.len() as u64;
    if conversion == b'o' && flags.hash && least <= len {
        1
    } else {
        least.saturating_sub(len)
    }
}

/// Adds an integer by its conversion, flags, width and precision.
pub fn put_integer(
    alloc: Global,
    out: &mut Vec<u8>,
    flags: Flags,
    conversion: u8,
    width: Width,
    precision: Option<u64>,
    number: i128,
) -> Result<(), Refusal>
    ensures { PutsBytes result out.old.items out.new.items (field (integer_parts_of (flags_seen flags) conversion precision number)
        (integer_field (flags_seen flags) (width_seen width) precision)) }
{
    let digits = digits(alloc, number.unsigned_abs(), Base::of(conversion))?;
    let digits = digits.as_slice();
    put_digits(out, flags, conversion, width, precision, number, digits)
}

// Adds an integer with these digits.
fn put_digits(
    out: &mut Vec<u8>,
    flags: Flags,
    conversion: u8,
    width: Width,
    precision: Option<u64>,
    number: i128,
    digits: &[u8],
) -> Result<(), Refusal>
    ensures { PutsBytes result out.old.items out.new.items (field (parts_with (flags_seen flags) conversion precision number digits.now)
        (integer_field (flags_seen flags) (width_seen width) precision)) }
{
    let parts = Parts {
        prefix: prefix_of(flags, conversion, number),
        zeros: zeros_before(flags, conversion, precision, digits),
        body: digits,
    };
    let fill = Field {
        width: width.size,
        is_left: flags.minus || width.is_left,
        has_zeros: flags.zero && precision.is_none(),
    };
    put_field(out, &parts, fill)
}

/// A field that is padded by spaces alone.
fn spaced(flags: Flags, width: Width) -> Field
    ensures { field_seen result ≡ spaced (flags_seen flags) (width_seen width) }
{
    Field {
        width: width.size,
        is_left: flags.minus || width.is_left,
        has_zeros: false,
    }
}

/// Adds bytes, padded by spaces.
pub fn put_text(out: &mut Vec<u8>, body: &[u8], flags: Flags, width: Width) -> Result<(), Refusal>
    ensures { PutsBytes result out.old.items out.new.items (field (bare body.now) (spaced (flags_seen flags) (width_seen width))) }
{
    let parts = Parts {
        prefix: b"",
        zeros: 0,
        body,
    };
    put_field(out, &parts, spaced(flags, width))
}

/// Adds an address in hexadecimal digits; that of null is 0x0 (own).
pub fn put_address(
    alloc: Global,
    out: &mut Vec<u8>,
    address: u64,
    flags: Flags,
    width: Width,
) -> Result<(), Refusal>
    ensures { PutsBytes result out.old.items out.new.items (field (address_parts_of address) (spaced (flags_seen flags) (width_seen width))) }
{
    let digits = digits(alloc, u128::from(address), Base::Lower)?;
    let parts = Parts {
        prefix: b"0x",
        zeros: if address == 0 { 1 } else { 0 },
        body: digits.as_slice(),
    };
    put_field(out, &parts, spaced(flags, width))
}
