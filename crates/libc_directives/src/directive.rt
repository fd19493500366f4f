// The directives of a format (7.21.6.1p4 to p9).
ghost use Rattle.std.specs.Prelude.{◌≡◌, ◌==◌, ◌&&◌, ◌||◌, not, ◌+◌, ◌-◌, ◌*◌, min, take, drop, length, if◌then◌else◌, option_map, ◌≤◌, IfSome};
ghost use Rattle.std.specs.List.{list_any, take_while};
ghost use Rattle.libc_spec.specs.Directives.{most, is_flag, is_digit, flags_in, number_from, count_of_digits, width_of, precision_behind, precision_of, begins};
ghost use Rattle.libc_spec.specs.Directives.{length_of, directive_of, form_if, has_flag, is_floating, form_of_text, form, is_plain, is_absent, is_l, is_big_l};
ghost use Rattle.libc_spec.specs.Directives.{left_out};
ghost use Rattle.libc_directives.specs.Seen.{flags_seen, count_seen, length_seen, piece, directive_seen, form_seen};

/// A number above this counts as this (own).
pub const MOST: u64 = 1 << 62;

#[derive(Clone, Copy, PartialEq, Eq)]
pub struct Flags {
    pub minus: bool,
    pub plus: bool,
    pub space: bool,
    pub hash: bool,
    pub zero: bool,
}

impl Flags {
    fn is_any(self) -> bool
        ensures { result ≡ has_flag (flags_seen self) }
    {
        self.minus || self.plus || self.space || self.hash || self.zero
    }
}

/// A width or a precision as it is written.
#[derive(Clone, Copy, PartialEq, Eq)]
pub enum Count {
    Absent,
    Argument,
    Number(u64),
}

/// A length modifier; `LongDouble` is `L`.
#[derive(Clone, Copy, PartialEq, Eq)]
pub enum Length {
    Absent,
    Char,
    Short,
    Long,
    LongLong,
    Max,
    Size,
    Difference,
    LongDouble,
}

#[derive(Clone, Copy, PartialEq, Eq)]
pub struct Directive {
    pub flags: Flags,
    pub width: Count,
    pub precision: Count,
    pub length: Length,
    pub conversion: u8,
    /// How many bytes it has behind its `%`.
    pub len: usize,
}

/// Whether a directive is taken (own: what is left out).
#[derive(Clone, Copy, PartialEq, Eq)]
pub enum Form {
    Taken,
    LeftOut,
    Invalid,
}

/// The first `n` bytes, or all where there are fewer.
pub fn front(text: &[u8], n: usize) -> &[u8]
    ensures { result.now ≡ take n text.now }
{
    if n < text.len() { &text[..n] } else { text }
}

/// The bytes behind the first `n`.
pub fn behind(text: &[u8], n: usize) -> &[u8]
    ensures { result.now ≡ drop n text.now }
{
    if n < text.len() { &text[n..] } else { &[] }
}

fn is_flag(byte: u8) -> bool
    ensures { result ≡ is_flag byte }
{
    byte == b'-' || byte == b'+' || byte == b' ' || byte == b'#' || byte == b'0'
}

fn is_digit(byte: u8) -> bool
    ensures { result ≡ is_digit byte }
{
    b'0' <= byte && byte <= b'9'
}

fn flags_len(text: &[u8]) -> usize
    ensures { result ≡ length (take_while is_flag text.now) }
{
    text.iter().take_while(|byte| is_flag(**byte)).count()
}

fn digits_len(text: &[u8]) -> usize
    ensures { result ≡ length (take_while is_digit text.now) }
{
    text.iter().take_while(|byte| is_digit(**byte)).count()
}

fn has(text: &[u8], wanted: u8) -> bool
    ensures { result ≡ list_any (λ byte. wanted == byte) text.now }
{
    text.iter().any(|byte| wanted == *byte)
}

fn flags_of(text: &[u8]) -> Flags
    ensures { flags_seen result ≡ flags_in text.now }
{
    Flags {
        minus: has(text, b'-'),
        plus: has(text, b'+'),
        space: has(text, b' '),
        hash: has(text, b'#'),
        zero: has(text, b'0'),
    }
}

// The number that digits spell.
fn number_of(digits: &[u8]) -> u64
    ensures { result ≡ number_from 0 digits.now }
{
    let mut number: u64 = 0;
    for digit in digits {
        number = with_digit(number, *digit);
    }
    number
}

fn with_digit(number: u64, digit: u8) -> u64
    ensures value { result ≡ min (10 * number + (digit - 48)) most }
{
    let digit = u64::from(digit.saturating_sub(b'0'));
    number.saturating_mul(10).saturating_add(digit).min(MOST)
}

// A width, and how many bytes it has.
fn width_of(text: &[u8]) -> (Count, usize)
    ensures { piece (count_seen result.0) result.1 ≡ width_of text.now }
{
    match text {
        [] => (Count::Absent, 0),
        [b'*', ..] => (Count::Argument, 1),
        _ => width_digits(text),
    }
}

fn width_digits(text: &[u8]) -> (Count, usize)
    ensures { piece (count_seen result.0) result.1 ≡ piece (count_of_digits (take_while is_digit text.now)) (length (take_while is_digit text.now)) }
{
    let len = digits_len(text);
    if len == 0 {
        (Count::Absent, 0)
    } else {
        (Count::Number(number_of(front(text, len))), len)
    }
}

// A precision with its point, and how many bytes it has; one without digits is 0.
fn precision_of(text: &[u8]) -> (Count, usize)
    ensures { piece (count_seen result.0) result.1 ≡ precision_of text.now }
{
    match text {
        [b'.', rest @ ..] => precision_behind(rest),
        _ => (Count::Absent, 0),
    }
}

fn precision_behind(text: &[u8]) -> (Count, usize)
    ensures { piece (count_seen result.0) result.1 ≡ precision_behind text.now }
{
    match text {
        [b'*', ..] => (Count::Argument, 2),
        _ => {
            let len = digits_len(text);
            (
                Count::Number(number_of(front(text, len))),
                len.saturating_add(1),
            )
        }
    }
}

// A length modifier, and how many bytes it has.
fn length_of(text: &[u8]) -> (Length, usize)
    ensures { piece (length_seen result.0) result.1 ≡ length_of text.now }
{
    match text {
        [b'h', rest @ ..] => doubled(b'h', rest, Length::Short, Length::Char),
        [b'l', rest @ ..] => doubled(b'l', rest, Length::Long, Length::LongLong),
        [b'j', ..] => (Length::Max, 1),
        [b'z', ..] => (Length::Size, 1),
        [b't', ..] => (Length::Difference, 1),
        [b'L', ..] => (Length::LongDouble, 1),
        _ => (Length::Absent, 0),
    }
}

// The length of a letter, or of two where another stands behind it.
fn doubled(letter: u8, rest: &[u8], one: Length, two: Length) -> (Length, usize)
    ensures { piece result.0 result.1 ≡ (if begins letter rest.now then piece two 2 else piece one 1) }
{
    if rest.first() == Some(&letter) {
        (two, 2)
    } else {
        (one, 1)
    }
}

/// The directive whose `%` stands before the text; None where the text ends inside it.
pub fn directive_of(text: &[u8]) -> Option<Directive>
    ensures value { option_map directive_seen result ≡ directive_of text.now }
    ensures len { IfSome result (λ d. d.len ≤ length text.now) }
{
    let flags_len = flags_len(text);
    let flags = flags_of(front(text, flags_len));
    let rest = behind(text, flags_len);
    let (width, width_len) = width_of(rest);
    let rest = behind(rest, width_len);
    let (precision, precision_len) = precision_of(rest);
    let rest = behind(rest, precision_len);
    let (length, length_len) = length_of(rest);
    let rest = behind(rest, length_len);
    match rest {
        [] => None,
        [conversion, ..] => Some(Directive {
            flags,
            width,
            precision,
            length,
            conversion: *conversion,
            len: text.len() - rest.len() + 1,
        }),
    }
}

fn is_floating(conversion: u8) -> bool
    ensures { result ≡ is_floating conversion }
{
    matches!(
        conversion,
        b'a' | b'A' | b'e' | b'E' | b'f' | b'F' | b'g' | b'G'
    )
}

fn form_if(is_valid: bool, valid: Form) -> Form
    ensures { form_seen result ≡ form_if is_valid (form_seen valid) }
{
    if is_valid { valid } else { Form::Invalid }
}

impl Directive {
    /// Whether it is taken: a directive that 7.21.6.1 doesn't allow is invalid, and one with `n`, with a floating conversion, or
    /// with `l` before `c` or `s` is left out (own).
    pub fn form(self) -> Form
        ensures { form_seen result ≡ form (directive_seen self) }
    {
        let is_long_double = matches!(self.length, Length::LongDouble);
        let is_bare = !self.flags.hash && !self.flags.zero;
        match self.conversion {
            b'd' | b'i' | b'u' => form_if(!is_long_double && !self.flags.hash, Form::Taken),
            b'o' | b'x' | b'X' => form_if(!is_long_double, Form::Taken),
            b'c' => self.form_of_text(self.has_no_precision() && is_bare),
            b's' => self.form_of_text(is_bare),
            b'p' => form_if(
                self.is_plain() && self.has_no_precision() && is_bare,
                Form::Taken,
            ),
            b'%' => form_if(self.len == 1, Form::Taken),
            b'n' => form_if(!is_long_double && self.is_nothing_else(), Form::LeftOut),
            _ => self.form_of_floating(),
        }
    }

    fn is_plain(self) -> bool
        ensures { result ≡ is_plain (length_seen self.length) }
    {
        matches!(self.length, Length::Absent)
    }

    fn has_no_precision(self) -> bool
        ensures { result ≡ is_absent (count_seen self.precision) }
    {
        matches!(self.precision, Count::Absent)
    }

    // Neither flag nor width nor precision.
    fn is_nothing_else(self) -> bool
        ensures { result ≡ (not (has_flag (flags_seen self.flags)) && (is_absent (count_seen self.width) && is_absent (count_seen self.precision))) }
    {
        !self.flags.is_any() && matches!(self.width, Count::Absent) && self.has_no_precision()
    }

    fn form_of_floating(self) -> Form
        ensures { form_seen result ≡ form_if (is_floating self.conversion &&
            (is_plain (length_seen self.length) || (is_l (length_seen self.length) || is_big_l (length_seen self.length)))) left_out }
    {
        let may_be_floating = matches!(
            self.length,
            Length::Absent | Length::Long | Length::LongDouble
        );
        form_if(
            is_floating(self.conversion) && may_be_floating,
            Form::LeftOut,
        )
    }

    fn form_of_text(self, is_valid: bool) -> Form
        ensures { form_seen result ≡ form_of_text (length_seen self.length) is_valid }
    {
        match self.length {
            Length::Absent => form_if(is_valid, Form::Taken),
            Length::Long => form_if(is_valid, Form::LeftOut),
            _ => Form::Invalid,
        }
    }
}
