// The arguments that directives take (7.21.6.1p2, p7 to p9).
ghost use Rattle.std.specs.Prelude.{◌≡◌, ◌∷◌, [], false, min, unsigned_abs, IfOk, IfErr};
ghost use Rattle.ub_base.specs.declared.clause.Clause.TheVariants.{TooFewArguments};
ghost use Rattle.c_types.specs.Types.{type_of, pointer};
ghost use Rattle.libc_spec.specs.Print.{next_int, next_integer, next_pointer, width_taken, precision_taken, not_negative, signed_kind, converted, same_kind};
ghost use Rattle.libc_spec.specs.Print.{fits_kind, is_target};
ghost use Rattle.libc_spec.specs.Directives.{most};
ghost use Rattle.mem_objects.specs.Memory.{Kept, HasCell};
ghost use Rattle.libc_arguments.specs.Answers.{HaveCells};
ghost use Rattle.libc_arguments.specs.Seen.{pointer_seen, values_seen};
ghost use Rattle.libc_directives.specs.Seen.{count_seen, length_seen, width_seen};
ghost use Rattle.libc_print.specs.Seen.{argument_of, type_at, left};
ghost use Rattle.libc_print.specs.Answers.{taken, taken_as};

use c_types::{IntKind, Qual, Ty};
use libc_arguments::{Pointer, int_at, pointer_at};
use libc_directives::{Count, Length, MOST, Width};
use prov_memory::Value;
use ub_base::Clause;

/// The arguments with their types, and the number of the next one.
#[derive(Drop)]
pub struct Arguments<'a> {
    pub values: &'a [Value],
    pub types: &'a [Qual],
    pub next: usize,
}

// The number of the next argument, which is there.
fn take(args: &mut Arguments<'_>) -> Result<usize, Clause>
    ensures item { IfOk result (λ at. left args.old ≡ argument_of args.old at ∷ left args.new) }
    ensures none { IfErr result (λ clause. (clause ≡ TooFewArguments) × (left args.old ≡ [])) }
    ensures values { args.new.values ≡ args.old.values }
    ensures types { args.new.types ≡ args.old.types }
{
    let at = args.next;
    let count = args.values.len().min(args.types.len());
    if at < count {
        args.next = at + 1;
        Ok(at)
    } else {
        Err(Clause::TooFewArguments)
    }
}

// Whether the type at the place is this one of the types that conversions take.
fn is_kind_at(kind: IntKind, types: &[Qual], at: usize) -> bool
    ensures { result ≡ same_kind kind (type_at types.now at) }
{
    match types.get(at) {
        Some(qual) => is_kind(kind, &qual.ty),
        None => false,
    }
}

fn is_kind(kind: IntKind, ty: &Ty) -> bool
    ensures { result ≡ same_kind kind (type_of ty.now) }
{
    let Ty::Int(given) = ty else {
        return false;
    };
    match kind {
        IntKind::Int => matches!(given, IntKind::Int),
        IntKind::UInt => matches!(given, IntKind::UInt),
        IntKind::Long => matches!(given, IntKind::Long),
        IntKind::ULong => matches!(given, IntKind::ULong),
        IntKind::LLong => matches!(given, IntKind::LLong),
        IntKind::ULLong => matches!(given, IntKind::ULLong),
        _ => false,
    }
}

/// The next argument, of type int.
pub fn take_int(args: &mut Arguments<'_>) -> Result<i128, Clause>
    ensures exact { taken result (left args.new) ≡ next_int (left args.old) }
    ensures values { args.new.values ≡ args.old.values }
{
    let at = take(args)?;
    if is_kind_at(IntKind::Int, args.types, at) {
        Ok(int_at(args.values, at))
    } else {
        Err(Clause::Conversion)
    }
}

// How large it is, at most 2^62.
fn magnitude(number: i128) -> u64
    ensures { result ≡ min (unsigned_abs number) most }
{
    u64::try_from(number.unsigned_abs().min(u128::from(MOST))).unwrap_or(MOST)
}

/// The width, from the directive or the next argument.
pub fn take_width(count: Count, args: &mut Arguments<'_>) -> Result<Width, Clause>
    ensures exact { taken_as width_seen result (left args.new) ≡ width_taken (count_seen count) (left args.old) }
    ensures values { args.new.values ≡ args.old.values }
{
    match count {
        Count::Absent => Ok(Width {
            size: 0,
            is_left: false,
        }),
        Count::Number(size) => Ok(Width {
            size,
            is_left: false,
        }),
        Count::Argument => {
            let number = take_int(args)?;
            Ok(Width {
                size: magnitude(number),
                is_left: number < 0,
            })
        }
    }
}

/// The precision, from the directive or the next argument.
pub fn take_precision(count: Count, args: &mut Arguments<'_>) -> Result<Option<u64>, Clause>
    ensures exact { taken result (left args.new) ≡ precision_taken (count_seen count) (left args.old) }
    ensures values { args.new.values ≡ args.old.values }
{
    match count {
        Count::Absent => Ok(None),
        Count::Number(precision) => Ok(Some(precision)),
        Count::Argument => Ok(not_negative(take_int(args)?)),
    }
}

fn not_negative(number: i128) -> Option<u64>
    ensures { result ≡ not_negative number }
{
    if number < 0 {
        None
    } else {
        Some(magnitude(number))
    }
}

// The signed type of a length.
fn signed_kind(length: Length) -> IntKind
    ensures { result ≡ signed_kind (length_seen length) }
{
    match length {
        Length::Long | Length::Max | Length::Size | Length::Difference => IntKind::Long,
        Length::LongLong => IntKind::LLong,
        _ => IntKind::Int,
    }
}

// The value as hh and h convert it.
fn converted(length: Length, is_signed: bool, number: i128) -> i128
    ensures { result ≡ converted (length_seen length) is_signed number }
{
    match (length, is_signed) {
        (Length::Char, true) => c_arith::convert(IntKind::SChar, number),
        (Length::Char, false) => c_arith::convert(IntKind::UChar, number),
        (Length::Short, true) => c_arith::convert(IntKind::Short, number),
        (Length::Short, false) => c_arith::convert(IntKind::UShort, number),
        _ => number,
    }
}

// Whether the argument at the place has the type of the conversion, or the other signedness and a value of both (6.5.2.2p6).
fn fits_at(signed: IntKind, is_signed: bool, args: &Arguments<'_>, at: usize) -> bool
    ensures { result ≡ fits_kind signed is_signed (argument_of args.now at) }
{
    let unsigned = signed.unsigned_form();
    let (wanted, other) = if is_signed {
        (signed, unsigned)
    } else {
        (unsigned, signed)
    };
    let number = int_at(args.values, at);
    is_kind_at(wanted, args.types, at)
        || (is_kind_at(other, args.types, at) && (signed.holds(number) && unsigned.holds(number)))
}

/// The next argument, of the signed or the unsigned type of the length, or of the other one where it is a value of both.
pub fn take_integer(
    length: Length,
    is_signed: bool,
    args: &mut Arguments<'_>,
) -> Result<i128, Clause>
    ensures exact { taken result (left args.new) ≡ next_integer (length_seen length) is_signed (left args.old) }
    ensures values { args.new.values ≡ args.old.values }
{
    let at = take(args)?;
    if fits_at(signed_kind(length), is_signed, args, at) {
        Ok(converted(length, is_signed, int_at(args.values, at)))
    } else {
        Err(Clause::Conversion)
    }
}

/// The next argument, a pointer to a character type, or where it may be one to void.
pub fn take_pointer(may_be_void: bool, args: &mut Arguments<'_>) -> Result<Pointer, Clause>
    ensures exact { taken_as pointer_seen result (left args.new) ≡ next_pointer may_be_void (left args.old) }
    ensures values { args.new.values ≡ args.old.values }
    ensures cell { (m : Kept) → HaveCells m (values_seen args.old.values.now) → IfOk result (λ p. HasCell m p.prov) }
{
    let at = take(args)?;
    if is_pointer_at(may_be_void, args.types, at) {
        Ok(pointer_at(args.values, at))
    } else {
        Err(Clause::Conversion)
    }
}

fn is_pointer_at(may_be_void: bool, types: &[Qual], at: usize) -> bool
    ensures { result ≡ is_target may_be_void (type_at types.now at) }
{
    match types.get(at) {
        Some(qual) => is_pointer(may_be_void, &qual.ty),
        None => false,
    }
}

fn is_pointer(may_be_void: bool, ty: &Ty) -> bool
    ensures { result ≡ is_target may_be_void (type_of ty.now) }
{
    match ty {
        Ty::Pointer(target) => is_target(may_be_void, &target.get().ty),
        _ => false,
    }
}

fn is_target(may_be_void: bool, ty: &Ty) -> bool
    ensures { result ≡ is_target may_be_void (pointer false (type_of ty.now)) }
{
    match ty {
        Ty::Void => may_be_void,
        _ => ty.is_character(),
    }
}
