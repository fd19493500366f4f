// The text of a generated program.
ghost use Rattle.std.specs.Prelude.{◌≡◌, ◌≤◌, ◌<◌, ◌+◌, ◌^◌, ◌++◌, IfOk, OnOk, length, decimal};
ghost use Rattle.audit_generator.specs.Text.{drawn, element, with_constant, exclusive_or, greater, difference, statement, drawn_line, line_after, draw_before};
ghost use Rattle.audit_generator.specs.Text.{text};

use itoa::Buffer;
use std::alloc::Global;
use ub_base::{Bytes, NoMemory};

// A draw, from the one before it.
fn drawn(x: u64) -> u64
    requires { x ≤ 65536 }
    ensures value { result ≡ drawn x }
    ensures within { result ≤ 65536 }
{
    (75 * x + 74) % 65537
}

fn put_number(out: &mut Bytes, number: u64) -> Result<(), NoMemory>
    ensures { OnOk result (out.new ≡ out.old ++ decimal number) }
{
    let mut digits = Buffer::new();
    out.append(digits.format(number).as_bytes())
}

fn put_element(out: &mut Bytes, index: u64) -> Result<(), NoMemory>
    ensures { OnOk result (out.new ≡ out.old ++ element index) }
{
    out.append(b"a[")?;
    put_number(out, index)?;
    out.append(b"]")
}

fn put_with_constant(
    out: &mut Bytes,
    operator: &[u8],
    i: u64,
    j: u64,
    k: u64,
) -> Result<(), NoMemory>
    ensures { OnOk result (out.new ≡ out.old ++ with_constant operator.now i j k) }
{
    put_element(out, i)?;
    out.append(b"=")?;
    put_element(out, j)?;
    out.append(operator)?;
    put_number(out, k)?;
    out.append(b"u;\n")
}

fn put_exclusive_or(out: &mut Bytes, i: u64, j: u64) -> Result<(), NoMemory>
    ensures { OnOk result (out.new ≡ out.old ++ exclusive_or i j) }
{
    put_element(out, i)?;
    out.append(b"^=")?;
    put_element(out, j)?;
    out.append(b";\n")
}

fn put_greater(out: &mut Bytes, i: u64, j: u64) -> Result<(), NoMemory>
    ensures { OnOk result (out.new ≡ out.old ++ greater i j) }
{
    out.append(b"if(")?;
    put_element(out, i)?;
    out.append(b">")?;
    put_element(out, j)?;
    out.append(b")")
}

fn put_difference(out: &mut Bytes, i: u64, j: u64) -> Result<(), NoMemory>
    ensures { OnOk result (out.new ≡ out.old ++ difference i j) }
{
    put_element(out, i)?;
    out.append(b"=")?;
    put_element(out, i)?;
    out.append(b"-")?;
    put_element(out, j)?;
    out.append(b";\n")
}

fn put_statement(out: &mut Bytes, t: u64, i: u64, j: u64, k: u64) -> Result<(), NoMemory>
    ensures { OnOk result (out.new ≡ out.old ++ statement t i j k) }
{
    match t {
        0 => put_with_constant(out, b"+", i, j, k),
        1 => put_with_constant(out, b"*", i, j, k),
        2 => put_exclusive_or(out, i, j),
        _ => {
            put_greater(out, i, j)?;
            put_difference(out, i, j)
        }
    }
}

// Puts the line that the draws after this one give, and gives the last of them.
fn put_line(out: &mut Bytes, x: u64) -> Result<u64, NoMemory>
    requires { x ≤ 65536 }
    ensures text { OnOk result (out.new ≡ out.old ++ line_after x) }
    ensures last { IfOk result (λ last. last ≡ drawn (drawn (drawn (drawn x)))) }
    ensures within { IfOk result (λ last. last ≤ 65536) }
{
    let t = drawn(x);
    let i = drawn(t);
    let j = drawn(i);
    let k = drawn(j);
    put_statement(out, t % 4, i % 8, j % 8, k % 1000)?;
    Ok(k)
}

/// The text of the program that a seed and a number of lines give: eight unsigned numbers, and so many statements on
/// them. It keeps the limit of a source.
pub fn generated(alloc: Global, seed: u64, count: u64) -> Result<Bytes, NoMemory>
    requires seed { seed ≤ 65536 }
    requires count { count ≤ 20000 }
    ensures text { IfOk result (λ bytes. bytes ≡ text seed count) }
    ensures within { IfOk result (λ bytes. length bytes ≤ 2 ^ 20) }
{
    let mut out = Bytes::from_slice(
        alloc,
        b"unsigned a[8]={1,2,3,4,5,6,7,8};\nint main(void){\n",
    )?;
    let mut x = seed;
    for _line in 0..count {
        x = put_line(&mut out, x)?;
    }
    out.append(b"return (int)(a[0]&127u);\n}\n")?;
    Ok(out)
}
