// The string literals of a unit.
ghost use Rattle.c_typed.specs.Lawful.{HasBytes};

use ub_base::Bytes;

/// The bytes of a string literal, its closing zero at least (6.4.5p6).
#[derive(Drop)]
pub struct Literal {
    pub bytes: Bytes,
    pub ghost filled: { HasBytes bytes },
}
