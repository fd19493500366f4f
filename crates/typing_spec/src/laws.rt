//! Laws about typing.

ghost use Rattle.typing_words.specs.Tags.{HeldIsSeen, HasExtents, HasNames};
ghost use Rattle.typing_spec.specs.Units.{IsOne};

/// Structures and unions as plain data are those that the crates below compute with: with their extents, and with their members'
/// names, offsets and types.
pub fn law_tags()
    ensures seen { HeldIsSeen }
    ensures extents { HasExtents }
    ensures names { HasNames }
{}

/// A syntax tree has one typed program.
pub fn law_one_program()
    ensures { IsOne }
{}
