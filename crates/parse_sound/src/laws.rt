//! The law that what the parser answers is in the grammar.

ghost use Rattle.parse_sound.specs.SoundLaws.{TreesSpell};

/// The tree that the parser answers for tokens is one that the grammar of Annex A says they spell.
pub fn law_sound()
    ensures { TreesSpell }
{}
