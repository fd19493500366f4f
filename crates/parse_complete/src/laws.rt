//! The law that what is in the grammar is what the parser answers.

ghost use Rattle.parse_complete.specs.CompleteLaws.{TreesAreRead, TreesAreUnique, RefusedIsUnspelled};

/// The tree that the grammar of Annex A says tokens spell is the one that the parser answers for them.
pub fn law_complete()
    ensures complete { TreesAreRead }
    ensures unique { TreesAreUnique }
    ensures refused { RefusedIsUnspelled }
{}
