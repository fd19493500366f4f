//! Laws about the numbers in a tree.

ghost use Rattle.parse_names.specs.NameLaws.{TreesName};

/// In what the parser answers for tokens each name, literal and keyword is by the number of such a token.
pub fn law_names()
    ensures { TreesName }
{}
