//! Laws of scopes.

ghost use Rattle.type_name_space.specs.Scopes.{InnerHides, EndRestores};

/// A declaration hides those of the same name around it, and where its scope ends they stand again (6.2.1p4).
pub fn law_scopes<M>()
    ensures hides { InnerHides M }
    ensures restores { EndRestores M }
{}
