// Laws of terms.
ghost use Rattle.elaborate.specs.Formed.{TermsAreFaithful};

/// The term of a tree is faithful to it, whatever operands are chosen: it lists its due events, each once, in the canonical
/// order, each effect straight after its value, and it orders exactly what is sequenced before (5.1.2.3p3, 6.5).
pub fn law_faithful()
    ensures { TermsAreFaithful }
{}
