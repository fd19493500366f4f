// What operators ask of the declarations around an expression.
use c_typed::Target;
use c_types::Extent;

/// Which structures and unions have a const member, directly or in a member (6.3.2.1p1).
pub trait Constants {
    ghost use Rattle.std.specs.Prelude.{◌≡◌, ℕ, Bool};

    /// Whether that of this number has one.
    ghost is_constant: { Self → ℕ → Bool };

    fn has_constant(&self, tag: u32) -> bool
        ensures { result ≡ Self.is_constant self.now tag };
}

/// The sizes and alignments that address constants keep to: an address lies in its object or is one past, and suits the
/// type that it is converted to.
pub trait Objects {
    ghost use Rattle.std.specs.Prelude.{◌≡◌, Option, None, IfSome};
    ghost use Rattle.type_reasons.specs.Places.{Places};

    /// The extents, where contracts know them.
    ghost places: { Self → Option Places } = { λ _. None };

    /// The extent of the target; none for a function.
    fn extent_of(&self, target: Target) -> Option<Extent>
        ensures { IfSome (Self.places self.now) (λ at. result ≡ at target) };
}

/// No object has an address here: for integer constant expressions.
pub struct NoObjects;

impl Objects for NoObjects {
    ghost use Rattle.std.specs.Prelude.{Some};
    ghost use Rattle.type_reasons.specs.Places.{nowhere};

    ghost places = { λ _. Some nowhere };

    fn extent_of(&self, _target: Target) -> Option<Extent> {
        None
    }
}
