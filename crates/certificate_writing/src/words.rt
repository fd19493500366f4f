// The words of a certificate's text.
ghost use Rattle.std.specs.Prelude.{◌≡◌};
ghost use Rattle.certificate_writing.specs.Words.{kind_text, cause_text};

use ub_base::{Cause, Kind};

pub fn kind_text(kind: Kind) -> &'static str
    ensures { result.now ≡ kind_text kind }
{
    match kind {
        Kind::Val => "val",
        Kind::Eff => "eff",
        Kind::Body => "body",
    }
}

pub fn cause_text(cause: Cause) -> &'static str
    ensures { result.now ≡ cause_text cause }
{
    match cause {
        Cause::Output => "output",
        Cause::Created => "created",
        Cause::Depth => "depth",
        Cause::Conversion => "conversion",
        Cause::Directive => "directive",
    }
}
