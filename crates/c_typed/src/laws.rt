//! Laws of the definitions.

ghost use Rattle.c_typed.specs.Lawful.{NoMainIsUnlawful};
ghost use Rattle.c_typed.specs.Least.{LeastIsLawful};

/// A program without functions isn't lawful: its `main` isn't there (5.1.2.2.1).
pub fn law_no_main()
    ensures { NoMainIsUnlawful }
{}

/// A program that has nothing but a `main` with an empty body is lawful (5.1.2.2.1, 5.1.2.2.3).
pub fn law_least()
    ensures { LeastIsLawful }
{}
