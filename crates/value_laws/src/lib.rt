//! Structure and union values have as many bytes as their types, in any order of any run: laws over the definitions of c_model.
//!
//! A law function takes nothing and answers nothing: its contract is a law about the definitions.
#![tactic(auto)]

ghost use Rattle.value_laws.specs.Wholes.{ValuesHaveSizes, WholesAreStored, LibraryGivesPlain};
ghost use Rattle.value_laws.specs.Layouts.{CompatibleCallsKeep};
ghost use Rattle.value_laws.specs.Parameters.{ParametersAreStored, ArgumentsHaveSizes};
ghost use Rattle.value_laws.specs.Samples.{PairsFit};

/// In every order of a program that keeps the sizes of its types (6.5.16.1p2, 6.5.2.2, 6.8.6.4p3).
pub fn law_value_sizes()
    ensures values { ValuesHaveSizes }
    ensures stores { WholesAreStored }
    ensures parameters { ParametersAreStored }
    ensures arguments { ArgumentsHaveSizes }
{}

/// Programs do keep sizes: those by layout are shared by compatible function types (6.5.2.2p9), the library gives no structure or union, and
/// a sample passes, returns and assigns a structure.
pub fn law_sizes_are_kept()
    ensures calls { CompatibleCallsKeep }
    ensures library { LibraryGivesPlain }
    ensures sample { PairsFit }
{}
