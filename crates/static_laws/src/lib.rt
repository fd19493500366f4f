//! Full expressions whose accesses `static_seq` parts never race, in any order of any run: laws over the definitions of c_model.
//!
//! A law function takes nothing and answers nothing: its contract is a law about the definitions.
#![tactic(auto)]

ghost use Rattle.static_laws.specs.NeverRaces.{ReadsNeverRace, SequencedNeverRace, BranchesNeverRace, ObjectsNeverRace, BytesNeverRace, WholesNeverRace};
ghost use Rattle.static_laws.specs.NeverRaces.{OnlyAccessesRace, NeverRaces, SizedNeverRaces};
ghost use Rattle.static_laws.specs.LawfulSizes.{LawfulExpressionsFit, LawfulResultsFit, LawfulProgramsFit, LawfulParametersFit};
ghost use Rattle.static_laws.specs.WholePrograms.{WholeProgramsAreMade, WholeProgramsFit, WholeParametersFit, RunsKeepSizes, RunsNeverRace};

use value_laws::law_sizes_are_kept;

/// What parts two accesses of a full expression keeps them from racing, in every order, under every address map (6.5p2).
pub fn law_parted_accesses()
    ensures reads { ReadsNeverRace }
    ensures sequenced { SequencedNeverRace }
    ensures branches { BranchesNeverRace }
    ensures objects { ObjectsNeverRace }
    ensures bytes { BytesNeverRace }
    ensures wholes { WholesNeverRace }
    ensures only { OnlyAccessesRace }
{}

/// A full expression all of whose accesses are apart by these cases never races, in any program, and in one that keeps the sizes of its types.
pub fn law_never_races()
    ensures any { NeverRaces }
    ensures sized { SizedNeverRaces }
{}

/// The full expressions of a lawful program keep the sizes that its types have by their layout, and so does a program that is made of them.
pub fn law_lawful_sizes()
    ensures expressions { LawfulExpressionsFit }
    ensures results { LawfulResultsFit }
    ensures programs { LawfulProgramsFit }
    ensures parameters { LawfulParametersFit }
{}

/// The program of a run of a lawful typed program, as `model_of` of program_view gives it, is made of its lawful full expressions, so it keeps the
/// sizes that its types have by their layout, and so do its parameters; and a full expression all of whose accesses are apart never races there.
pub fn law_whole_programs()
    ensures made { WholeProgramsAreMade }
    ensures fit { WholeProgramsFit }
    ensures parameters { WholeParametersFit }
    ensures runs { RunsKeepSizes }
    ensures race { RunsNeverRace }
{
    law_sizes_are_kept();
}
