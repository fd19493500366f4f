//! The functions of the library as scripts of touches of the store, with calls that were worked by hand.
#![tactic(auto)]

ghost use Rattle.libc_spec.specs.Samples.{Samples};
ghost use Rattle.libc_spec.specs.PrintSamples.{PrintSamples};

/// The sample calls give what the standard says.
pub fn law_samples()
    ensures { Samples }
{}

/// The sample calls of printf print what the C library prints.
pub fn law_print_samples()
    ensures { PrintSamples }
{}
