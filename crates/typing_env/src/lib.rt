//! What is known of a translation unit where its text is read up to a place, and what declarations add to it (ISO/IEC 9899:2011, 6.2.1 to
//! 6.2.3), as a definition that computes.
#![tactic(auto)]
