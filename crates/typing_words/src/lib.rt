//! Which types the words and declarators of a declaration name (ISO/IEC 9899:2011, 6.7.1 to 6.7.6), and structures and unions as plain data, as a
//! definition that computes.
#![tactic(auto)]
