//! The published relations of get and put beside the rules, and that the two agree: the definitions and laws of specs/.
#![tactic(auto)]
