//! A sheet that holds another one, its nodes and sections under other numbers, answers as the other does: the definitions and laws of specs/.
#![tactic(auto)]
