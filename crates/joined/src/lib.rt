//! One sheet of two, whose list is the pair of their lists (document 02, request 7): the definitions and laws of specs/.
#![tactic(auto)]
