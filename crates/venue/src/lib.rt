//! Plans made by a venue's own system: when a new plan stands, and the laws of that: the definitions of specs/.
#![tactic(auto)]
