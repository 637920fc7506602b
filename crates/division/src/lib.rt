// Long division of polynomials: definitions and laws alone, for the two codes that are built on it. There is no code here.
#![tactic(auto)]
