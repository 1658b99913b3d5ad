// Examples that show that the demands are not vacuous: whole histories of loads, computed from the definitions. No code.
#![tactic(auto)]
