// Theorems about the definition, cited by the entries alone; no code.
#![tactic(auto)]
