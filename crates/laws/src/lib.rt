// Laws about the definition that any proof may cite; no code.
#![tactic(auto)]
