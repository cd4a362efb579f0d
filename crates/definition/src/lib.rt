// No code: the definitions that every other crate is proved against stand in specs/.
#![tactic(auto)]
