// Laws on lists that several crates share: specs/ alone, no code.
#![tactic(auto)]
