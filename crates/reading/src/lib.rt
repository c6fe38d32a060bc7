// The bytes and messages of a list of calls; the laws are in specs/, and there is no code here.
#![tactic(auto)]
