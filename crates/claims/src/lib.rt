// The claims over whole lists of calls; they are in specs/, and there is no code here.
#![tactic(auto)]
