// Runs of the definitions, deduced or computed; they are in specs/, and there is no code here.
#![tactic(auto)]
