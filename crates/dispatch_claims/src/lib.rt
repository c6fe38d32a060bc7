// The promises of the dispatcher over lists of calls; they are in specs/, and there is no code here.
#![tactic(auto)]
