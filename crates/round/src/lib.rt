// A round as a whole; its definitions are in specs/, and there is no code here.
#![tactic(auto)]
