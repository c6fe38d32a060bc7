// RFC 8554 as definitions, for the contracts of the crates above; they are in specs/, and there is no code here.
#![tactic(auto)]
