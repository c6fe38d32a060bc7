// SHA-256 of FIPS 180-4 as definitions, for the contracts of the crates above; they are in specs/, and there is no code here.
#![tactic(auto)]
