// The paper's confirmer as an abstract machine, and the claim that the engine does the same; they are in specs/, and there is no code here.
#![tactic(auto)]
