// Runs on which edits of the definitions are tried; they are in specs/, and there is no code here.
#![tactic(auto)]
