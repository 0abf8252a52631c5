// What lies within the margins of a load is read best as that load: definitions and laws in specs/, no code.
#![tactic(auto)]
