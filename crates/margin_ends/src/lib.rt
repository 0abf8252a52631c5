// The ends of demand 3's margins, each a bit pattern with its fraction as a law: specs/, no code.
#![tactic(auto)]
