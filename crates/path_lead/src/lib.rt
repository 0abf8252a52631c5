// That the sent state leads, and so a whole frame is decoded: definitions and theorems in specs/, no code.
// The chapters of specs/:
//   Favour      what is received: metrics that favour the sent pair
//   Lists       entries of path values, bits of a decision word
//   Ties        where values differ both tie-breaks decide alike
//   Complement  the branches that leave a state send complementary pairs
//   Step        one step keeps the lead, less the rounding
//   Maximum     subtracting the maximum costs the lead nothing
//   Window      the lead within 64 steps
//   Traceback   decision words that point along a path give its inputs
//   Sent        the sent state always leads
//   Known       known bits after the last step keep the lead
//   Frame       a whole frame is decoded
#![tactic(auto)]
