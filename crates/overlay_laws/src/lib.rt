// The exclusive-or of two strings, and that a code encodes it to the exclusive-or of both outputs and both end states: definitions and theorems in specs/, no code.
// The chapters of specs/:
//   Overlaid      the exclusive-or of two lists
//   OverlaidLaws  laws of overlaid lists
//   Coding        encoding the exclusive-or, of one code
//   CodingLaws    it holds of every code of request P7
#![tactic(auto)]
