// Overlaid strings in the kept bits of both standards and in whole frames: definitions and theorems in specs/, no code.
// The chapters of specs/:
//   Kept       what a puncturing keeps
//   IsdbT      the five rates of ISDB-T
//   IsdbS      the puncturings of ISDB-S
//   TwoThirds  2/3 of ISDB-S is two periods of ISDB-T
//   Places     two encodings and their exclusive-or, by the place of a step
//   Frames     the frame of every table
#![tactic(auto)]
