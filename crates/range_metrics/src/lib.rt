// How large the soft values, metrics and path values of a frame can become: definitions and theorems, no code.
// The chapters of specs/:
//   Size        magnitudes of at most a power of two, through the demapper
//   Rising      of two complementary pairs one metric is not below 0
//   Metrics     the sizes of soft values and metrics
//   Limits      the ends of the ranges
//   Numbers     their numbers, in one place
//   NumberLaws  the numbers belong together
//   Ranges      what an accepted `decode_frame` keeps to
//   Accepted    its rows give these ranges
#![tactic(auto)]
