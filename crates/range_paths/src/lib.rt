// How large path values can become is theory: see specs/.
// The chapters of specs/:
//   Bounds     bounds that pass through every rounding
//   Values     bounds as numbers of the format
//   Steps      what one step may add to a path value
//   Reach      six steps lead from any state to every other
//   Invariant  path values between two subtractions of the maximum
//   Maximum    the maximum, and what subtracting it leaves
//   Known      a known bit keeps the bounds
//   Run        the path values of a whole call
//   Starts     fresh decoders keep the bounds
#![tactic(auto)]
