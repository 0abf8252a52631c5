// Demand 3, of the definitions: the bytes read from points within the margins of a load are that load. Theorems, no code.
// The chapters of specs/:
//   Bits        labels, and which part of a QPSK symbol carries which bit
//   Steps       each step within the margins favours the sent pair
//   Exact       the bytes read from points within the margins are the load
//   StrainLaws  no step of such a frame is strained
//   Unread      points past the 38,976th are not read
//   Load        the frame depends on the bits of the valid slots alone
#![tactic(auto)]
