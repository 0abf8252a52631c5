// The pushes of a run, one after the other: what each gives, and which are accepted. Definitions and theorems in specs/, no code.
// The chapters of specs/:
//   History      a run of pushes; total and greatest of the last accepted sums
//   HistoryLaws  they are what every accepted push of a run gives
//   Answers      which pushes of a run are refused
#![tactic(auto)]
