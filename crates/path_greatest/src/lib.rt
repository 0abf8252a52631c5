// Which path Viterbi's algorithm reads is theory: see specs/. Here is what the calls that read are told of the start.
// The chapters of specs/:
//   Paths      paths, their sums and their order
//   Viterbi    Viterbi's algorithm in whole numbers
//   Greatest   its path is the first of greatest sum
//   Order      laws of the order between paths
//   Exact      whole floats, whose sums are exact
//   Tracks     the f32 algorithm follows the whole-number one
//   Branches   four metrics, and two soft values, as exact branches
//   Decoded    the f32 algorithm traces the first path of greatest sum
//   Integers   integers as pairs, and floats that are integers
//   Starts     the two starts, and the theorem on decoded bits
//   Calls      what a fresh decoder reads from one call and a flush
//   Examples   the definitions computed on small cases
//   Hard       soft pairs of hard bits
//   Corrected  at most four wrong coded bits are corrected
//   Fresh      the path values of a fresh decoder
#![tactic(auto)]

#[derive(Clone, Copy)]
pub enum Start {
    // A state, mod the number of states.
    Given(u8),
    Unknown,
}
