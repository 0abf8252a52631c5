// The code, its trellis and the decoder's run are definitions: see specs/. Here are the decoder's numbers as the code takes them.
// The chapters of specs/:
//   Lists         lists and numbers made from a function
//   ListLaws      laws of them
//   LaidLaws      a front written over the beginning of a list
//   WrittenLaws   an array written from the front
//   EachLaws      a rule of all numbers below n, by one computed test
//   Code          a convolutional code as a shift register
//   Step          one step of Viterbi's algorithm in f32
//   Run           a decoder's calls as functions of a sequence of steps
//   Taps          the taps of the code: what X and Y sum
//   Parity        the outputs are the parities that document 01 gives
//   Encoded       encoding a list of inputs
//   EncodedLaws   laws of it
//   RunLaws       laws of labels, tracing and path values of a call
//   Isdb          the trellis of ISDB and the tie-break, named once
//   Stretch       two coded stretches compared
//   LinearLaws    the code is linear
//   DistanceLaws  two different stretches differ in at least 10 coded bits
#![tactic(auto)]

// The states of the code, and half of them: 2 ^ 6 at the constraint length 7 of ITU-R BO.1408-1, section 9, Fig. 13 (`isdb` in specs/Code.antt).
pub const STATES: usize = 64;

pub const HALF: usize = 32;

// The bits that leave a decoder at once (document 01: "4,096 bits leave").
pub const BLOCK: usize = 4_096;

// The steps of a call after each of which the maximum is subtracted (document 01: "after each 64th step of a call").
pub const INTERVAL: usize = 64;

// The longest traceback (document 01, refusal 3: "above 1,024").
pub const TRACEBACK_LIMIT: usize = 1_024;

// The traceback of a frame (document 01: "with traceback 128"), and the decision words that it needs (refusal 9: "4,096 + traceback").
pub const FRAME_TRACEBACK: usize = 128;

pub const FRAME_WORDS: usize = BLOCK + FRAME_TRACEBACK;

// The steps of the longest frame (document 01: "QPSK 7/8 of 48 slots: 8,526 bytes, 68,208 steps").
pub const LONGEST_FRAME: usize = 68_208;
