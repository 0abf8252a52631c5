// The branch numbers, found by the input u, the low state bit b and the half state j.
use trellis::HALF;

pub type Numbers = [[[u8; HALF]; 2]; 2];

// The number 2X + Y of the branch from the state 2j + b on the input u: BRANCH[u][b][j]. Every eighth entry names its input and state.
// Each entry is `label` of the code (crates/trellis/specs/Code.antt), the parities under 171 and 133 octal; specs/Branches.antt says so (document 02, P4).
pub const BRANCH: Numbers = [
    [
        [
            0, // u = 0, s = 0
            1, 0, 1, 3, 2, 3, 2, 3, // u = 0, s = 16
            2, 3, 2, 0, 1, 0, 1, 2, // u = 0, s = 32
            3, 2, 3, 1, 0, 1, 0, 1, // u = 0, s = 48
            0, 1, 0, 2, 3, 2, 3,
        ],
        [
            3, // u = 0, s = 1
            2, 3, 2, 0, 1, 0, 1, 0, // u = 0, s = 17
            1, 0, 1, 3, 2, 3, 2, 1, // u = 0, s = 33
            0, 1, 0, 2, 3, 2, 3, 2, // u = 0, s = 49
            3, 2, 3, 1, 0, 1, 0,
        ],
    ],
    [
        [
            3, // u = 1, s = 0
            2, 3, 2, 0, 1, 0, 1, 0, // u = 1, s = 16
            1, 0, 1, 3, 2, 3, 2, 1, // u = 1, s = 32
            0, 1, 0, 2, 3, 2, 3, 2, // u = 1, s = 48
            3, 2, 3, 1, 0, 1, 0,
        ],
        [
            0, // u = 1, s = 1
            1, 0, 1, 3, 2, 3, 2, 3, // u = 1, s = 17
            2, 3, 2, 0, 1, 0, 1, 2, // u = 1, s = 33
            3, 2, 3, 1, 0, 1, 0, 1, // u = 1, s = 49
            0, 1, 0, 2, 3, 2, 3,
        ],
    ],
];
