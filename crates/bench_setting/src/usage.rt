// How the program is used, and its version.
use bench_words::text::{quoted, text};

fn usage_commands() {
    text(
        b"usage:\n  \
        bench                                                            a demonstration on built-in data\n  \
        bench make TABLE MAPPING KIND LOAD FRAME                         bytes of LOAD to points in FRAME\n  \
        bench read TABLE MAPPING KIND FRAME BYTES [unknown] [SCALES] [full] [all] [best BYTES2] [chart FILE] [report FILE] [json FILE]\n                                                                   \
        points of FRAME to bytes in BYTES, with a verdict; BYTES2: the best reading's; FILE: a picture, a report, the same as JSON\n  \
        bench best TABLE MAPPING KIND FRAME BYTES [unknown] [SCALES]     the best reading of the points of FRAME to BYTES, and its strength in each slot\n  \
        bench judge TABLE MAPPING KIND FRAME BYTES                       whether the points of FRAME prove the bytes of BYTES\n  \
        bench compare TABLE SENT READ                                    how many bytes agree\n  \
        bench lay HEADER MAIN BURST FULL                                 header, main and burst points to the points of FULL\n  \
        bench part FULL HEADER MAIN BURST                                points of FULL to header, main and burst points\n  \
        bench bytes TABLE MAPPING KIND FRAME BYTES                       the full load behind the points of FRAME to BYTES\n  \
        bench series WINDOW TABLE MAPPING KIND FRAME..                   strained steps of each FRAME; total and greatest of the last WINDOW\n  \
        bench mend START END BITS OUT                                    coded bits of BITS to the coded stretch within four bits in OUT\n  \
        bench overlay LOAD1 LOAD2 OUT                                    the exclusive-or of two loads to OUT\n  \
        bench help                                                       these words\n  \
        bench version                                                    the version of the program\n",
    );
}

fn usage_words() {
    text(
        b"  TABLE    word:slots entries joined by commas, up to four, as 7:44,1:4 (word 0 to 15, slots 0 to 255)\n  \
        MAPPING  three digits 0 or 1: conjugate, qpsk_p1_on_q, tc8psk_c1_is_y; 001 is the default reading\n  \
        KIND     first (of a superframe) or other; of read and a full frame also header: as that says\n  \
        FRAME    38,976 points, interleaved little-endian f64 parts; f32 where the name ends in .cf32; of read also a full frame\n  \
        full, all    FRAME is a full frame, as it is by its length; the report on the screen has every slot\n  \
        HEADER, MAIN, BURST, FULL    192, 38,976, 768 and 39,936 points in the same forms as FRAME\n  \
        .ci16, .sigmf-data    endings of points that are read and not written: 16-bit integers in units of 1/32,768; as the .sigmf-meta beside it says\n  \
        WINDOW   how many of the last frames are summed, 1 to 256\n  \
        LOAD1, LOAD2    raw bytes, equally many in both, up to 9,744\n  \
        SCALES   scale N for all, or scales A,B,C,D,E,F,G in the order of words 1 to 7; 8 where they are not given\n  \
        START, END, BITS    states, taken mod 64; coded bits X, Y of up to 4,096 steps, a byte of 0 or 1 for each\n  \
        N        a number as 8 or 0.5, up to three digits before and after the point\n",
    );
}

fn usage() {
    usage_commands();
    usage_words();
}

// bench help
pub fn help() {
    usage();
    text(b"ok\n");
}

// The version: the number stands here alone.
pub const VERSION: [u8; 5] = [b'1', b'.', b'0', b'.', b'0'];

// bench version
pub fn version() {
    text(b"bench ");
    text(&VERSION);
    text(b"\nok\n");
}

// The last line of a command that is not understood, after the usage.
pub fn misused(why: &[u8], word: &[u8]) {
    usage();
    text(b"failed: ");
    text(why);
    if !word.is_empty() {
        text(b" ");
        quoted(word);
    }
    text(b"\n");
}
