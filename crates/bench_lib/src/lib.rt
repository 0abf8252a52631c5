// The bench program's commands, on a line of words that are separated by 0 bytes. Reports go to standard output; the last line is ok, or
// begins with doubtful, refused or failed. A crate for each command.
#![tactic(auto)]

pub use bench_line::space::LINE_BYTES;
use bench_line::words::{part, parts, same};
use bench_setting::usage;

// Puts src into dst from `at` on, as far as it goes, and answers where it ends.
pub fn put(dst: &mut [u8; LINE_BYTES], at: usize, src: &[u8]) -> usize {
    bench_files::files::put(dst, at, src)
}

// Which part of a list a word is; the end of the list where it is none.
fn place_of(list: &[u8], word: &[u8]) -> usize {
    let n = parts(list, b' ');
    for i in 0..n {
        if same(part(list, b' ', i), word) {
            return i;
        }
    }
    n
}

// The place of a command's word among all of them.
fn command_of(word: &[u8]) -> usize {
    place_of(
        b"make read judge compare lay part bytes series mend overlay best frames cut capture version help --help -h check",
        word,
    )
}

// bench help
fn help() {
    bench_frames::show_usage();
    bench_check::show_usage();
    usage::help();
}

// A word that is no command.
fn unknown(word: &[u8]) {
    bench_frames::show_usage();
    bench_check::show_usage();
    usage::misused(b"there is no command", word);
}

// Runs the command of a line, by its place.
pub fn run(rt: &HostRuntime, line: &[u8]) {
    let word = part(line, 0, 0);
    match command_of(word) {
        0 => bench_make::make(rt, line),
        1 => bench_read::read(rt, line),
        2 => bench_judge::judge_command(rt, line),
        3 => bench_compare::compare(rt, line),
        4 => bench_full::lay(rt, line),
        5 => bench_full::take_apart(rt, line),
        6 => bench_wanted::bytes(rt, line),
        7 => bench_series::series(rt, line),
        8 => bench_mend::mend_command(rt, line),
        9 => bench_overlay::overlay_command(rt, line),
        10 => bench_best::best(rt, line),
        11 => bench_frames::frames(rt, line),
        12 => bench_frames::cut(rt, line),
        13 => bench_capture::capture(rt, line),
        14 => usage::version(),
        15..=17 => help(),
        18 => bench_check::check(rt, line),
        _ => unknown(word),
    }
}

// Runs the demonstration.
pub fn demonstrate() {
    bench_demo::demonstrate();
}

// Runs the command in the first n bytes of a buffer.
pub fn run_first(rt: &HostRuntime, line: &[u8; LINE_BYTES], n: usize) {
    if n >= LINE_BYTES {
        usage::misused(b"the words are longer than 4,095 bytes together", b"");
        return;
    }
    run(rt, bench_line::words::front(line, n));
}

// The place after a byte that separates words.
pub fn after_separator(at: usize) -> usize {
    if at < LINE_BYTES { at + 1 } else { at }
}
