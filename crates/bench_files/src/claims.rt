// Which run is writing an output: the number of its process stands in a file beside the output, whose name ends in .run.
use crate::files::{front_of, put, put_number};
use crate::system;
use bench_line::space::LINE_BYTES;
use bench_line::words::{digits, part};
use bench_words::text::{name, one_of, say_named, text};
use std::fs::File;
use std::os::fd::AsRawFd;
use std::process;

// The number of standard output.
const STDOUT_FILENO: i32 = 1;

// The name of the file that has the number.
fn run_name(output: &[u8], run: &mut [u8; LINE_BYTES]) -> usize {
    let at = put(run, 0, output);
    put(run, at, b".run")
}

// The path of the system's folder of a process.
fn folder(process: u64, path: &mut [u8; LINE_BYTES]) -> usize {
    let at = put(path, 0, b"/proc/");
    put_number(path, at, process)
}

// The number of this process.
fn own_number(rt: &HostRuntime) -> u64 {
    u64::from(process::id(rt.process()))
}

// Whether there is a process of this number on this machine.
fn is_going(rt: &HostRuntime, process: u64) -> bool {
    let mut path = io::buffer();
    let n = folder(process, &mut path);
    system::is_there(rt, front_of(&path, n))
}

// The number in a file.
fn process_in(rt: &HostRuntime, run: &[u8]) -> Option<u32> {
    let mut space = io::buffer();
    let file = system::open_read(rt, run).ok()?;
    let n = io::read_full(file.as_raw_fd(), &mut space);
    digits(part(front_of(&space, n), b'\n', 0))
}

// The end of a last line: how to go on where the files of a run that is gone are left.
fn say_remove(output: &[u8]) {
    text(b"remove \"");
    name(output);
    text(b".run\" and \"");
    name(output);
    text(b".part\", and run again\n");
}

// Ends the last line where it is not known which run has claimed an output.
fn refuse_unknown(output: &[u8]) {
    text(b": another run may be writing it, or one was broken off: then ");
    say_remove(output);
}

// Ends the last line where another process has claimed an output.
fn refuse_other(rt: &HostRuntime, process: u64, output: &[u8]) {
    text(b": process ");
    io::print_decimal(STDOUT_FILENO, process);
    one_of(
        b", which was writing it, was broken off: | is writing it: wait until it has ended; if that is no run of bench, ",
        is_going(rt, process) as usize,
    );
    say_remove(output);
}

// The last line of a run whose output is claimed.
fn refuse(rt: &HostRuntime, process: Option<u32>, output: &[u8]) {
    say_named(b"failed: cannot write $", output);
    let own = own_number(rt);
    let Some(n) = process else {
        refuse_unknown(output);
        return;
    };
    if u64::from(n) == own {
        text(b": another output of this run is the same file\n");
        return;
    }
    if is_going(rt, own) {
        refuse_other(rt, u64::from(n), output);
    } else {
        refuse_unknown(output);
    }
}

// Puts the number of this process into a file, and closes it.
fn sign(rt: &HostRuntime, file: File) {
    let mut space = io::buffer();
    let at = put_number(&mut space, 0, own_number(rt));
    let n = put(&mut space, at, b"\n");
    io::write_all(file.as_raw_fd(), front_of(&space, n));
}

// Claims an output, and answers whether no other run has it; else says so. Where the claim cannot be written, neither can the output.
pub(crate) fn claim(rt: &HostRuntime, output: &[u8]) -> bool {
    let mut space = io::buffer();
    let n = run_name(output, &mut space);
    let run = front_of(&space, n);
    let error = match system::create(rt, run) {
        Ok(file) => {
            sign(rt, file);
            return true;
        }
        Err(error) => error,
    };
    if error != system::EEXIST {
        return true;
    }
    refuse(rt, process_in(rt, run), output);
    false
}

// Gives a claim up.
pub(crate) fn release(rt: &HostRuntime, output: &[u8]) {
    let mut space = io::buffer();
    let n = run_name(output, &mut space);
    system::remove(rt, front_of(&space, n));
}
