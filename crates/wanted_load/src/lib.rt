// Request P9: the bytes behind a wanted frame. What the frame shows is read off, encoded again and compared (`wanted_match`); the lent bytes are written only then.
#![tactic(auto)]

ghost use Rattle.std.specs.Prelude.{◌≡◌, cond, ◌≤◌, length};
ghost use Rattle.trellis.specs.Lists.{laid};
ghost use Rattle.refusal.specs.Rows.{first_row, Either};
ghost use Rattle.isdbs_frame.specs.Frame.{main_symbols};
ghost use Rattle.isdbs_plan.specs.RunsOf.{plan_of, Planned, load_bytes};
ghost use Rattle.encode_blocks.specs.Blocks.{block_symbols};
ghost use Rattle.wanted_load.specs.Rows.{lent_rows, earlier_rows};
ghost use Rattle.wanted_match.specs.Alike.{Matches};
ghost use Rattle.wanted_load.specs.Found.{Answered, Searched, Outcome, Turned};

use encode_blocks::{BLOCK_SYMBOLS, FrameForm};
use isdbs_core::frame::{LOAD_BYTES, MAIN_SYMBOLS};
use isdbs_core::slots::Plan;
use isdbs_core::tmcc::{Table, table_answer};
use isdbs_plan::plan_of;
pub use isdbs_points::Mapping;
use isdbs_points::start_state;
use refusal::Refusal;
use wanted_match::matches;
use wanted_read::read_load;

// A load, laid over the beginning of the lent bytes.
fn put(load: &[u8], bytes: &mut [u8])
    requires { length load.now ≤ length bytes.old }
    ensures { bytes.new ≡ laid load.now bytes.old }
{
    bytes[..load.len()].copy_from_slice(load);
}

// Lays a load over the beginning of the lent bytes if it encodes to the frame.
fn keep_load(
    f: FrameForm,
    re: &[f64],
    im: &[f64],
    load: &[u8],
    xs: &mut [f64],
    ys: &mut [f64],
    bytes: &mut [u8],
) -> bool
    requires { Planned f.plan × (main_symbols ≤ length re.now) × (main_symbols ≤ length im.now) × (block_symbols ≤ length xs.old) × (block_symbols ≤ length ys.old) × (length load.now ≤ length bytes.old) }
    ensures { Matches f.plan.table f.mapping f.first re.now im.now load.now result × (bytes.new ≡ cond result (laid load.now bytes.old) bytes.old) }
{
    if matches(f, re, im, load, xs, ys) {
        put(load, bytes);
        true
    } else {
        false
    }
}

// Reads the load off the frame, encodes it and compares; what it finds is written once that is known. The other lent slices are scratch space.
fn search_load(
    f: FrameForm,
    re: &[f64],
    im: &[f64],
    load: &mut [u8],
    xs: &mut [f64],
    ys: &mut [f64],
    bytes: &mut [u8],
) -> bool
    requires { Planned f.plan × (main_symbols ≤ length re.now) × (main_symbols ≤ length im.now) × (load_bytes f.plan.table ≤ length load.old) × (block_symbols ≤ length xs.old) × (block_symbols ≤ length ys.old) × (load_bytes f.plan.table ≤ length bytes.old) }
    ensures { Searched f.plan.table f.mapping f.first re.now im.now result bytes.old bytes.new }
{
    let p = f.plan;
    let m = f.mapping;
    let start = start_state(f.first);
    read_load(p, m, start, re, im, load);
    let n = p.bytes;
    keep_load(f, re, im, &load[0..n], xs, ys, bytes)
}

// The same in lent arrays: the load of any accepted table, and one block of points.
fn search_arrays(
    f: FrameForm,
    re: &[f64],
    im: &[f64],
    load: &mut [u8; LOAD_BYTES],
    xs: &mut [f64; BLOCK_SYMBOLS],
    ys: &mut [f64; BLOCK_SYMBOLS],
    bytes: &mut [u8],
) -> bool
    requires { Planned f.plan × (main_symbols ≤ length re.now) × (main_symbols ≤ length im.now) × (load_bytes f.plan.table ≤ length bytes.old) }
    ensures { Searched f.plan.table f.mapping f.first re.now im.now result bytes.old bytes.new }
{
    search_load(f, re, im, load, xs, ys, bytes)
}

// The full load that encodes to the frame, written over the beginning of the lent bytes. Where there is none, no byte changes.
fn find_load(f: FrameForm, re: &[f64], im: &[f64], bytes: &mut [u8]) -> bool
    requires { Planned f.plan × (main_symbols ≤ length re.now) × (main_symbols ≤ length im.now) × (load_bytes f.plan.table ≤ length bytes.old) }
    ensures { Searched f.plan.table f.mapping f.first re.now im.now result bytes.old bytes.new }
{
    let mut load = [0u8; LOAD_BYTES];
    let mut xs = [0.0f64; BLOCK_SYMBOLS];
    let mut ys = [0.0f64; BLOCK_SYMBOLS];
    search_arrays(f, re, im, &mut load, &mut xs, &mut ys, bytes)
}

// Rows 6 and 9: the lent slices have these lengths, and the load has `need` bytes.
fn lent_answer(need: usize, re: usize, im: usize, bytes: usize) -> Result<(), Refusal>
    ensures { result ≡ first_row (lent_rows need re im bytes) }
{
    if re < MAIN_SYMBOLS {
        return Err(Refusal::Symbols);
    }
    if im < MAIN_SYMBOLS {
        return Err(Refusal::Symbols);
    }
    if bytes < need {
        return Err(Refusal::Space);
    }
    Ok(())
}

// Why the call is turned back before the frame is read.
fn earlier_answer(p: Plan, re: usize, im: usize, bytes: usize) -> Result<(), Refusal>
    requires { p ≡ plan_of p.table }
    ensures { result ≡ first_row (earlier_rows p.table re im bytes) }
{
    table_answer(p.table)?;
    lent_answer(p.bytes, re, im, bytes)
}

// The bytes behind a wanted frame, and how many they are: the full load that encodes, from the start state for `first`, to exactly the first 38,976 points that are lent.
pub fn wanted_load(
    re: &[f64],
    im: &[f64],
    t: Table,
    m: Mapping,
    first: bool,
    bytes: &mut [u8],
) -> Result<usize, Refusal>
    ensures answers { Answered t m first re.now im.now (length bytes.old) result }
    ensures leaves { Either (first_row (earlier_rows t (length re.now) (length im.now) (length bytes.old)))
        (Outcome t m first re.now im.now result bytes.old bytes.new)
        (Turned (first_row (earlier_rows t (length re.now) (length im.now) (length bytes.old))) result bytes.old bytes.new) }
{
    let p = plan_of(t);
    earlier_answer(p, re.len(), im.len(), bytes.len())?;
    let f = FrameForm {
        plan: p,
        mapping: m,
        first,
    };
    if find_load(f, re, im, bytes) {
        Ok(p.bytes)
    } else {
        Err(Refusal::NoLoad)
    }
}
