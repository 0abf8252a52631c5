// Parts of a line of bytes, and two slices of bytes compared.
#![tactic(auto)]

ghost use Rattle.std.specs.Prelude.{◌≡◌, cond, [], ◌≤◌, leb, length, take, drop};
ghost use Rattle.bench_split.specs.Parts.{after, until, part_of, parts_of, equal};
ghost use Rattle.bench_split.specs.Agreement.{agreement};

// Where part i of s starts, the parts being separated by `stop`; the end of s where there are fewer.
fn start_of(s: &[u8], stop: u8, i: usize) -> usize
    ensures { (result ≤ length s.now) × (drop result s.now ≡ after stop i s.now) }
{
    let mut left = i;
    for (j, b) in s.iter().enumerate() {
        if left == 0 {
            return j;
        }
        if *b == stop {
            left -= 1;
        }
    }
    s.len()
}

// How many bytes stand before the first `stop` of s; all where there is none.
fn bytes_before(s: &[u8], stop: u8) -> usize
    ensures { result ≡ length (until stop s.now) }
{
    for (j, b) in s.iter().enumerate() {
        if *b == stop {
            return j;
        }
    }
    s.len()
}

// Part i of s.
pub fn part<'a>(s: &'a [u8], stop: u8, i: usize) -> &'a [u8]
    ensures { result.now ≡ part_of stop s.now i }
{
    let rest = &s[start_of(s, stop, i)..];
    &rest[..bytes_before(rest, stop)]
}

// The first n of what s holds, or none where there are fewer.
pub fn front<'a, T>(s: &'a [T], n: usize) -> &'a [T]
    ensures { result.now ≡ cond (leb n (length s.now)) (take n s.now) [] }
{
    if n <= s.len() { &s[..n] } else { &s[..0] }
}

// How many parts s has.
pub fn parts(s: &[u8], stop: u8) -> usize
    ensures { result ≡ parts_of stop s.now }
{
    s.iter().filter(|b| **b == stop).count() + 1
}

// Whether two slices hold the same bytes.
pub fn same(a: &[u8], b: &[u8]) -> bool
    ensures { result ≡ equal a.now b.now }
{
    a == b
}

// How many bytes of two slices agree, place by place.
pub fn agreeing(a: &[u8], b: &[u8]) -> usize
    ensures { result ≡ agreement a.now b.now }
{
    let mut n = 0;
    for (x, y) in a.iter().zip(b) {
        if x == y {
            n += 1;
        }
    }
    n
}
