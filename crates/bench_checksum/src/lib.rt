// CRC-32 of bytes and of files, as zip, gzip and crc32 have it.
#![tactic(auto)]

ghost use Rattle.std.specs.Prelude.{◌≡◌};
ghost use Rattle.std.specs.Int.Bits.{bit_xor};
ghost use Rattle.bench_checksum.specs.Crc.{shifted, stepped, register, checksum};

// The register after one bit.
fn shift(r: u32) -> u32
    ensures { result ≡ shifted r }
{
    if r % 2 == 1 {
        return (r / 2) ^ 0xedb8_8320;
    }
    r / 2
}

// The register after a byte.
fn step(r: u32, b: u8) -> u32
    ensures { result ≡ stepped r b }
{
    let a = shift(shift(shift(shift(r ^ u32::from(b)))));
    shift(shift(shift(shift(a))))
}

// The register after bytes.
pub fn more(r: u32, s: &[u8]) -> u32
    ensures { result ≡ register r s.now }
{
    let mut t = r;
    for b in s {
        t = step(t, *b);
    }
    t
}

// The register before any byte.
pub const BEGUN: u32 = 0xffff_ffff;

// The checksum of a register.
pub fn ended(r: u32) -> u32
    ensures { result ≡ bit_xor r 4294967295 }
{
    r ^ 0xffff_ffff
}

// The checksum of bytes at hand. Of bytes in parts: `more` from BEGUN over each, then `ended` (law `in_parts`).
pub fn crc32(s: &[u8]) -> u32
    ensures { result ≡ checksum s.now }
{
    ended(more(BEGUN, s))
}

// How many bytes of a file there are so far, and the register after them.
#[derive(Clone, Copy)]
pub struct Summed {
    pub bytes: usize,
    pub register: u32,
}

// The most blocks of a file that are summed.
const BLOCKS: usize = 1_000_000;

// The bytes of an open file from where it stands, and the register after them; none of a file of more than so many blocks.
pub fn sum_of(file: i32) -> Option<Summed> {
    let mut sum = Summed {
        bytes: 0,
        register: BEGUN,
    };
    for _ in 0..BLOCKS {
        let mut block = io::large_buffer();
        let n = io::read_full(file, &mut block);
        if n == 0 {
            return Some(sum);
        }
        sum = Summed {
            bytes: sum.bytes.saturating_add(n),
            register: more(sum.register, &block[..n]),
        };
    }
    None
}
