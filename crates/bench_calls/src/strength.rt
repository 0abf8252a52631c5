// The strength of slots: their leads beside those of a clean frame.
ghost use Rattle.std.specs.Prelude.{◌<◌};

use isdbs_core::frame::SLOTS;

// More than this many times the clean lead is not told apart.
const TIMES: u64 = 9_999;
// Numbers below this one have a hundredfold.
const HUNDREDFOLD: u64 = 0x100_0000_0000_0000;

// The hundredths of n that m is.
fn hundredths(m: u64, n: u64) -> u64
    requires { 0 < n }
{
    if m < HUNDREDFOLD {
        return 100 * m / n;
    }
    m / (n / 100 + 1)
}

// A lead in percent of the clean one.
pub fn percent(lead: u64, clean: u64) -> u64 {
    if clean == 0 {
        return 0;
    }
    let times = lead / clean;
    if times > TIMES {
        return 100 * TIMES;
    }
    hundredths(lead, clean)
}

// More is not told apart, in percent.
const MOST: u64 = 999_900;

// The strength of each slot, of its lead and the clean one.
pub fn strengths(leads: &[u64; SLOTS], clean: &[u64; SLOTS], out: &mut [u32; SLOTS]) {
    for k in 0..SLOTS {
        out[k] = percent(leads[k], clean[k]).min(MOST) as u32;
    }
}
