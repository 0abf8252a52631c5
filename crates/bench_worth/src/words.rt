// A verdict in a few words.
use crate::Verdict;
use bench_verdict::last::Worth;
use bench_words::text::{say, text};

// So many slots, and the weakest of them.
fn say_slots(what: &[u8], v: Verdict) {
    text(b"doubtful: valid slots ");
    text(what);
    say(b": $, the weakest slot $", &[v.slots, v.first]);
}

// Why a reading is good or doubtful.
pub fn say_worth(v: Verdict) {
    match v.worth {
        Worth::Certain => text(b"certain"),
        Worth::Firm => text(b"best, firm in every slot"),
        Worth::Weak => say_slots(b"weak", v),
        Worth::Other => say_slots(b"not the best", v),
        Worth::Turned | Worth::Aside => text(b"doubtful: gain or turn off: align first"),
    }
}
