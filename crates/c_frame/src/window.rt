// The last sums of a run of frames.
ghost use Rattle.std.specs.Prelude.{◌≡◌, not, eqb, set};
ghost use Rattle.strain_window.specs.Rows.{kept_sums, push_rows};
ghost use Rattle.strain_window.specs.Calls.{total_of, greatest_of, push_place, pushed_state};
ghost use Rattle.c_answers.specs.Answers.{answered, left};
ghost use Rattle.c_frame.specs.Windows.{window_of};

use strain_window::WindowState;

// Keeps the sum of a frame, and gives the total and the greatest of the last ones. `clear` is true unless 0.
#[unsafe(no_mangle)]
pub extern "C" fn isdbs_window_push(
    window: u32,
    fill: &mut u32,
    next: &mut u32,
    clear: u8,
    sum: u32,
    kept: &mut [u32],
    total: &mut u32,
    greatest: &mut u32,
) -> u32
    ensures answers { result ≡ answered (push_rows (window_of window fill.old next.old) sum kept.old) }
    ensures filled { fill.new ≡ left result (pushed_state (not (eqb clear 0)) (window_of window fill.old next.old)).fill fill.old }
    ensures follows { next.new ≡ left result (pushed_state (not (eqb clear 0)) (window_of window fill.old next.old)).next next.old }
    ensures keeps { kept.new ≡ left result (set kept.old (push_place (not (eqb clear 0)) (window_of window fill.old next.old)) sum) kept.old }
    ensures sums { total.new ≡ left result (total_of (kept_sums (pushed_state (not (eqb clear 0)) (window_of window fill.old next.old)) kept.new)) total.old }
    ensures tops { greatest.new ≡ left result (greatest_of (kept_sums (pushed_state (not (eqb clear 0)) (window_of window fill.old next.old)) kept.new)) greatest.old }
{
    let state = WindowState {
        window,
        fill: *fill,
        next: *next,
    };
    match strain_window::push(state, clear != 0, sum, kept) {
        Ok(r) => {
            *fill = r.state.fill;
            *next = r.state.next;
            *total = r.total;
            *greatest = r.greatest;
            0
        }
        Err(row) => refusal::number(Err(row)),
    }
}
