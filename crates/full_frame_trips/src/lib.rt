// Laying a full frame and taking it apart undo each other: the two calls in a row, each way. The rows of both are tested first, so that a refused call writes nothing.
#![tactic(auto)]

ghost use Rattle.std.specs.Prelude.{◌≡◌, ◌||◌, take};
ghost use Rattle.refusal.specs.Rows.{first_row};
ghost use Rattle.full_frame_parts.specs.declared.Input.TheVariants.{Header, Main, Burst};
ghost use Rattle.full_frame_parts.specs.Places.{lent_inputs, full_part, taken};
ghost use Rattle.full_frame_parts.specs.Rows.{short_inputs, leaves};
ghost use Rattle.full_frame_trips.specs.Rows.{both_rows, lay_take_rows, take_lay_rows};
ghost use Rattle.isdbs_frame.specs.Frame.{frame_symbols, main_symbols, burst_points, header_symbols};

use full_frame::{lay, short_frame, short_inputs, take_apart};
use refusal::Refusal;

// Whether either part of header, main signal or bursts is short.
fn short_parts(
    header_re: usize,
    header_im: usize,
    main_re: usize,
    main_im: usize,
    burst_re: usize,
    burst_im: usize,
) -> bool
    ensures { result ≡ (short_inputs header_re main_re burst_re || short_inputs header_im main_im burst_im) }
{
    if short_inputs(header_re, main_re, burst_re) {
        return true;
    }
    short_inputs(header_im, main_im, burst_im)
}

// The rows of two calls: a short input, then a short output of the first or of the second.
fn first_row(input: bool, output: bool, last: bool) -> Result<(), Refusal>
    ensures { result ≡ first_row (both_rows input output last) }
{
    if input {
        return Err(Refusal::Symbols);
    }
    if output {
        return Err(Refusal::Space);
    }
    if last {
        return Err(Refusal::Space);
    }
    Ok(())
}

// Laying and then taking apart gives the first 192, 38,976 and 768 points of each part back.
pub fn lay_then_take(
    header_re: &[f64],
    header_im: &[f64],
    main_re: &[f64],
    main_im: &[f64],
    burst_re: &[f64],
    burst_im: &[f64],
    re: &mut [f64],
    im: &mut [f64],
    out_header_re: &mut [f64],
    out_header_im: &mut [f64],
    out_main_re: &mut [f64],
    out_main_im: &mut [f64],
    out_burst_re: &mut [f64],
    out_burst_im: &mut [f64],
) -> Result<(), Refusal>
    ensures answers { result ≡ first_row (lay_take_rows (lent_inputs header_re.now main_re.now burst_re.now) (lent_inputs header_im.now main_im.now burst_im.now) re.old im.old (lent_inputs out_header_re.old out_main_re.old out_burst_re.old) (lent_inputs out_header_im.old out_main_im.old out_burst_im.old)) }
    ensures real { re.new ≡ leaves result (full_part (lent_inputs header_re.now main_re.now burst_re.now)) re.old }
    ensures imaginary { im.new ≡ leaves result (full_part (lent_inputs header_im.now main_im.now burst_im.now)) im.old }
    ensures header_real { out_header_re.new ≡ leaves result (take header_symbols header_re.now) out_header_re.old }
    ensures header_imaginary { out_header_im.new ≡ leaves result (take header_symbols header_im.now) out_header_im.old }
    ensures main_real { out_main_re.new ≡ leaves result (take main_symbols main_re.now) out_main_re.old }
    ensures main_imaginary { out_main_im.new ≡ leaves result (take main_symbols main_im.now) out_main_im.old }
    ensures burst_real { out_burst_re.new ≡ leaves result (take burst_points burst_re.now) out_burst_re.old }
    ensures burst_imaginary { out_burst_im.new ≡ leaves result (take burst_points burst_im.now) out_burst_im.old }
{
    let inputs = short_parts(
        header_re.len(),
        header_im.len(),
        main_re.len(),
        main_im.len(),
        burst_re.len(),
        burst_im.len(),
    );
    let outputs = short_parts(
        out_header_re.len(),
        out_header_im.len(),
        out_main_re.len(),
        out_main_im.len(),
        out_burst_re.len(),
        out_burst_im.len(),
    );
    first_row(inputs, short_frame(re.len(), im.len()), outputs)?;
    let _ = lay(
        header_re, header_im, main_re, main_im, burst_re, burst_im, re, im,
    );
    take_apart(
        re,
        im,
        out_header_re,
        out_header_im,
        out_main_re,
        out_main_im,
        out_burst_re,
        out_burst_im,
    )
}

// Taking apart and then laying gives the first 39,936 points of each part back.
pub fn take_then_lay(
    re: &[f64],
    im: &[f64],
    header_re: &mut [f64],
    header_im: &mut [f64],
    main_re: &mut [f64],
    main_im: &mut [f64],
    burst_re: &mut [f64],
    burst_im: &mut [f64],
    out_re: &mut [f64],
    out_im: &mut [f64],
) -> Result<(), Refusal>
    ensures answers { result ≡ first_row (take_lay_rows re.now im.now (lent_inputs header_re.old main_re.old burst_re.old) (lent_inputs header_im.old main_im.old burst_im.old) out_re.old out_im.old) }
    ensures real { out_re.new ≡ leaves result (take frame_symbols re.now) out_re.old }
    ensures imaginary { out_im.new ≡ leaves result (take frame_symbols im.now) out_im.old }
    ensures header_real { header_re.new ≡ leaves result (taken Header re.now) header_re.old }
    ensures header_imaginary { header_im.new ≡ leaves result (taken Header im.now) header_im.old }
    ensures main_real { main_re.new ≡ leaves result (taken Main re.now) main_re.old }
    ensures main_imaginary { main_im.new ≡ leaves result (taken Main im.now) main_im.old }
    ensures burst_real { burst_re.new ≡ leaves result (taken Burst re.now) burst_re.old }
    ensures burst_imaginary { burst_im.new ≡ leaves result (taken Burst im.now) burst_im.old }
{
    let parts = short_parts(
        header_re.len(),
        header_im.len(),
        main_re.len(),
        main_im.len(),
        burst_re.len(),
        burst_im.len(),
    );
    let frame = short_frame(re.len(), im.len());
    first_row(frame, parts, short_frame(out_re.len(), out_im.len()))?;
    let _ = take_apart(
        re, im, header_re, header_im, main_re, main_im, burst_re, burst_im,
    );
    lay(
        header_re, header_im, main_re, main_im, burst_re, burst_im, out_re, out_im,
    )
}
