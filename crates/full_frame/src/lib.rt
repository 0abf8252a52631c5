// The full frame of 39,936 symbols: laid from header, main signal and bursts, and taken apart again. Points are only copied.
#![tactic(auto)]

ghost use Rattle.std.specs.Prelude.{◌≡◌};
ghost use Rattle.refusal.specs.Rows.{first_row};
ghost use Rattle.full_frame_parts.specs.Places.{lent_inputs, full_part, taken};
ghost use Rattle.full_frame_parts.specs.Rows.{lay_rows, take_rows, leaves};

pub use full_frame_parts::{Input, short_frame, short_inputs};
use full_frame_parts::{lay_part, take_part};
use refusal::Refusal;

// A full frame from header, main signal and bursts; symbol j of burst b is point 4 b + j of the burst input.
pub fn lay(
    header_re: &[f64],
    header_im: &[f64],
    main_re: &[f64],
    main_im: &[f64],
    burst_re: &[f64],
    burst_im: &[f64],
    re: &mut [f64],
    im: &mut [f64],
) -> Result<(), Refusal>
    ensures answers { result ≡ first_row (lay_rows (lent_inputs header_re.now main_re.now burst_re.now) (lent_inputs header_im.now main_im.now burst_im.now) re.old im.old) }
    ensures real { re.new ≡ leaves result (full_part (lent_inputs header_re.now main_re.now burst_re.now)) re.old }
    ensures imaginary { im.new ≡ leaves result (full_part (lent_inputs header_im.now main_im.now burst_im.now)) im.old }
{
    if short_inputs(header_re.len(), main_re.len(), burst_re.len()) {
        return Err(Refusal::Symbols);
    }
    if short_inputs(header_im.len(), main_im.len(), burst_im.len()) {
        return Err(Refusal::Symbols);
    }
    if short_frame(re.len(), im.len()) {
        return Err(Refusal::Space);
    }
    lay_part(header_re, main_re, burst_re, re);
    lay_part(header_im, main_im, burst_im, im);
    Ok(())
}

// Header, main signal and bursts of a full frame.
pub fn take_apart(
    re: &[f64],
    im: &[f64],
    header_re: &mut [f64],
    header_im: &mut [f64],
    main_re: &mut [f64],
    main_im: &mut [f64],
    burst_re: &mut [f64],
    burst_im: &mut [f64],
) -> Result<(), Refusal>
    ensures answers { result ≡ first_row (take_rows re.now im.now (lent_inputs header_re.old main_re.old burst_re.old) (lent_inputs header_im.old main_im.old burst_im.old)) }
    ensures header_real { header_re.new ≡ leaves result (taken Input.Header re.now) header_re.old }
    ensures header_imaginary { header_im.new ≡ leaves result (taken Input.Header im.now) header_im.old }
    ensures main_real { main_re.new ≡ leaves result (taken Input.Main re.now) main_re.old }
    ensures main_imaginary { main_im.new ≡ leaves result (taken Input.Main im.now) main_im.old }
    ensures burst_real { burst_re.new ≡ leaves result (taken Input.Burst re.now) burst_re.old }
    ensures burst_imaginary { burst_im.new ≡ leaves result (taken Input.Burst im.now) burst_im.old }
{
    if short_frame(re.len(), im.len()) {
        return Err(Refusal::Symbols);
    }
    if short_inputs(header_re.len(), main_re.len(), burst_re.len()) {
        return Err(Refusal::Space);
    }
    if short_inputs(header_im.len(), main_im.len(), burst_im.len()) {
        return Err(Refusal::Space);
    }
    take_part(re, header_re, main_re, burst_re);
    take_part(im, header_im, main_im, burst_im);
    Ok(())
}
