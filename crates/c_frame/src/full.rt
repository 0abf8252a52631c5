// Calls on full frames of 39,936 symbols, with header and bursts.
ghost use Rattle.std.specs.Prelude.{◌≡◌};
ghost use Rattle.trellis.specs.Lists.{laid};
ghost use Rattle.full_frame_parts.specs.declared.Input.TheVariants.{Header, Main, Burst};
ghost use Rattle.full_frame_parts.specs.Places.{lent_inputs, full_part, taken};
ghost use Rattle.full_frame_parts.specs.Rows.{lay_rows, take_rows};
ghost use Rattle.c_answers.specs.Answers.{answered, left};

// A full frame from header, main signal and bursts; symbol j of burst b is point 4 b + j of the burst input.
#[unsafe(no_mangle)]
pub extern "C" fn isdbs_lay_frame(
    header_re: &[f64],
    header_im: &[f64],
    main_re: &[f64],
    main_im: &[f64],
    burst_re: &[f64],
    burst_im: &[f64],
    re: &mut [f64],
    im: &mut [f64],
) -> u32
    ensures answers { result ≡ answered (lay_rows (lent_inputs header_re.now main_re.now burst_re.now) (lent_inputs header_im.now main_im.now burst_im.now) re.old im.old) }
    ensures real { re.new ≡ left result (laid (full_part (lent_inputs header_re.now main_re.now burst_re.now)) re.old) re.old }
    ensures imaginary { im.new ≡ left result (laid (full_part (lent_inputs header_im.now main_im.now burst_im.now)) im.old) im.old }
{
    let a = full_frame::lay(
        header_re, header_im, main_re, main_im, burst_re, burst_im, re, im,
    );
    refusal::number(a)
}

// Header, main signal and bursts of a full frame.
#[unsafe(no_mangle)]
pub extern "C" fn isdbs_take_frame(
    re: &[f64],
    im: &[f64],
    header_re: &mut [f64],
    header_im: &mut [f64],
    main_re: &mut [f64],
    main_im: &mut [f64],
    burst_re: &mut [f64],
    burst_im: &mut [f64],
) -> u32
    ensures answers { result ≡ answered (take_rows re.now im.now (lent_inputs header_re.old main_re.old burst_re.old) (lent_inputs header_im.old main_im.old burst_im.old)) }
    ensures header_real { header_re.new ≡ left result (laid (taken Header re.now) header_re.old) header_re.old }
    ensures header_imaginary { header_im.new ≡ left result (laid (taken Header im.now) header_im.old) header_im.old }
    ensures main_real { main_re.new ≡ left result (laid (taken Main re.now) main_re.old) main_re.old }
    ensures main_imaginary { main_im.new ≡ left result (laid (taken Main im.now) main_im.old) main_im.old }
    ensures burst_real { burst_re.new ≡ left result (laid (taken Burst re.now) burst_re.old) burst_re.old }
    ensures burst_imaginary { burst_im.new ≡ left result (laid (taken Burst im.now) burst_im.old) burst_im.old }
{
    let a = full_frame::take_apart(
        re, im, header_re, header_im, main_re, main_im, burst_re, burst_im,
    );
    refusal::number(a)
}
