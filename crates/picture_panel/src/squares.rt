// Squares of 1/64 by 1/64, shaded by how many points lie in each.
use picture_bars::form::fill_form;
use picture_sheet::{BINS, Sheet, Squares};

// 1 point, 2 or 3, 4 to 15, 16 and more.
#[derive(Clone, Copy, PartialEq, Eq)]
pub(crate) enum Shade {
    One,
    Few,
    Several,
    Many,
}

// The shade of a square of n points, where there are any.
fn shade_of(n: u32) -> Option<Shade> {
    match n {
        0 => None,
        1 => Some(Shade::One),
        2 | 3 => Some(Shade::Few),
        4..=15 => Some(Shade::Several),
        _ => Some(Shade::Many),
    }
}

// A square at (x, y), as a stroke after the one in this row that ended last, where there is one.
fn square(sheet: &mut Sheet, last: Option<usize>, x: usize, y: usize) {
    match last {
        None => fill_form(sheet, b"M@ @h1", &[x, y]),
        Some(end) if end == x => sheet.put(b"h1"),
        Some(end) => fill_form(sheet, b"m@ 0h1", &[x.saturating_sub(end)]),
    }
}

// The squares of one shade in row y.
fn row(sheet: &mut Sheet, counts: &[u32; BINS], y: usize, which: Shade) {
    let mut last = None;
    for (x, &n) in counts.iter().enumerate() {
        if shade_of(n) == Some(which) {
            square(sheet, last, x, y);
            last = Some(x + 1);
        }
    }
}

// The squares of one shade, in units of a square.
pub(crate) fn squares(sheet: &mut Sheet, bins: &Squares, which: Shade, colour: &[u8]) {
    sheet.put(b"<path stroke=\"");
    sheet.put(colour);
    sheet.put(b"\" d=\"");
    for (y, counts) in bins.iter().enumerate() {
        row(sheet, counts, y, which);
    }
    sheet.put(b"\"/>\n");
}
