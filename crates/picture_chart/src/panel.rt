// A panel: the points of a run over the lines of its picture.
use crate::cloud;
use crate::cloud::Points;
use isdbs_core::slots::Run;
use picture_bars::form::fill_form;
use picture_sheet::{Sheet, Squares};

// How panels stand: those of two runs in a row; or of one, the received points on the left and those after alignment on the right.
#[derive(Clone, Copy)]
pub(crate) enum Layout {
    Paired,
    OnLeft,
    OnRight,
}

// The panel of run i.
#[derive(Clone, Copy)]
pub(crate) struct Drawn {
    pub(crate) run: Run,
    pub(crate) i: usize,
    pub(crate) layout: Layout,
}

// The squares of a run.
fn squares(sheet: &mut Sheet, bins: &mut Squares, r: Run, points: Points) {
    cloud::gather(bins, r, false, points);
    picture_panel::within(sheet, bins);
    cloud::gather(bins, r, true, points);
    picture_panel::outside(sheet, bins);
}

// Where row j of the panels begins.
fn row_top(j: usize) -> usize {
    match j {
        0 => 2580,
        1 => 3520,
        2 => 4460,
        _ => 5400,
    }
}

// The place of a panel, from the left and from the top.
fn place(p: Drawn) -> [usize; 2] {
    match p.layout {
        Layout::Paired => [120 + 860 * (p.i % 2), row_top(p.i / 2)],
        Layout::OnLeft => [120, row_top(p.i)],
        Layout::OnRight => [980, row_top(p.i)],
    }
}

// The lines above the panel of a run of n points.
fn title(sheet: &mut Sheet, p: Drawn, n: usize, beyond: usize) {
    match p.layout {
        Layout::OnRight => picture_panel::aligned_title(sheet, p.i, beyond),
        _ => picture_panel::title(sheet, p.i, p.run.combination, n, beyond),
    }
}

// Draws a panel: what stands below the points, the points, and their margins.
pub(crate) fn panel(sheet: &mut Sheet, bins: &mut Squares, p: Drawn, points: Points) {
    let r = p.run;
    if r.symbol_end < r.symbol_start {
        return;
    }
    let n = r.symbol_end - r.symbol_start;
    fill_form(sheet, b"<g transform=\"translate(@ @)\">\n", &place(p));
    title(sheet, p, n, cloud::beyond(r, points));
    picture_panel::grid(sheet);
    picture_panel::axes(sheet);
    squares(sheet, bins, r, points);
    picture_panel::marks(sheet, r.combination.modulation());
}
