// The lower part of the picture of a frame that was read: the received points of each combination, and the same after alignment where gain or turn are off.
#![tactic(auto)]

mod cloud;
mod panel;

use cloud::Points;
use isdbs_core::frame::MAIN_SYMBOLS;
use isdbs_core::slots;
use isdbs_core::tmcc::Table;
use panel::{Drawn, Layout};
use picture_sheet::{Sheet, Squares};

// The mean gain and turn of a frame as one number.
#[derive(Clone, Copy)]
pub struct Mean {
    pub re: f64,
    pub im: f64,
}

// What is drawn: the frame's table; and where its gain or turn are off, their mean, by which its points are shown after alignment too.
#[derive(Clone, Copy)]
pub struct Chart {
    pub table: Table,
    pub aside: Option<Mean>,
}

// The panels of the runs of a table.
fn panels(sheet: &mut Sheet, bins: &mut Squares, t: Table, layout: Layout, points: Points) {
    let all = slots::runs(t).unwrap_or(slots::NO_RUNS);
    for (i, &run) in all.runs.iter().enumerate().take(all.count) {
        panel::panel(sheet, bins, Drawn { run, i, layout }, points);
    }
}

// The panels of the points after alignment.
fn aligned_panels(sheet: &mut Sheet, bins: &mut Squares, t: Table, mean: Mean, points: Points) {
    let mut re = [0.0f64; MAIN_SYMBOLS];
    let mut im = [0.0f64; MAIN_SYMBOLS];
    cloud::align(mean, points, &mut re, &mut im);
    let aligned = Points {
        re: &re,
        im: &im,
        clean_re: points.clean_re,
        clean_im: points.clean_im,
    };
    panels(sheet, bins, t, Layout::OnRight, aligned);
}

// Draws the panels of a frame after the picture's upper part, and ends the picture. Lent are the received points and those of the bytes that were read.
pub fn draw(
    sheet: &mut Sheet,
    bins: &mut Squares,
    c: Chart,
    re: &[f64; MAIN_SYMBOLS],
    im: &[f64; MAIN_SYMBOLS],
    clean_re: &[f64; MAIN_SYMBOLS],
    clean_im: &[f64; MAIN_SYMBOLS],
) {
    let points = Points {
        re,
        im,
        clean_re,
        clean_im,
    };
    match c.aside {
        None => panels(sheet, bins, c.table, Layout::Paired, points),
        Some(mean) => {
            panels(sheet, bins, c.table, Layout::OnLeft, points);
            aligned_panels(sheet, bins, c.table, mean, points);
        }
    }
    sheet.put(b"</svg>\n");
}
