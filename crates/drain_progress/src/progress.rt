//! Progress, on standard error: the rows of a device are counted as its bytes are read or written, and a line is
//! printed when it is due.
//!
//! Whether a line can be written or the clock read doesn't change the run.

use crate::progress_lines::{Phase, row_line, stage_line};
use crate::rows::Rows;
use crate::throttle::Throttle;
use drain_answer::lines::{Line, words};
use drain_answer::outcome::Status;
use drain_answer::print::print_line;
use drain_device::{Writer, write_nothing};
use drain_sets::{Follow, Stage};
use std::cell::Cell;
use std::time::Instant;

/// How progress of a run is reported, and since when it runs; nothing is reported if that isn't known.
#[derive(Drop)]
pub struct Progress<'a> {
    rt: &'a HostRuntime,
    start: Option<Instant>,
    throttle: Cell<Throttle>,
}

/// The rows of one device, how many of its bytes were read or written, and how many rows so.
#[derive(Drop)]
pub struct RowCounter<'a> {
    progress: &'a Progress<'a>,
    rows: Rows,
    bytes: u64,
    reached: u32,
}

impl<'a> Progress<'a> {
    /// Progress of a run that starts now. It reports nothing if not requested, if standard error is closed (the first
    /// file opened would take its place), or if the clock can't be read.
    pub fn new(rt: &'a HostRuntime, requested: bool) -> Progress<'a> {
        Progress {
            rt,
            start: if requested { start(rt) } else { None },
            throttle: Cell::new(Throttle::new(0)),
        }
    }

    /// Whether progress is reported.
    pub fn is_on(&self) -> bool {
        self.start.is_some()
    }

    /// A counter of these rows, if progress is reported.
    pub fn counter(&'a self, rows: Rows) -> Option<RowCounter<'a>> {
        if !self.is_on() {
            return None;
        }
        Some(RowCounter {
            progress: self,
            rows,
            bytes: 0,
            reached: rows.before,
        })
    }

    /// Reports this number of rows, if a line is due. The last row to be checked is always reported; if the last row
    /// was read to make products, they are made now.
    fn reach(&self, phase: Phase, row: u32, rows: u32) {
        let Some(now) = self.now() else {
            return;
        };
        let mut throttle = self.throttle.get();
        match phase {
            Phase::Checking if row == rows => {
                throttle.restart(now);
                self.print(&row_line(phase, row, rows));
            }
            Phase::Reading if row == rows => {
                throttle.restart(now);
                self.print(&words("drain: making"));
            }
            _ => {
                if throttle.is_due(now) {
                    self.print(&row_line(phase, row, rows));
                }
            }
        }
        self.throttle.set(throttle);
    }

    /// Reports that a stage of making products begins, if a line is due.
    fn begin(&self, stage: Stage) {
        let Some(now) = self.now() else {
            return;
        };
        let mut throttle = self.throttle.get();
        if throttle.is_due(now) {
            self.print(&stage_line(stage));
        }
        self.throttle.set(throttle);
    }

    /// How many milliseconds the run has taken so far.
    fn now(&self) -> Option<u64> {
        let passed = self.start?.elapsed(self.rt).ok()?;
        u64::try_from(passed.as_millis()).ok()
    }

    fn print(&self, line: &Line) {
        let _ = print_line(&mut Writer::new(self.rt.stderr()), line, Status::Done);
    }
}

/// Reports which stage of making products begins.
#[derive(Clone, Copy)]
pub struct MakeProgress<'a>(pub &'a Progress<'a>);

impl Follow for MakeProgress<'_> {
    fn begin(&mut self, stage: Stage) {
        self.0.begin(stage);
    }
}

impl<'a> RowCounter<'a> {
    /// This number of bytes more was read or written.
    pub fn add(&mut self, bytes: usize) {
        self.bytes = self.bytes.saturating_add(bytes as u64);
        let rows = u32::try_from(self.rows.ends.rows_within(self.bytes)).unwrap_or(u32::MAX);
        let reached = self.rows.before.saturating_add(rows);
        if reached > self.reached {
            self.reached = reached;
            self.progress.reach(self.rows.phase, reached, self.rows.all);
        }
    }
}

/// When a run starts, if standard error is open and there is a clock.
fn start(rt: &HostRuntime) -> Option<Instant> {
    if write_nothing(&mut Writer::new(rt.stderr())).is_err() {
        return None;
    }
    Instant::now(rt).ok()
}
