//! The facts of an explanation, for a page.

use drain_answer::{Outcome, Refusal};
use drain_findings::{Findings, RefusalDetail};

/// An answer and its explanation, on a grid that lies there.
#[derive(Drop)]
pub struct Facts<F> {
    /// The answer for judged rasters.
    pub answer: Result<Outcome, Refusal>,
    /// What was expected and found, if a refusal has more details than its line.
    pub refusal: Option<RefusalDetail>,
    /// What the rules say of every cell, if there is an outcome.
    pub findings: Option<Findings<F>>,
}
