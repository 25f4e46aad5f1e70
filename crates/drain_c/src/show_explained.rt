//! Writing what explains an answer.

ghost use Rattle.std.specs.Prelude.{◌≡◌, IsFalse, IsTrue};
ghost use Rattle.drain_c.specs.Explained.{ShowsExplained, ShowsExplanation, fits};
ghost use Rattle.drain_c.specs.Shown.{ShowsBadMap};

use crate::answer::{Answer, show_bad_map, show_outcome};
use crate::explain::Explained;
use crate::faults::{Faults, faults_of};
use drain_verdict::Refusal;

/// Writes an answer with what explains it.
pub fn show_explained(
    explained: &Result<Explained, Refusal>,
    map: &mut [u8],
    faults: &mut Faults,
    answer: &mut Answer,
)
    ensures { ShowsExplained explained.now (map.old, faults.old) (map.new, faults.new) answer.new }
{
    match explained {
        Ok(explained) => show_explanation(explained, map, faults, answer),
        Err(refusal) => show_outcome(&Err(*refusal), answer),
    }
}

/// Writes an outcome and what explains it, if the map has the length of its memory; else that it has another.
fn show_explanation(explained: &Explained, map: &mut [u8], faults: &mut Faults, answer: &mut Answer)
    ensures fits { IsTrue (fits explained.now.map map.old) → ShowsExplanation explained.now map.new faults.new answer.new }
    ensures misfits { IsFalse (fits explained.now.map map.old) → ShowsBadMap answer.new × (map.new ≡ map.old) × (faults.new ≡ faults.old) }
{
    match &explained.map {
        Some(drawn) => {
            if map.len() != drawn.pixels.len() {
                show_bad_map(answer);
                return;
            }
            map.copy_from_slice(&drawn.pixels);
            *faults = faults_of(&explained.by_rule);
            show_outcome(&Ok(explained.outcome), answer);
        }
        None => show_bad_map(answer),
    }
}
