//! Statistics where no scores are asked for.

ghost use Rattle.weights.specs.Unscored.{no_scores};

use settings::Statistics;
use terms::Term;

/// The norms of the 256 length ids, all the same.
const NORMS: [u32; 256] = [1; 256];

/// Statistics by which no term weighs anything: what only asks for matches scores by them.
#[derive(Clone, Copy, Debug)]
pub struct NoScores;

impl Statistics for NoScores {
    ghost similarity = { λ s. no_scores };

    fn weight_of(&self, _term: &Term) -> u64 {
        0
    }

    fn norms(&self) -> &[u32] {
        &NORMS
    }
}
