// Making a stream on a raster, and when it opens.

ghost use Rattle.std.specs.Prelude.{◌≡◌, ◌≤◌, MatchResult};
ghost use Rattle.stream.specs.declared.Refusal.TheVariants.{PhaseOutOfLimits};
ghost use Rattle.table.specs.Phases.{next_on_raster, open_on_raster};
ghost use Rattle.table.specs.WaitsLemmas.{turn_opens_no_more};

use crate::phasing::OnRaster;
use crate::timed::Timed;
use stream::{Record, Refusal};

impl OnRaster {
    // The phase has to be below the gap.
    pub(crate) fn new(stream: Record, phase: u64) -> Result<OnRaster, Refusal>
        ensures { MatchResult result (λ s. (s.record ≡ stream) × (s.phase ≡ phase)) (λ e. (e ≡ PhaseOutOfLimits) × (stream.row.gap ≤ phase)) }
    {
        if phase >= stream.row().gap {
            return Err(Refusal::PhaseOutOfLimits);
        }
        Ok(OnRaster {
            record: stream,
            phase,
        })
    }
}

// It opens at the moments with its phase.
impl Timed for OnRaster {
    ghost recorded = { λ s. s.record };

    ghost first_wait = { open_on_raster };

    ghost wait_after = { next_on_raster };

    ghost alike = { λ s t. t.phase ≡ s.phase };

    ghost LETTER = { 82 };

    const LETTER: char = 'R';

    ghost opens_no_more = { λ s wait m. turn_opens_no_more wait s.record.row.gap m s.record.within.0.0 };

    fn blank() -> OnRaster {
        OnRaster {
            record: Record::blank(),
            phase: 0,
        }
    }

    fn record(&self) -> Record {
        self.record
    }

    // The remainder comes first, so that no moment is too late for it.
    fn first_wait(&self, moment: u64) -> u64 {
        let gap = self.record.row().gap;
        let past = moment % gap;
        if past <= self.phase {
            self.phase - past
        } else {
            self.phase + gap - past
        }
    }

    // A moment of the raster is followed by the next one a gap later.
    fn wait_after(&self, wait: u64) -> u64 {
        wait.checked_sub(1)
            .unwrap_or_else(|| self.record.row().gap - 1)
    }

    // Field by field, since Rattle has no `..*self` of a struct with a ghost field.
    fn with_record(&self, other: Record) -> OnRaster {
        OnRaster {
            record: other,
            phase: self.phase,
        }
    }
}
