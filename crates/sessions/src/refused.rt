//! Effects that the helpers refused to handlers.

use helpers::Refused;
use limits::PARTIES;
use machine::Finished;

/// How many effects of each process's handler were refused, by cause. No contract covers it.
#[derive(Drop)]
pub(crate) struct RefusedEffects {
    /// By the number of the process. There is no process 0.
    counts: [Refused; PARTIES],
}

impl RefusedEffects {
    pub(crate) fn new() -> RefusedEffects {
        RefusedEffects {
            counts: [Refused::default(); PARTIES],
        }
    }

    /// Counts what a finished call of a process was refused. A replayed call was counted when its
    /// message was received.
    pub(crate) fn count(&mut self, process: u8, finished: Finished, refused: Refused) {
        let Finished::Committed { .. } = finished else {
            return;
        };
        if let Some(count) = self.counts.get_mut(process as usize) {
            count.add(refused);
        }
    }

    /// What this process was refused.
    pub(crate) fn of(&self, process: u8) -> Refused {
        self.counts
            .get(process as usize)
            .copied()
            .unwrap_or_default()
    }
}
