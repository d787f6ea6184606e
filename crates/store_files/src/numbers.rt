//! The numbers of a keeper, for those who watch the server.
use crate::keeper::Keeper;
use group_commit::Confirm;
use server_counts::{StandbyNumbers, StoreNumbers};
use std::alloc::{AllocError, Global};
use std::sync::Wait;

impl Keeper {
    /// The condition that replies wait for. None: no standby has a copy.
    pub fn confirm(&self) -> Option<Confirm> {
        self.copying.asked()
    }

    /// The progress of the standby, and true if it has everything that is synced here. None: no standby has a copy.
    pub fn standby_numbers<R: Wait>(&self, rt: &R) -> Option<(StandbyNumbers, bool)> {
        let _asked = self.confirm()?;
        // The standby's notes are read first: it may have more than is reported, and never less.
        let copied = self.copying.copied(rt);
        let progress = &self.copying.progress;
        let (copied_bytes, heard_at, whole_at) = (
            progress.copied_bytes.read(),
            progress.heard_at.read(),
            progress.whole_at.read(),
        );
        let confirmed = copied.unwrap_or(0);
        let lag_notes = self.commits.counts(rt).kept.saturating_sub(confirmed);
        let lag_bytes = progress.synced_bytes.read().saturating_sub(copied_bytes);
        let has_all = copied.is_some() && lag_notes == 0 && lag_bytes == 0;
        let now = self.seconds();
        let numbers = StandbyNumbers {
            confirms: if self.machines(rt) == 2 { 1 } else { 0 },
            confirmed,
            lag_notes,
            lag_bytes,
            lag_seconds: if has_all {
                0
            } else {
                now.saturating_sub(whole_at)
            },
            silence_seconds: now.saturating_sub(heard_at),
        };
        Some((numbers, has_all))
    }

    /// The numbers of notes and syncs, and the progress of the standby.
    pub fn numbers<R: Wait>(&self, rt: &R, alloc: Global) -> Result<StoreNumbers, AllocError> {
        let standby = self.standby_numbers(rt).map(|(numbers, _has_all)| numbers);
        let notes = self.commits.counts(rt);
        Ok(StoreNumbers {
            notes: notes.noted,
            synced: notes.kept,
            syncs: self.syncs.read(alloc)?,
            machines: u64::from(self.machines(rt)),
            standby,
        })
    }
}
