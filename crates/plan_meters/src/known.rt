//! What the meters of a plan have.

use crate::hidden::HiddenReadings;
use group_plan::Readings;

/// The readings of the meters, the mask words that hide them, and the readings hidden under these words. Nothing of it changes.
#[derive(Drop)]
pub struct Known<'a, M> {
    /// The readings of the meters.
    pub readings: &'a Readings,
    /// The mask words.
    pub masks: &'a M,
    /// The readings, hidden under these words.
    pub hidden: HiddenReadings,
}
