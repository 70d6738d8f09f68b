// The state of a row, and the multiplier that it gives.

/// A row's ends and activity in fixed point, and what its multiplier is made from. An end that the row
/// hasn't got lies where no activity comes, and the limit of its multiplier is 0.
#[derive(Clone, Copy)]
pub(crate) struct Row {
    pub lower: i64,
    pub upper: i64,
    pub least: i64,
    pub greatest: i64,
    pub activity: i64,
    /// The multiplier of the last round (the centre of the proximal term).
    pub center: i64,
}

/// A violation counts up to this.
const MOST_VIOLATION: i64 = 1 << 31;

impl Row {
    /// The multiplier of the augmented Lagrangian: the centre, moved by the penalty times how far the
    /// activity lies from an end. A row that lacks an end has no multiplier of its side.
    pub fn multiplier(&self, penalty: i64, shift: u32) -> i64 {
        if self.greatest != 0 {
            let raised = self
                .center
                .wrapping_add(force(self.lower, self.activity, penalty, shift));
            if raised > 0 {
                return raised.min(self.greatest);
            }
        }
        if self.least != 0 {
            let lowered = self
                .center
                .wrapping_add(force(self.upper, self.activity, penalty, shift));
            if lowered < 0 {
                return lowered.max(self.least);
            }
        }
        0
    }
}

// The penalty, at most 2^31, times how far an activity is below an end. Both are below 2^62, and the
// clamp keeps the product at 2^62.
fn force(end: i64, activity: i64, penalty: i64, shift: u32) -> i64 {
    end.wrapping_sub(activity)
        .clamp(-MOST_VIOLATION, MOST_VIOLATION)
        .wrapping_mul(penalty)
        .wrapping_shr(shift)
}
