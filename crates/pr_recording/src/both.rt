//! Two that take the same readings.

use crate::tape::Takes;
use pr_decode::Reading;
use std::alloc::AllocError;

/// Two that take the same readings, the first one first.
#[derive(Drop)]
pub struct Both<A, B> {
    pub first: A,
    pub second: B,
}

impl<A: Takes, B: Takes> Takes for Both<A, B> {
    ghost takes = { λ readings old new. A.takes readings old.first new.first × B.takes readings old.second new.second };

    ghost may_take = { λ n both. A.may_take n both.first × B.may_take n both.second };

    ghost takes_none = { λ both. (A.takes_none both.first, B.takes_none both.second) };

    ghost takes_both = { λ xs ys a b c h k. (
      A.takes_both xs ys a.first b.first c.first h.0 k.0,
      B.takes_both xs ys a.second b.second c.second h.1 k.1,
    ) };

    ghost takes_fewer = { λ k n both h. (A.takes_fewer k n both.first h.0, B.takes_fewer k n both.second h.1) };

    fn take_reading(&mut self, reading: &Reading) -> Result<(), AllocError> {
        self.first.take_reading(reading)?;
        self.second.take_reading(reading)
    }
}
