//! How far the current connection is, and when it gives way to another one that has something to say.
use std::time::{Clock, Duration, Instant};

/// How long a connection is current before it gives way as soon as it is between requests, in milliseconds.
const TURN: u64 = 1_000;

/// How long a request may take from its first byte on before it gives way where little of it comes, in milliseconds.
const REQUEST: u64 = 2_000;

/// A read that gives fewer bytes gives little.
const LITTLE: usize = 256;

/// Since when a connection is current, and since when a request comes on it; None where no clock told.
#[derive(Clone, Copy)]
pub(crate) struct Turn {
    began: Option<Instant>,
    asks: bool,
    asked: Option<Instant>,
    gave_little: bool,
}

impl Turn {
    /// Begins now, between requests.
    pub(crate) fn new(clock: &impl Clock) -> Turn {
        Turn {
            began: Instant::now(clock).ok(),
            asks: false,
            asked: None,
            gave_little: false,
        }
    }

    /// So many bytes came.
    pub(crate) fn came(&mut self, clock: &impl Clock, count: usize) {
        if !self.asks {
            self.asks = true;
            self.asked = Instant::now(clock).ok();
        }
        self.gave_little = count < LITTLE;
    }

    /// Something was answered.
    pub(crate) fn answered(&mut self) {
        self.asks = false;
    }

    /// Behind a silent look: it gives way where nothing came since the last answer, or it had its time.
    pub(crate) fn gives_way(&self, clock: &impl Clock) -> bool {
        !self.asks || self.is_over(clock)
    }

    /// It had its time.
    pub(crate) fn is_over(&self, clock: &impl Clock) -> bool {
        if self.asks {
            self.gave_little && passed(clock, self.asked, REQUEST)
        } else {
            passed(clock, self.began, TURN)
        }
    }
}

/// So many milliseconds have passed, or no clock tells.
fn passed(clock: &impl Clock, since: Option<Instant>, millis: u64) -> bool {
    match since {
        Some(start) => match start.elapsed(clock) {
            Ok(elapsed) => elapsed >= Duration::from_millis(millis),
            Err(_) => true,
        },
        None => true,
    }
}

/// How many of so many milliseconds are left; all where no clock tells.
pub(crate) fn left(clock: &impl Clock, since: Option<Instant>, millis: u64) -> i32 {
    let all = Duration::from_millis(millis);
    let elapsed = match since {
        Some(start) => start.elapsed(clock).unwrap_or(Duration::ZERO),
        None => Duration::ZERO,
    };
    i32::try_from(all.saturating_sub(elapsed).as_millis()).unwrap_or(0)
}
