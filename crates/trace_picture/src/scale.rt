//! From board time to places in the picture, in hundredths of a pixel.

ghost use Rattle.std.specs.Prelude.{◌≤◌, ◌<◌};

/// The left edge of the plot.
pub(crate) const LEFT: u128 = 16_000;

/// The width of the plot.
pub(crate) const WIDTH: u128 = 120_000;

// For a shorter time a product of a time and the width fits.
const LONG: u128 = 1 << 100;

/// The board times that the picture shows: from `start` to `end`.
#[derive(Clone, Copy)]
pub(crate) struct Scale {
    start: u128,
    end: u128,
    ghost forward: { start < end },
}

impl Scale {
    /// From one time to a later one.
    pub(crate) fn new(start: u128, end: u128) -> Scale {
        let start = start.min(u128::MAX - 1);
        Scale {
            start,
            end: end.max(start + 1),
        }
    }

    /// The first time.
    pub(crate) fn start(self) -> u128 {
        self.start
    }

    /// The last time.
    pub(crate) fn end(self) -> u128 {
        self.end
    }

    /// How long the time from the first to the last is.
    pub(crate) fn length(self) -> u128 {
        self.end - self.start
    }

    /// The place of a board time. An earlier time than the first is at the left edge, a later one than
    /// the last at the right edge.
    pub(crate) fn place(self, time: u128) -> u128
        ensures { result ≤ 136000 }
    {
        let length = self.end - self.start;
        let passed = time.saturating_sub(self.start).min(length);
        let part = if length < LONG {
            passed * WIDTH / length
        } else {
            passed / (length / WIDTH)
        };
        LEFT + part.min(WIDTH)
    }

    /// The pixel of a board time.
    pub(crate) fn pixel(self, time: u128) -> u128
        ensures { result ≤ 1360 }
    {
        self.place(time) / 100
    }
}
