//! The colours: those of Okabe and Ito, which people with each kind of colour blindness can tell
//! apart.

ghost use Rattle.std.specs.Prelude.{◌≤◌};

use board_changes::Standing;

/// The style of the picture: each class of shapes, with its colour.
pub(crate) const STYLE: &[u8] = b"<style>
text{font:12px sans-serif;fill:#000000}
.running{fill:#009e73}
.ready{fill:#56b4e9}
.waiting{fill:#e69f00}
.sleeping{fill:#d9d9d9}
.suspended{fill:#cc79a7}
.inherits{fill:#d55e00}
.owned{fill:#f0e442;stroke:#ffffff;stroke-width:0.5}
.owner{font-size:10px}
.length{stroke:#0072b2;stroke-width:1.5;fill:none}
.exception{stroke:#000000;stroke-width:2;fill:none}
.abort{fill:#000000}
.tick{stroke:#b0b0b0;stroke-width:0.5}
.axis{stroke:#000000;stroke-width:1}
</style>
";

/// All standings, in the order of the legend.
pub(crate) const STANDINGS: [Standing; 5] = [
    Standing::Running,
    Standing::Ready,
    Standing::Waiting,
    Standing::Sleeping,
    Standing::Suspended,
];

/// The class and the word for what a task does.
pub(crate) fn word(standing: Standing) -> &'static [u8] {
    match standing {
        Standing::Running => b"running",
        Standing::Ready => b"ready",
        Standing::Waiting => b"waiting",
        Standing::Sleeping => b"sleeping",
        Standing::Suspended => b"suspended",
    }
}

/// The place of a standing in the legend.
pub(crate) fn place(standing: Standing) -> usize
    ensures { result ≤ 4 }
{
    match standing {
        Standing::Running => 0,
        Standing::Ready => 1,
        Standing::Waiting => 2,
        Standing::Sleeping => 3,
        Standing::Suspended => 4,
    }
}
