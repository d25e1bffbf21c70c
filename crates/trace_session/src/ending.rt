//! How a traced session ended.

use crate::traced::Product;
use wind_session::{Stand, Status};

/// How a traced session ended, and what it left.
#[derive(Drop)]
pub struct TraceEnding {
    /// The status.
    pub status: Status,
    /// The board, or the devices if there is none.
    pub stand: Stand,
    /// What the form leaves besides its text; the text is all if there is no board or memory ran out.
    pub product: Product,
}
