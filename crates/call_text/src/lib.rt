//! The words and texts of a kernel call and of its reply, for a trace: `semTake(2, -1)` and
//! ` = -1 OBJ_TIMEOUT`.
#![tactic(auto)]

mod calls;
mod replies;
#[cfg(test)]
mod tests;
mod word;

pub use calls::{CALL_TEXT_BYTES, Words, add_call, words_of};
pub use replies::{REPLY_TEXT_BYTES, add_reply, refused_result, result_word};
pub use word::Word;
