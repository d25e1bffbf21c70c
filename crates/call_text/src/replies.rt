//! The text of a reply.

ghost use Rattle.std.specs.Prelude.{◌≡◌, ◌≤◌, ◌++◌, codes};
ghost use Rattle.wind_base.specs.Errno.{errno_name};
ghost use Rattle.wind_base.specs.OutBuf.{Added};
ghost use Rattle.call_text.specs.Texts.{most_reply_text, refused_result as refused_result_lem, reply_text, result_text, result_word as result_word_lem};

use crate::word::{Word, add_word};
use kernel_world::Reply;
use wind_base::text::add;
use wind_base::words::OK;
use wind_base::{Errno, Gate, OutBuf};

/// The text of a reply has at most this many bytes.
pub const REPLY_TEXT_BYTES: u32 = 64;

/// The result of a gate's call as a word: an address of malloc and memalign, an error number of
/// errnoGet, and otherwise a number.
pub fn result_word(gate: Gate, value: u32) -> Word
    ensures { result ≡ result_word_lem gate value }
{
    match gate {
        Gate::Malloc | Gate::Memalign | Gate::ErrnoGet => Word::Hex(value),
        _ => Word::Number(value),
    }
}

// Adds the result of a gate's call: at most 14 bytes.
fn add_result(out: &mut OutBuf, gate: Gate, value: u32)
    requires { 14 ≤ out.old.room }
    ensures { Added 14 out.old out.new (result_text gate value) }
{
    add(out, b" = ");
    add_word(out, result_word(gate, value));
}

/// The result of a refused call: 0 if nothing is loaded, otherwise the word of the gate.
pub fn refused_result(gate: Gate, errno: Errno) -> u32
    ensures { result ≡ refused_result_lem gate errno }
{
    match errno {
        Errno::LoadFailed => OK,
        _ => gate.rules().refusal,
    }
}

// Adds the name of an error after a blank: at most 19 bytes.
fn add_error(out: &mut OutBuf, errno: Errno)
    requires { 19 ≤ out.old.room }
    ensures { Added 19 out.old out.new (codes " " ++ errno_name errno) }
{
    add(out, b" ");
    add(out, errno.name().as_bytes());
}

/// Adds the text of the reply to the call of a gate, as ` = 0` or ` = -1 OBJ_TIMEOUT`. The result
/// is shown in signed decimal digits, but an address of `malloc` and `memalign` and an error number
/// of `errnoGet` in hexadecimal digits. If the call is refused, the name of the error follows. The
/// reply to a caller that pends is ` waits`, and to one that has ended ` ends its caller`.
#[tactic(auto, unfolding(crate::specs::Texts::reply_text))]
pub fn add_reply(out: &mut OutBuf, gate: Gate, reply: &Reply)
    requires { most_reply_text ≤ out.old.room }
    ensures { Added most_reply_text out.old out.new (reply_text gate reply.now) }
{
    match reply {
        Reply::Answer(value) => add_result(out, gate, *value),
        Reply::Refusal(errno) => {
            add_result(out, gate, refused_result(gate, *errno));
            add_error(out, *errno);
        }
        Reply::Later => add(out, b" waits"),
        Reply::Gone => add(out, b" ends its caller"),
    }
}
