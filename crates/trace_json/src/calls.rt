//! A kernel call as JSON.

ghost use Rattle.std.specs.Prelude.{◌≡◌, IfOk, OnOk};
ghost use Rattle.serde_json.specs.View.{view};
ghost use Rattle.call_text.specs.Texts.{name_text};
ghost use Rattle.wind_base.specs.Gates.{rules_of};
ghost use Rattle.trace_state.specs.Held.{members_in};
ghost use Rattle.trace_state.specs.Json.{list_of, with_all};
ghost use Rattle.trace_json.specs.Calls.{call_members, refusal_members, reply_members, word_data};

use call_text::{Word, refused_result, result_word, words_of};
use kernel_world::{Call, Reply};
use serde_json::Value;
use std::alloc::{AllocError, Global};
use trace_state::{Items, Members};
use wind_base::{Errno, Gate};

// A word of a call.
fn word_value(alloc: Global, word: Word) -> Result<Value, AllocError>
    ensures { IfOk result (λ v. view v ≡ word_data word) }
{
    match word {
        Word::Number(v) => Ok(Value::from(v.cast_signed())),
        Word::Hex(v) => Ok(Value::from(v)),
        Word::Unreadable => Ok(Value::Null),
        Word::Rest => Value::try_from_str(alloc, ".."),
    }
}

// The words of a call.
fn words_value(alloc: Global, words: &[Word]) -> Result<Value, AllocError>
    ensures { IfOk result (λ v. view v ≡ list_of word_data words.now) }
{
    let mut items = Items::new(alloc);
    for word in words {
        items.add(word_value(alloc, *word)?)?;
    }
    Ok(items.finish())
}

// The name of a gate's call.
fn gate_name(gate: Gate) -> &'static str
    ensures { result.now ≡ name_text (rules_of gate).name }
{
    gate.name().unwrap_or("")
}

// Adds that a call was refused.
fn add_refusal(
    alloc: Global,
    members: &mut Members,
    gate: Gate,
    errno: Errno,
) -> Result<(), AllocError>
    ensures { OnOk result (members_in members.new ≡ with_all (refusal_members gate errno) (members_in members.old)) }
{
    members.put_word("reply", "refusal")?;
    let result = word_value(alloc, result_word(gate, refused_result(gate, errno)))?;
    members.put("result", result)?;
    members.put_word("error", errno.name())
}

// Adds a reply to the call of a gate.
fn add_reply(
    alloc: Global,
    members: &mut Members,
    gate: Gate,
    reply: &Reply,
) -> Result<(), AllocError>
    ensures { OnOk result (members_in members.new ≡ with_all (reply_members gate reply.now) (members_in members.old)) }
{
    match reply {
        Reply::Answer(answer) => {
            members.put_word("reply", "answer")?;
            let result = word_value(alloc, result_word(gate, *answer))?;
            members.put("result", result)
        }
        Reply::Refusal(errno) => add_refusal(alloc, members, gate, *errno),
        Reply::Later => members.put_word("reply", "waits"),
        Reply::Gone => members.put_word("reply", "ends its caller"),
    }
}

/// Adds a call with its words and its reply.
pub(crate) fn add_called(
    alloc: Global,
    members: &mut Members,
    call: &Call,
    reply: &Reply,
) -> Result<(), AllocError>
    ensures { OnOk result (members_in members.new
        ≡ with_all (call_members call.now reply.now) (members_in members.old)) }
{
    members.put_word("call", gate_name(call.gate()))?;
    let words = words_value(alloc, &words_of(call))?;
    members.put("words", words)?;
    add_reply(alloc, members, call.gate(), reply)
}
