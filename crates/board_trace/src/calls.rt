//! A kernel call, and how its caller was answered.

ghost use Rattle.std.specs.Prelude.{◌≡◌, ◌++◌, OnOk};
ghost use Rattle.board_trace.specs.Steps.{called};

use crate::happening::Happening;
use crate::list::add;
use crate::moment::BeforeStep;
use kernel_world::Reply;
use wind_base::NoMemory;

/// Adds the call of a step.
pub(crate) fn add_call(
    list: &mut Vec<Happening>,
    before_step: &BeforeStep,
    reply: Option<Reply>,
) -> Result<(), NoMemory>
    ensures { OnOk result (list.new.items ≡ list.old.items ++ called before_step.now.actor before_step.now.call reply) }
{
    match (before_step.actor, before_step.call, reply) {
        (Some(who), Some(call), Some(reply)) => {
            add(list, Happening::Called { who, call, reply })
        }
        _ => Ok(()),
    }
}
