//! Lines as JSON.

ghost use Rattle.std.specs.Prelude.{◌≡◌, ◌≤◌, OnOk};
ghost use Rattle.serde_json.specs.{Data.depth, Read.max_depth, View.view};
ghost use Rattle.trace_text.specs.Forms.{Gained};
ghost use Rattle.trace_state.specs.Board.{IsTextOf};

use crate::ending::end_value;
use crate::lines::line_value;
use board_trace::Happening;
use serde_json::Value;
use std::alloc::Global;
use trace_text::{LineForm, Moment, Outcome, add};
use wind_base::NoMemory;

// Adds a value and a newline.
fn add_value(alloc: Global, text: &mut Vec<u8>, value: &Value) -> Result<(), NoMemory>
    requires { depth (view value.now) ≤ max_depth }
    ensures { OnOk result (Gained (λ piece. IsTextOf piece (view value.now)) text.old.items text.new.items) }
{
    let object = value.to_vec(alloc)?;
    add(text, &object)?;
    add(text, b"\n")
}

/// An object for each line, each followed by a newline.
#[derive(Drop)]
pub struct JsonLines {
    alloc: Global,
}

impl JsonLines {
    /// Lines as JSON.
    pub fn new(alloc: Global) -> JsonLines {
        JsonLines { alloc }
    }
}

impl LineForm for JsonLines {
    ghost use Rattle.trace_state.specs.Board.{IsTextOf};
    ghost use Rattle.trace_json.specs.Lines.{end_data, line_data};

    ghost is_line = { λ l text. IsTextOf text (line_data l) };

    ghost is_end = { λ e text. IsTextOf text (end_data e) };

    fn add_line(
        &mut self,
        text: &mut Vec<u8>,
        at: Moment,
        name: &[u8],
        happening: &Happening,
    ) -> Result<(), NoMemory> {
        let value = line_value(self.alloc, at, name, happening)?;
        add_value(self.alloc, text, &value)
    }

    fn add_end(&mut self, text: &mut Vec<u8>, outcome: &Outcome) -> Result<(), NoMemory> {
        let value = end_value(self.alloc, outcome)?;
        add_value(self.alloc, text, &value)
    }
}
