//! Words of data: the operands of `.long`.

use crate::token::Reference;
use std::marker::Model;

/// A word of data, 32 bits.
#[derive(Drop)]
pub enum Value<'a> {
    /// A number.
    Number(u32),
    /// An address, which a relocation puts into the word.
    Address(Reference<'a>),
}

/// Words of data, in order.
#[derive(Drop)]
pub struct Values<'a> {
    pub(crate) kept: Vec<Value<'a>>,
}

impl<'a> Model for Values<'a> {
    ghost use Rattle.std.specs.Prelude.{List};
    ghost use Rattle.ppc_text.specs.declared.values.Value.{Value as Word};

    ghost Value = { List Word };

    ghost view = { λ v. v.kept.items };
}

impl<'a> Values<'a> {
    ghost use Rattle.std.specs.Prelude.{◌≡◌};

    /// The words.
    pub fn as_slice(&self) -> &[Value<'a>]
        ensures { result.now ≡ self.now }
    {
        &self.kept
    }
}
