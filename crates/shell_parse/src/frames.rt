//! What is open at a place in a line.

ghost use Rattle.std.specs.Prelude.{◌≡◌, [], ◌∷◌, OnOk};
ghost use Rattle.shell_parse.specs.Stack.{top_of, rest_of};

use std::alloc::{AllocError, Global};
use std::marker::Model;

/// An open construct. The number says how many arguments may follow the one being read. The mark
/// says whether an assignment may follow the closing parenthesis.
#[derive(Clone, Copy, Debug, PartialEq, Eq)]
pub(crate) enum Frame {
    /// Parentheses around an expression.
    InGroup(bool),
    /// The parentheses of a call.
    InCall(u32, bool),
    /// The arguments of a call without parentheses.
    InCommand(u32),
}

/// What is open, innermost first.
#[derive(Drop)]
pub(crate) struct Frames {
    items: Vec<Frame>,
}

impl Model for Frames {
    ghost use Rattle.std.specs.Prelude.{List, reverse};
    ghost use Rattle.shell_parse.specs.declared.frames.Frame.{Frame};

    ghost Value = { List Frame };

    ghost view = { λ f. reverse f.items.items };
}

impl Frames {
    /// Makes a stack on which nothing is open.
    pub fn new(alloc: Global) -> Self
        ensures { result ≡ [] }
    {
        Frames {
            items: Vec::new(alloc),
        }
    }

    /// Opens a frame inside the others.
    pub fn push(&mut self, frame: Frame) -> Result<(), AllocError>
        ensures { OnOk result (self.new ≡ frame ∷ self.old) }
    {
        self.items.push(frame)?;
        Ok(())
    }

    /// The innermost frame.
    pub fn top(&self) -> Option<Frame>
        ensures { result ≡ top_of self.now }
    {
        self.items.last().copied()
    }

    /// Closes the innermost frame.
    pub fn pop(&mut self)
        ensures { self.new ≡ rest_of self.old }
    {
        self.items.pop();
    }

    /// Closes all frames.
    pub fn clear(&mut self)
        ensures { self.new ≡ [] }
    {
        self.items.clear();
    }
}
