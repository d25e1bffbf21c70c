//! What follows from the definitions alone.

ghost use Rattle.dev_irq.specs.Laws.{CountLaw, NextLaw, KeptLaw};

/// The law of counts: an interrupt raises the count of its slot by 1, a delivery lowers it by 1, a
/// removal makes it 0, and nothing else changes a count. Each call changes the line of its slot
/// alone.
pub fn count_law()
    ensures { CountLaw }
{}

/// The law of the next delivery: it is the least slot that holds a device and whose line is
/// enabled, has a routine and has a pending interrupt. There is none if no line is waiting.
pub fn next_law()
    ensures { NextLaw }
{}

/// The law of the controller's invariant, which each call keeps: 16 lines, each with at most 4
/// routines and a count that is a word.
pub fn kept_law()
    ensures { KeptLaw }
{}
