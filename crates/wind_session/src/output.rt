//! A run, told by what its steps write.

ghost use Rattle.std.specs.Prelude.{◌≡◌, ◌≢◌, ◌≤◌, []};
ghost use Rattle.wind_outside.specs.{Counts.Rose, Appending.{Appended, AppendedPrefix}, Requests.GrowsBy};
ghost use Rattle.wind_outside.specs.declared.sink.Put.TheVariants as puts;
ghost use Rattle.wind_session.specs.Pieces.{output_piece};

use crate::telling::Teller;
use board_player::{Board, silent_law};
use std::convert::Infallible;
use wind_outside::{Put, Sink};

/// Puts what a step wrote, if it wrote anything.
pub(crate) fn put_some<O: Sink>(out: &mut O, bytes: &[u8]) -> Put
    ensures done { result ≡ puts.Done → Appended (O.bytes out.old) (O.bytes out.new) bytes.now }
    ensures part { result ≡ puts.Failed → AppendedPrefix (O.bytes out.old) (O.bytes out.new) bytes.now }
    ensures pieces { GrowsBy (O.pieces out.old) (O.pieces out.new) (output_piece bytes.now result) }
    ensures some { result ≡ puts.Failed → bytes.now ≢ [] }
    ensures failed { result ≡ puts.Failed → Rose (O.faults out.old) (O.faults out.new) }
    ensures never_falls { O.faults out.old ≤ O.faults out.new }
{
    if bytes.is_empty() {
        return Put::Done;
    }
    out.put(bytes)
}

/// Puts what each step writes.
#[derive(Drop)]
pub(crate) struct Output;

impl Teller for Output {
    ghost use Rattle.wind_session.specs.Runs.{IsCutOff, IsPut};

    type Before = ();

    type Error = Infallible;

    type Scope = ();

    ghost scope = { λ teller. tt };

    ghost reads = { λ before s. Unit {0} };

    ghost tells = { λ teller. IsPut };

    ghost lost = { λ scope. IsCutOff };

    ghost part = { λ scope first now said s k. Unit {0} };

    ghost ready = { λ teller s. Unit {0} };

    #[inline(always)]
    fn part_law(&self) {}

    #[inline(always)]
    fn burst(&mut self, board: &mut Board, most: u64) -> Result<u64, Infallible> {
        silent_law();
        Ok(board.burst(most))
    }

    #[inline(always)]
    fn look_before(&self, _: &Board) -> Result<(), Infallible> {
        Ok(())
    }

    #[inline(always)]
    fn tell<O: Sink>(&mut self, board: &Board, _: &(), out: &mut O) -> Result<Put, Infallible> {
        Ok(put_some(out, board.output()))
    }
}
