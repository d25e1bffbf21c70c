//! Instructions that are made at once, and the words that they execute.

ghost use Rattle.std.specs.Prelude.{◌≡◌, ◌≤◌, ◌+◌, Some};
ghost use Rattle.wind_base.specs.Limits.{most_steps};
ghost use Rattle.wind_machine.specs.Silent.{SilentSteps, last_actor as last_actor_lem};
ghost use Rattle.board_reading.specs.BoardPlayerSeen.{seen};
ghost use Rattle.trace_coverage.specs.Bursts.{CoversOn};

use crate::coverage::Coverage;
use crate::executed::instruction_under;
use board_reading::{Board, last_actor};
use kernel_world::Actor;
use wind_machine::silent_law;
use wind_outside::Device;

impl Coverage {
    // Makes an instruction of the task or routine that made the last step, and lists its word.
    // Returns how many it made, which may be 0.
    fn advance(&mut self, board: &mut Board, who: &Actor) -> u64
        requires few { (seen ⟦<dyn Device as Device>⟧ board.old).steps + 1 ≤ most_steps }
        requires last { last_actor_lem (seen ⟦<dyn Device as Device>⟧ board.old).world ≡ Some who.now }
        ensures made { SilentSteps result (seen ⟦<dyn Device as Device>⟧ board.old)
            (seen ⟦<dyn Device as Device>⟧ board.new) }
        ensures within { result ≤ 1 }
        ensures last { last_actor_lem (seen ⟦<dyn Device as Device>⟧ board.new).world ≡ Some who.now }
        ensures covers { CoversOn self.old self.new (seen ⟦<dyn Device as Device>⟧ board.old) result }
    {
        silent_law();
        let at = instruction_under(board.world(), who);
        let made = board.burst(1);
        if made == 0 {
            return 0;
        }
        self.execute(at);
        made
    }

    /// Makes instructions, at most `most`, and lists their words. Returns how many it made, which may
    /// be 0.
    pub fn burst(&mut self, board: &mut Board, most: u64) -> u64
        requires few { (seen ⟦<dyn Device as Device>⟧ board.old).steps + most ≤ most_steps }
        ensures made { SilentSteps result (seen ⟦<dyn Device as Device>⟧ board.old)
            (seen ⟦<dyn Device as Device>⟧ board.new) }
        ensures within { result ≤ most }
        ensures covers { CoversOn self.old self.new (seen ⟦<dyn Device as Device>⟧ board.old) result }
    {
        silent_law();
        // somebody made a step before, or no instruction is made at once
        let Some(who) = last_actor(board.world()) else {
            return 0;
        };
        let mut made = 0;
        while made < most {
            let count = self.advance(board, &who);
            if count == 0 {
                return made;
            }
            made += 1;
        }
        made
    }
}
