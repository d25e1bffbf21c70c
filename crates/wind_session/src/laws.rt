//! What follows from the definitions alone.

ghost use Rattle.wind_session.specs.Laws.{RightWords, WrongWords};
ghost use Rattle.wind_session.specs.Live.{TypedLaw};

use board_player::{extend_law, live_law};
use tick_file::writing_law;

/// The law of the arguments, by example. An option is given at most once, with its value as the
/// next word or after `=`; otherwise it has its default. Other words, calls for help and invalid
/// limits are no command.
#[tactic(auto, unfolding(crate::proofs::CommandLemmas::command_on_literals))]
pub fn words_law()
    ensures right { RightWords }
    ensures wrong { WrongWords }
{}

/// The law of a record that grows while it is played. Take one more event that comes later than
/// board time, with the bytes that it asks for. A board that takes them is the board of the longer
/// record, after the same steps with the same output.
pub fn growing_law()
    ensures { TypedLaw }
{
    live_law();
    extend_law();
    writing_law();
}
