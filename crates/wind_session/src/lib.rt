//! A session of the wind kernel's shell: what the arguments ask for, the run of a board, and how
//! the run ended.
#![tactic(auto)]

mod command;
mod count;
mod ending;
mod laws;
mod modules;
mod opening;
mod output;
mod paths;
mod playing;
mod report;
mod resuming;
mod run;
mod telling;

pub use board_player::{Board, instant_law};
pub use command::{
    BoardOptions, Command, CommandErr, PROGRAM, Source, board_options_of, command_line, command_of,
    command_of_matches, matches_of, number, number_of, option, valid, value_of, with_board_options,
    with_session_options,
};
pub use count::{Tally, count_board};
pub use ending::{Ending, Stand, Status, Which};
pub use laws::{growing_law, words_law};
pub use modules::step;
pub use opening::OpeningDevices;
pub use paths::path_in;
pub use playing::{Inputs, fetched as fetch_text, inputs_of, play, schedule_of};
pub use report::{put_pieces, tell, tell_no_memory, tell_usage};
pub use resuming::resume_board;
pub use run::{RunEnd, run_board};
pub use telling::{Teller, tell_run, tell_steps};
