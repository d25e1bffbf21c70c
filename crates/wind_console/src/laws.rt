//! What follows from the machine's definitions alone, whatever the code does.

ghost use Rattle.wind_console.specs.Laws.{ConsoleLaw};

use wind_machine::run_law;

/// The law of the console's bytes, for every console file, tick file and list of devices, and
/// whatever the folder answers about module files. After any number of steps, the bytes that
/// arrived, followed by those that are left, are the console file. Each byte that arrived, and each
/// newline that was supplied, is in one place or was dropped for one reason. Those that weren't
/// dropped are, in the order in which they arrived, the lines that the shell read, the finished
/// lines and the edited line.
pub fn console_law()
    ensures { ConsoleLaw }
{
    run_law();
}
