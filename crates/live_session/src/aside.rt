//! The setting aside of an older record: each of its files gets a name with `.old`.

ghost use Rattle.std.specs.Prelude.{◌≡◌, ◌≤◌, Err, IfOk, OnOk, OnErr, string_bytes};
ghost use Rattle.wind_outside.specs.Counts.{Rose};
ghost use Rattle.live_session.specs.Folder.{SetAside, aside_path};
ghost use Rattle.live_session.specs.Saving.{IsSpared, KeepsThose, MakesRoom};
ghost use Rattle.live_session.specs.Words.{command_state, IsTarget};
ghost use Rattle.live_session.specs.declared.saving.Unsaved.TheVariants as unsaved;

use crate::record_folder::RecordFolder;
use crate::saving::{Target, Unsaved};
use std::alloc::{AllocError, Global};
use wind_outside::Put;

/// The name of a file that is set aside.
pub(crate) fn aside_name(alloc: Global, name: &str) -> Result<String, AllocError>
    ensures { IfOk result (λ path. string_bytes path ≡ aside_path name.now) }
{
    let mut path = name.to_string(alloc)?;
    path.push_str(".old")?;
    Ok(path)
}

// Sets one file aside.
fn set_aside<D: RecordFolder>(alloc: Global, records: &mut D, path: &str) -> Result<(), Unsaved>
    ensures ok { OnOk result (SetAside (D.files records.old) (D.files records.new) path.now) }
    ensures err { OnErr result (D.files records.new ≡ D.files records.old) }
    ensures failed { result ≡ Err unsaved.Failed → Rose (D.faults records.old) (D.faults records.new) }
    ensures never_falls { D.faults records.old ≤ D.faults records.new }
{
    match records.set_aside(alloc, path) {
        Put::Done => Ok(()),
        Put::Failed => Err(Unsaved::Failed),
    }
}

/// Makes room for a new record: if the command has `--force`, the files of an older one are set
/// aside, its words first. So no half of a record can be replayed if only some are.
pub(crate) fn make_room<D: RecordFolder>(
    alloc: Global,
    target: Target,
    records: &mut D,
) -> Result<(), Unsaved>
    requires { IsTarget target }
    ensures ok { OnOk result (MakesRoom target.entry.command.now.force target.entry.command.now.record.now
        (D.files records.old) (D.files records.new)) }
    ensures others { KeepsThose (IsSpared (command_state target.entry.command.now))
        (D.files records.old) (D.files records.new) }
    ensures failed { result ≡ Err unsaved.Failed → Rose (D.faults records.old) (D.faults records.new) }
    ensures never_falls { D.faults records.old ≤ D.faults records.new }
{
    if !target.command.force {
        return Ok(());
    }
    let paths = target.paths;
    set_aside(alloc, records, &paths.command)?;
    set_aside(alloc, records, &paths.ticks)?;
    set_aside(alloc, records, &paths.console)
}
