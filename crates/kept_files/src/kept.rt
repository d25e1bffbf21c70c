//! What is kept of files.

ghost use Rattle.std.specs.Prelude.{◌≡◌, ◌↔◌, ℕ, List, Some, None, Err, IsSome, IfOk, OnOk, OnErr};
ghost use Rattle.std.specs.Option.{option_map};
ghost use Rattle.wind_outside.specs.declared.folder.Fetched.TheVariants as answers;
ghost use Rattle.live_loading.specs.Said.{said_of};
ghost use Rattle.kept_files.specs.Fetching.{IsFirst, asked_of};
ghost use Rattle.kept_files.specs.Kept.{Grows, IsTrue, kept_of, said_by, with_kept};
ghost use Rattle.kept_files.specs.declared.kept.Unkept.TheVariants as unkept;

use live_loading::FileAnswer;
use std::alloc::{AllocError, Global};
use std::collections::BTreeMap;
use wind_base::limits::MODULE_FILE_BYTES;
use wind_outside::{Fetched, Folder};

/// Why nothing is kept of a file.
#[derive(Clone, Copy, Debug, PartialEq, Eq)]
pub enum Unkept {
    /// Reading failed, and counts as a fault of the folder.
    Failed,
    /// Host memory ran out.
    NoMemory,
}

/// A folder's answers about module files, by name. Each file is fetched once, and the answer is
/// kept.
#[derive(Drop)]
pub struct KeptFiles {
    files: BTreeMap<String, FileAnswer>,
}

// The answer that a fetch gives.
fn answer_of(fetched: Fetched) -> Result<FileAnswer, Unkept>
    ensures said { IfOk result (λ file. said_by fetched ≡ Some (said_of file)) }
    ensures unsaid { OnErr result (said_by fetched ≡ None) }
    ensures failed { (result ≡ Err unkept.Failed) ↔ (fetched ≡ answers.Failed) }
{
    match fetched {
        Fetched::Found(bytes) => Ok(FileAnswer::File(bytes)),
        Fetched::Missing => Ok(FileAnswer::NoFile),
        Fetched::TooLong => Ok(FileAnswer::LongFile),
        Fetched::Failed => Err(Unkept::Failed),
        Fetched::NoMemory => Err(Unkept::NoMemory),
    }
}

impl KeptFiles {
    /// Nothing is kept yet.
    pub fn new(alloc: Global) -> KeptFiles
        ensures { (name : List ℕ) → kept_of result name ≡ None }
    {
        KeptFiles {
            files: BTreeMap::new(alloc),
        }
    }

    /// The answer about the file with this name, if one is kept.
    pub fn get(&self, name: &str) -> Option<&FileAnswer>
        ensures { option_map (λ file. said_of file.now) result ≡ kept_of self.now name.now }
    {
        self.files.get(name)
    }

    // Keeps the answer about the file with this name.
    fn add(&mut self, alloc: Global, name: &str, file: FileAnswer) -> Result<(), AllocError>
        ensures ok { OnOk result ((other : List ℕ) → kept_of self.new other
            ≡ with_kept (kept_of self.old) name.now (said_of file) other) }
        ensures err { OnErr result (kept_of self.new ≡ kept_of self.old) }
    {
        let name = name.to_string(alloc)?;
        self.files.insert(name, file)?;
        Ok(())
    }

    /// Fetches the file with this name from the folder and keeps the answer. If an answer is kept
    /// already, nothing is fetched.
    ///
    /// # Errors
    ///
    /// The read failed, or host memory ran out. Then what is kept is as it was.
    pub fn keep<F: Folder>(
        &mut self,
        alloc: Global,
        folder: &mut F,
        name: &str,
    ) -> Result<(), Unkept>
        ensures again { IsSome (kept_of self.old name.now) → OnErr result ⊥ × (folder.new ≡ folder.old)
            × (kept_of self.new ≡ kept_of self.old) }
        ensures kept { OnOk result (IsSome (kept_of self.new name.now)) }
        ensures first { kept_of self.old name.now ≡ None → IsFirst name.now
            (asked_of ⟦<F as Folder>⟧ folder.old) (asked_of ⟦<F as Folder>⟧ folder.new)
            (kept_of self.old) (kept_of self.new) result }
        ensures grows { Grows (kept_of self.old) (kept_of self.new) }
        ensures truth { IsTrue (F.files folder.old) (kept_of self.old)
            → IsTrue (F.files folder.new) (kept_of self.new) }
    {
        if self.files.contains_key(name) {
            return Ok(());
        }
        let file = answer_of(folder.fetch(alloc, name, MODULE_FILE_BYTES))?;
        match self.add(alloc, name, file) {
            Ok(()) => Ok(()),
            Err(AllocError) => Err(Unkept::NoMemory),
        }
    }
}

#[cfg(test)]
mod tests {
    use super::*;
    use std::test::Fail;
    use wind_outside::MemFolder;

    #[test]
    fn keeps_the_first_answer_with_ample_memory(rt: HostRuntime) -> Result<(), Fail> {
        let alloc = rt.alloc();
        let mut folder = MemFolder::new(alloc, [3].to_vec(alloc)?);
        folder.add("a", b"old".to_vec(alloc)?).or(Err("memory"))?;
        let mut kept = KeptFiles::new(alloc);
        kept.keep(alloc, &mut folder, "a").or(Err("a"))?;
        kept.keep(alloc, &mut folder, "b").or(Err("b"))?;
        folder.add("a", b"new".to_vec(alloc)?).or(Err("memory"))?;
        folder.add("b", b"new".to_vec(alloc)?).or(Err("memory"))?;
        kept.keep(alloc, &mut folder, "a").or(Err("a again"))?;
        kept.keep(alloc, &mut folder, "b").or(Err("b again"))?;
        match kept.get("a") {
            Some(FileAnswer::File(bytes)) => assert_eq!(rt; bytes.as_slice(), b"old".as_slice()),
            _ => assert!(rt; false, "not found"),
        }
        assert!(rt; matches!(kept.get("b"), Some(FileAnswer::NoFile)));
        assert!(rt; matches!(kept.keep(alloc, &mut folder, "c"), Err(Unkept::Failed)));
        assert!(rt; matches!(kept.get("c"), None));
        Ok(())
    }
}
