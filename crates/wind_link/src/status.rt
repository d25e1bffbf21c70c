//! How a call of `windlink` ends.

ghost use Rattle.std.specs.Prelude.{◌≡◌};
ghost use Rattle.wind_link.specs.Command.{exit_number};

use elf_read::ElfErr;
use module_image::SegmentKind;
use reloc_link::RelocErr;

/// How a call of `windlink` ended. Lines of the list are counted from 1, relocations from 0.
#[derive(Clone, Copy, Debug, PartialEq, Eq, Drop)]
pub enum LinkStatus {
    /// The whole image is written.
    Done,
    /// There aren't two arguments.
    Usage,
    /// The file doesn't exist: the module's of this line, or the list for 0.
    Absent(u64),
    /// Reading a file failed.
    ReadFault,
    /// Writing failed, after a prefix of the image.
    WriteFault,
    /// Host memory ran out.
    NoMemory,
    /// This is the first line of the list that has not its form, or line 257.
    BadList(u64),
    /// The file is too long: the module's of this line exceeds 4 MiB, or for 0 the list 1 MiB.
    TooLong(u64),
    /// The module's file of this line is refused: the first rule that it breaks.
    BadObject(u64, ElfErr),
    /// A relocation of this line's module is refused: the first one of all.
    BadReloc(u64, u32, RelocErr),
    /// A segment of this line's module is wrongly placed: the first one.
    BadPlace(u64, SegmentKind),
}

impl LinkStatus {
    /// The program's exit status.
    pub fn number(&self) -> u8
        ensures { result ≡ exit_number self.now }
    {
        match self {
            LinkStatus::Done => 0,
            LinkStatus::Usage => 1,
            LinkStatus::Absent(_) => 2,
            LinkStatus::ReadFault => 4,
            LinkStatus::WriteFault => 5,
            LinkStatus::NoMemory => 6,
            LinkStatus::BadList(_) => 7,
            LinkStatus::TooLong(_) => 8,
            LinkStatus::BadObject(_, _) => 10,
            LinkStatus::BadReloc(_, _, _) => 11,
            LinkStatus::BadPlace(_, _) => 12,
        }
    }
}
