//! Devices, each with a kind and a list of words.

ghost use Rattle.std.specs.Prelude.{◌≡◌, ℕ, ◌<◌, ◌%◌, List};
ghost use Rattle.wind_outside.specs.declared.device.DeviceKind.{DeviceKind};
ghost use Rattle.wind_outside.specs.Devices.{load_answer, after_load, after_store};

/// The kinds of devices. `docs/devices.md` says what a load and a store do to each.
#[derive(Clone, Copy, Debug, PartialEq, Eq)]
pub enum DeviceKind {
    /// Four words that hold what was stored.
    Latch,
    /// A queue of up to 64 bytes.
    ByteFifo,
    /// One word, to which a store adds.
    EventCounter,
}

/// A device in a slot of the board. No call fails or takes memory.
///
/// A contract sees its kind and its list of words.
pub trait Device: Drop {
    ghost kind_of: { Self → DeviceKind };

    ghost words_of: { Self → List ℕ };

    /// Its kind, which never changes.
    fn kind(&self) -> DeviceKind
        ensures { result ≡ kind_of self.now };

    /// Loads the word at this offset, in bytes from the slot's start.
    fn load(&mut self, off: u32) -> u32
        requires aligned { off % 4 ≡ 0 }
        requires inside { off < 4096 }
        ensures kept { kind_of self.new ≡ kind_of self.old }
        ensures answer { result ≡ load_answer (kind_of self.old) (words_of self.old) off }
        ensures words { words_of self.new ≡ after_load (kind_of self.old) (words_of self.old) off };

    /// Stores a word at this offset, in bytes from the slot's start.
    fn store(&mut self, off: u32, v: u32)
        requires aligned { off % 4 ≡ 0 }
        requires inside { off < 4096 }
        ensures kept { kind_of self.new ≡ kind_of self.old }
        ensures words { words_of self.new ≡ after_store (kind_of self.old) (words_of self.old) off v };
}

/// The device slots of a board, from slot 0 on; an empty slot holds no device.
pub type Slots = Vec<Option<Box<dyn Device>>>;
