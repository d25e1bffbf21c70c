//! The registers and the frame with which a task begins, or the shell's task at a call.

ghost use Rattle.std.specs.Prelude.{◌≡◌, ◌+◌, ◌^◌, ◌<◌};
ghost use Rattle.kernel_world.specs.Starting.{no_regs as no_regs_lem, starting_regs as starting_regs_lem, framed};

use board_mem::Ram;
use wind_base::Regs;
use wind_base::limits::FRAME_BYTES;

// No register has a value.
pub(crate) fn no_regs() -> Regs
    ensures { result ≡ no_regs_lem }
{
    Regs {
        gpr: [0; 32],
        cr: 0,
        xer: 0,
        lr: 0,
        ctr: 0,
        pc: 0,
        reserve: None,
    }
}

/// The registers with which a task begins, or the shell's task at a call. r1 points to a frame and
/// r3 to r10 hold the first eight words. The link register is the return address, and the program
/// counter is the start.
pub fn starting_regs(pointer: u32, link: u32, start: u32, words: &[u32; 10]) -> Regs
    ensures { result ≡ starting_regs_lem pointer link start words.now }
{
    let mut gpr = [0; 32];
    gpr[1] = pointer;
    gpr[3] = words[0];
    gpr[4] = words[1];
    gpr[5] = words[2];
    gpr[6] = words[3];
    gpr[7] = words[4];
    gpr[8] = words[5];
    gpr[9] = words[6];
    gpr[10] = words[7];
    Regs {
        gpr,
        lr: link,
        pc: start,
        ..no_regs()
    }
}

/// Writes the frame to which r1 points: 16 zero words, except the ninth argument at 8(r1) and the
/// tenth at 12(r1).
#[tactic(auto, unfolding(crate::specs::Starting::framed))]
pub fn put_frame(ram: &mut Ram, pointer: u32, words: &[u32; 10])
    requires { pointer + 12 < 2 ^ 32 }
    ensures { ram.new.bytes ≡ framed ram.old.bytes pointer words.now }
{
    let _ = ram.fill(pointer, FRAME_BYTES, 0);
    let _ = ram.write32(pointer + 8, words[8]);
    let _ = ram.write32(pointer + 12, words[9]);
}
