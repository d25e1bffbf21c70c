//! The registers: their description and their values.

ghost use Rattle.std.specs.Prelude.{◌≡◌, ◌++◌, ◌-◌, OnOk};
ghost use Rattle.debug_texts.specs.Target.{general_register, general_registers, registers_text, run_register, run_registers, special_registers, target, target_start, words_text};

use debug_wire::{add, add_decimal, add_places};
use wind_base::{NoMemory, Regs};

// How many general registers there are.
const GENERAL: u64 = 32;

// Adds a general register.
fn add_register(text: &mut Vec<u8>, number: u64) -> Result<(), NoMemory>
    ensures { OnOk result (text.new.items ≡ text.old.items ++ general_register number) }
{
    add(text, b"<reg name=\"r")?;
    add_decimal(text, number)?;
    add(text, b"\" bitsize=\"32\"/>")
}

// Adds r0 to r31.
fn add_general(text: &mut Vec<u8>) -> Result<(), NoMemory>
    ensures { OnOk result (text.new.items ≡ text.old.items ++ general_registers 0 32) }
{
    for register in 0..GENERAL {
        add_register(text, register)?;
    }
    Ok(())
}

// Adds what comes before r0.
#[tactic(auto, unfolding(crate::specs::Target::target_start))]
fn add_start(text: &mut Vec<u8>) -> Result<(), NoMemory>
    ensures { OnOk result (text.new.items ≡ text.old.items ++ target_start) }
{
    add(text, b"<?xml version=\"1.0\"?>")?;
    add(
        text,
        b"<!DOCTYPE target SYSTEM \"gdb-target.dtd\"><target version=\"1.0\">",
    )?;
    add(
        text,
        b"<architecture>powerpc:common</architecture><osabi>none</osabi>",
    )?;
    add(text, b"<feature name=\"org.gnu.gdb.power.core\">")
}

// Adds the processor's other registers.
#[tactic(auto, unfolding(crate::specs::Target::special_registers))]
fn add_special(text: &mut Vec<u8>) -> Result<(), NoMemory>
    ensures { OnOk result (text.new.items ≡ text.old.items ++ special_registers) }
{
    add(text, b"<reg name=\"pc\" bitsize=\"32\" type=\"code_ptr\"/>")?;
    add(
        text,
        b"<reg name=\"msr\" bitsize=\"32\"/><reg name=\"cr\" bitsize=\"32\"/>",
    )?;
    add(text, b"<reg name=\"lr\" bitsize=\"32\" type=\"code_ptr\"/>")?;
    add(
        text,
        b"<reg name=\"ctr\" bitsize=\"32\"/><reg name=\"xer\" bitsize=\"32\"/>",
    )?;
    add(text, b"</feature>")
}

// Adds a number of the run as a register.
fn add_run_register(text: &mut Vec<u8>, name: &[u8]) -> Result<(), NoMemory>
    ensures { OnOk result (text.new.items ≡ text.old.items ++ run_register name.now) }
{
    add(text, b"<reg name=\"")?;
    add(text, name)?;
    add(
        text,
        b"\" bitsize=\"64\" type=\"uint64\" group=\"windplay\"/>",
    )
}

// Adds the numbers of the run.
#[tactic(auto, unfolding(crate::specs::Target::run_registers))]
fn add_run(text: &mut Vec<u8>) -> Result<(), NoMemory>
    ensures { OnOk result (text.new.items ≡ text.old.items ++ run_registers) }
{
    add(text, b"<feature name=\"windplay.machine\">")?;
    add_run_register(text, b"step")?;
    add_run_register(text, b"time")?;
    add_run_register(text, b"tick")?;
    add(text, b"</feature></target>")
}

/// Adds the description of the target: r0 to r31, pc, msr, cr, lr, ctr and xer of 32 bits, and the
/// numbers step, time and tick of the run as registers of 64 bits.
#[tactic(auto, unfolding(crate::specs::Target::target))]
pub fn add_target(text: &mut Vec<u8>) -> Result<(), NoMemory>
    ensures { OnOk result (text.new.items ≡ text.old.items ++ target) }
{
    add_start(text)?;
    add_general(text)?;
    add_special(text)?;
    add_run(text)
}

// Adds words, each in 8 hexadecimal digits.
fn add_words(text: &mut Vec<u8>, words: &[u32]) -> Result<(), NoMemory>
    ensures { OnOk result (text.new.items ≡ text.old.items ++ words_text words.now) }
{
    for word in words {
        add_places(text, 8, u64::from(*word))?;
    }
    Ok(())
}

/// Adds the values of all registers in the order of the description. msr isn't available. `step`,
/// `time` and `tick` are numbers of the run.
pub fn add_registers(
    text: &mut Vec<u8>,
    regs: &Regs,
    step: u64,
    time: u64,
    tick: u64,
) -> Result<(), NoMemory>
    ensures { OnOk result (text.new.items ≡ text.old.items ++ registers_text regs.now step time tick) }
{
    add_words(text, &regs.gpr)?;
    add_places(text, 8, u64::from(regs.pc))?;
    add(text, b"xxxxxxxx")?;
    add_words(text, &[regs.cr, regs.lr, regs.ctr, regs.xer])?;
    add_places(text, 16, step)?;
    add_places(text, 16, time)?;
    add_places(text, 16, tick)
}
