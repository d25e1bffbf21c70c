//! What an instruction reads and writes, as text.

use board_bus::BoardBus;
use board_mem::Ram;
use case_files::{Trouble, number};
use ppc_core::{Bus, Trap};
use std::alloc::Global;
use std::fmt::Write;
use wind_base::{NoMemory, Regs};

/// The address of the instructions of a case, unless the case sets it.
const CODE: u32 = 0x10_0000;

/// The size of RAM in bytes.
const SIZE: u32 = 0x1000;

/// Registers, memory, and the trap that occurred.
#[derive(Drop)]
pub struct State {
    /// The registers.
    pub regs: Regs,
    /// The bus, with RAM and no devices.
    pub bus: BoardBus,
    /// The trap. None if there was none.
    pub trap: Option<Trap>,
}

impl State {
    /// The state before a case: each byte of a general register is the register's number plus one,
    /// and each byte of RAM is its address modulo 251.
    pub fn opening(alloc: Global) -> Result<State, NoMemory> {
        let mut ram = Ram::new(alloc, SIZE)?;
        for at in 0..SIZE {
            let _ = ram.write8(at, at % 251);
        }
        let mut gpr = [0; 32];
        for n in 0..32u32 {
            gpr[n as usize] = (n + 1) * 0x0101_0101;
        }
        let regs = Regs {
            gpr,
            cr: 0,
            xer: 0,
            lr: 0x2000,
            ctr: 0x3000,
            pc: CODE,
            reserve: None,
        };
        Ok(State {
            regs,
            bus: BoardBus::new(ram, Vec::new(alloc)),
            trap: None,
        })
    }

    /// Reads items such as `r3=7fffffff`, `cr=90000000`, `@40=deadbeef` for the word at an address,
    /// and `trap=align`.
    pub fn take(&mut self, items: &str) -> Result<(), Trouble>
        requires { Unit {0} }
    {
        for item in items.split_whitespace() {
            let Some((name, value)) = item.split_once('=') else {
                return Err(Trouble::Unreadable);
            };
            if name == "trap" {
                self.trap = Some(trap_of(value)?);
            } else {
                self.take_number(name, number(value)?)?;
            }
        }
        Ok(())
    }

    fn take_number(&mut self, name: &str, value: u32) -> Result<(), Trouble>
        requires { Unit {0} }
    {
        if let Some(n) = name.strip_prefix('r') {
            *self.general(n)? = value;
        } else if let Some(at) = name.strip_prefix('@') {
            self.bus
                .store32(number(at)?, value)
                .or(Err(Trouble::Unreadable))?;
        } else {
            *self.special(name)? = value;
        }
        Ok(())
    }

    // The general register with this number.
    fn general(&mut self, number: &str) -> Result<&mut u32, Trouble> {
        let number = number.parse::<usize>().or(Err(Trouble::Unreadable))?;
        self.regs.gpr.get_mut(number).ok_or(Trouble::Unreadable)
    }

    // The register with this name.
    fn special(&mut self, name: &str) -> Result<&mut u32, Trouble> {
        match name {
            "cr" => Ok(&mut self.regs.cr),
            "xer" => Ok(&mut self.regs.xer),
            "lr" => Ok(&mut self.regs.lr),
            "ctr" => Ok(&mut self.regs.ctr),
            "pc" => Ok(&mut self.regs.pc),
            _ => Err(Trouble::Unreadable),
        }
    }

    /// The registers and the trap, as text.
    pub fn shown(&self, alloc: Global) -> Result<String, Trouble> {
        let mut text = String::new(alloc);
        write!(text, "{:?} {:?}", self.regs, self.trap).or(Err(Trouble::NoMemory))?;
        Ok(text)
    }

    /// Whether everything that a reference processor shows is equal: all but the reservation.
    pub fn shows_as(&self, other: &State) -> bool {
        self.regs.gpr == other.regs.gpr
            && self.regs.cr == other.regs.cr
            && self.regs.xer == other.regs.xer
            && self.regs.lr == other.regs.lr
            && self.regs.ctr == other.regs.ctr
            && self.regs.pc == other.regs.pc
            && same_bytes(&self.bus.ram, &other.bus.ram)
            && self.trap == other.trap
    }
}

// Whether two RAMs hold the same bytes.
fn same_bytes(ram: &Ram, other: &Ram) -> bool {
    (0..SIZE).all(|at| ram.read8(at) == other.read8(at))
}

fn trap_of(name: &str) -> Result<Trap, Trouble> {
    match name {
        "illegal" => Ok(Trap::Illegal),
        "align" => Ok(Trap::Align),
        "access" => Ok(Trap::Access),
        "trap" => Ok(Trap::TrapInsn),
        "sysc" => Ok(Trap::Sysc),
        _ => Err(Trouble::Unreadable),
    }
}
