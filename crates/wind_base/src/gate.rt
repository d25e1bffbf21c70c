//! The gates of the kernel's calls.

ghost use Rattle.std.specs.Prelude.{◌≡◌, ◌+◌, ◌*◌, ◌<◌, ◌^◌, slice_get};
ghost use Rattle.wind_base.specs.Gates.{gate_number, gate_of, gate_at, gate_address, gates};

use crate::gate_table;
use crate::limits::GATE_BYTES;

/// A gate: the address of a kernel call, or of a return. The numbers are this project's own table;
/// each gate takes 16 bytes. The libraries named below are sections of the VxWorks 5.4 Reference
/// Manual.
#[derive(Clone, Copy, Debug, PartialEq, Eq)]
pub enum Gate {
    /// A task returns from its entry function.
    TaskReturn,
    /// A function called by the shell returns.
    ShellReturn,
    /// An interrupt routine returns.
    InterruptReturn,
    /// `taskSpawn` (taskLib).
    TaskSpawn,
    /// `sp` (usrLib).
    Sp,
    /// `taskDelete` (taskLib).
    TaskDelete,
    /// `taskSuspend` (taskLib).
    TaskSuspend,
    /// `taskResume` (taskLib).
    TaskResume,
    /// `taskPrioritySet` (taskLib).
    TaskPrioritySet,
    /// `taskPriorityGet` (taskLib).
    TaskPriorityGet,
    /// `taskDelay` (taskLib).
    TaskDelay,
    /// `taskLock` (taskLib).
    TaskLock,
    /// `taskUnlock` (taskLib).
    TaskUnlock,
    /// `taskSafe` (taskLib).
    TaskSafe,
    /// `taskUnsafe` (taskLib).
    TaskUnsafe,
    /// `taskIdSelf` (taskLib).
    TaskIdSelf,
    /// `taskIdVerify` (taskLib).
    TaskIdVerify,
    /// `taskNameToId` (taskInfo).
    TaskNameToId,
    /// `kernelTimeSlice` (kernelLib).
    KernelTimeSlice,
    /// `tickGet` (tickLib).
    TickGet,
    /// `semBCreate` (semBLib).
    SemBCreate,
    /// `semCCreate` (semCLib).
    SemCCreate,
    /// `semMCreate` (semMLib).
    SemMCreate,
    /// `semTake` (semLib).
    SemTake,
    /// `semGive` (semLib).
    SemGive,
    /// `semFlush` (semLib).
    SemFlush,
    /// `semDelete` (semLib).
    SemDelete,
    /// `msgQCreate` (msgQLib).
    MsgQCreate,
    /// `msgQSend` (msgQLib).
    MsgQSend,
    /// `msgQReceive` (msgQLib).
    MsgQReceive,
    /// `msgQDelete` (msgQLib).
    MsgQDelete,
    /// `msgQNumMsgs` (msgQLib).
    MsgQNumMsgs,
    /// `wdCreate` (wdLib).
    WdCreate,
    /// `wdStart` (wdLib).
    WdStart,
    /// `wdCancel` (wdLib).
    WdCancel,
    /// `wdDelete` (wdLib).
    WdDelete,
    /// `intLock` (intArchLib).
    IntLock,
    /// `intUnlock` (intArchLib).
    IntUnlock,
    /// `intContext` (intLib).
    IntContext,
    /// `malloc` (memPartLib).
    Malloc,
    /// `free` (memPartLib).
    Free,
    /// `memalign` (memLib).
    Memalign,
    /// `symAdd` (symLib).
    SymAdd,
    /// `printf` (fioLib).
    Printf,
    /// `errnoGet` (errnoLib).
    ErrnoGet,
    /// `errnoSet` (errnoLib).
    ErrnoSet,
    /// `ld` (usrLib).
    Ld,
    /// `unld` (unldLib).
    Unld,
    /// `i` (usrLib).
    I,
    /// `lkup` (usrLib).
    Lkup,
    /// `moduleShow` (moduleLib).
    ModuleShow,
    /// `d` (usrLib).
    D,
    /// `intConnect` (intArchLib), of the device in a slot.
    IntConnect,
    /// `intDisconnect`, this project's own.
    IntDisconnect,
    /// `intEnable` (intArchLib), of the device in a slot.
    IntEnable,
    /// `intDisable` (intArchLib), of the device in a slot.
    IntDisable,
    /// `intPending`, this project's own.
    IntPending,
    /// `devRemove`, this project's own.
    DevRemove,
}

// A list of all gates.
macro_rules! gates {
    (()
        $($back:literal $return:ident;)* =>
        $($number:literal $call:ident $name:literal $arguments:tt
            $callers:ident $refusal:ident $memory:literal;)*
    ) => {
        [$(Gate::$return,)* $(Gate::$call,)*]
    };
}

// All gates, by rising number.
const GATES: [Gate; 58] = gate_table!(gates);

// The gate at an index of a list. None if the index is beyond its end.
fn gate_in(list: &[Gate], place: usize) -> Option<Gate>
    ensures { result ≡ slice_get list.now place }
{
    list.get(place).copied()
}

impl Gate {
    /// All gates, by rising number.
    #[tactic(auto, unfolding(crate::specs::Gates::gates))]
    pub fn all() -> &'static [Gate]
        ensures { result.now ≡ gates }
    {
        &GATES
    }

    /// The gate of this number. None above 57.
    #[tactic(auto, unfolding(crate::specs::Gates::gate_of, crate::specs::Gates::gates))]
    pub fn new(number: u32) -> Option<Gate>
        ensures { result ≡ gate_of number }
    {
        gate_in(&GATES, number as usize)
    }

    /// Its number, from 0 to 57.
    pub fn number(self) -> u32
        ensures value { result ≡ gate_number self }
        ensures few { result < 58 }
    {
        self as u32
    }

    /// The gate that begins at `address`, if the first gate is at `base`. None if no gate begins
    /// there.
    pub fn at(address: u32, base: u32) -> Option<Gate>
        ensures { result ≡ gate_at base address }
    {
        let offset = address.checked_sub(base)?;
        if offset % GATE_BYTES != 0 {
            return None;
        }
        Gate::new(offset / GATE_BYTES)
    }

    /// Its address, if the first gate is at `base`.
    pub fn address(self, base: u32) -> u32
        requires { base < 2 ^ 31 }
        ensures { result ≡ gate_address base self }
    {
        base + GATE_BYTES * self.number()
    }
}
