//! The table of gates, from which the code that has a line for each gate is written.

/// Calls the macro `then` with the tokens given and the table of gates, by rising number. A line of
/// a return: its number and its gate. A line of a call: its number, its gate, its name, its
/// arguments, who may make it, the result if it is refused, and whether it can run out of host
/// memory. An argument has the form in which a text shows it: `Number` and `Hex` are words in the
/// first of r3 to r7, and the others lists of words after them: `Ten` and `Nine` arguments of a
/// task, and `Seven` values of a format. The table is this project's own.
#[macro_export]
macro_rules! gate_table {
    ($then:ident $($given:tt)*) => {
        $then! {
            ($($given)*)
            0 TaskReturn;
            1 ShellReturn;
            2 InterruptReturn;
            =>
            3 TaskSpawn "taskSpawn"
                (name: Hex, priority: Number, options: Number, stack_size: Number,
                entry: Hex, arguments: Ten)
                Tasks ERROR false;
            4 Sp "sp" (entry: Hex, arguments: Nine) Tasks ERROR false;
            5 TaskDelete "taskDelete" (id: Number) Tasks ERROR false;
            6 TaskSuspend "taskSuspend" (id: Number) All ERROR false;
            7 TaskResume "taskResume" (id: Number) All ERROR false;
            8 TaskPrioritySet "taskPrioritySet" (id: Number, priority: Number) All ERROR false;
            9 TaskPriorityGet "taskPriorityGet" (id: Number, address: Hex) All ERROR false;
            10 TaskDelay "taskDelay" (ticks: Number) Tasks ERROR false;
            11 TaskLock "taskLock" () Tasks ERROR false;
            12 TaskUnlock "taskUnlock" () Tasks ERROR false;
            13 TaskSafe "taskSafe" () Tasks ERROR false;
            14 TaskUnsafe "taskUnsafe" () Tasks ERROR false;
            15 TaskIdSelf "taskIdSelf" () Tasks ERROR false;
            16 TaskIdVerify "taskIdVerify" (id: Number) All ERROR false;
            17 TaskNameToId "taskNameToId" (name: Hex) Tasks ERROR false;
            18 KernelTimeSlice "kernelTimeSlice" (ticks: Number) Tasks ERROR false;
            19 TickGet "tickGet" () All ERROR false;
            20 SemBCreate "semBCreate" (options: Number, state: Number) Tasks OK false;
            21 SemCCreate "semCCreate" (options: Number, count: Number) Tasks OK false;
            22 SemMCreate "semMCreate" (options: Number) Tasks OK false;
            23 SemTake "semTake" (id: Number, timeout: Number) Tasks ERROR false;
            24 SemGive "semGive" (id: Number) All ERROR false;
            25 SemFlush "semFlush" (id: Number) All ERROR false;
            26 SemDelete "semDelete" (id: Number) Tasks ERROR false;
            27 MsgQCreate "msgQCreate"
                (max_msgs: Number, max_length: Number, options: Number)
                Tasks OK true;
            28 MsgQSend "msgQSend"
                (id: Number, buffer: Hex, count: Number, timeout: Number, priority: Number)
                All ERROR false;
            29 MsgQReceive "msgQReceive"
                (id: Number, buffer: Hex, count: Number, timeout: Number)
                Tasks ERROR false;
            30 MsgQDelete "msgQDelete" (id: Number) Tasks ERROR false;
            31 MsgQNumMsgs "msgQNumMsgs" (id: Number) All ERROR false;
            32 WdCreate "wdCreate" () Tasks OK false;
            33 WdStart "wdStart"
                (id: Number, delay: Number, routine: Hex, parameter: Number)
                All ERROR false;
            34 WdCancel "wdCancel" (id: Number) All ERROR false;
            35 WdDelete "wdDelete" (id: Number) Tasks ERROR false;
            36 IntLock "intLock" () All ERROR false;
            37 IntUnlock "intUnlock" (key: Number) All ERROR false;
            38 IntContext "intContext" () All ERROR false;
            39 Malloc "malloc" (size: Number) Tasks OK false;
            40 Free "free" (address: Hex) Tasks ERROR false;
            41 Memalign "memalign" (align: Number, size: Number) Tasks OK false;
            42 SymAdd "symAdd"
                (table: Number, name: Hex, value: Hex, kind: Number, group: Number)
                Tasks ERROR true;
            43 Printf "printf" (format: Hex, values: Seven) Tasks ERROR false;
            44 ErrnoGet "errnoGet" () All ERROR false;
            45 ErrnoSet "errnoSet" (number: Hex) All ERROR false;
            46 Ld "ld" (symbols: Number, no_abort: Number, name: Hex) Shell ERROR true;
            47 Unld "unld" (which: Hex, options: Number) Shell ERROR false;
            48 I "i" () Shell ERROR true;
            49 Lkup "lkup" (text: Hex) Shell ERROR true;
            50 ModuleShow "moduleShow" () Shell ERROR true;
            51 D "d" (address: Hex, units: Number, width: Number) Shell ERROR true;
            52 IntConnect "intConnect"
                (slot: Number, routine: Hex, parameter: Number)
                Tasks ERROR false;
            53 IntDisconnect "intDisconnect" (slot: Number, routine: Hex) Tasks ERROR false;
            54 IntEnable "intEnable" (slot: Number) All ERROR false;
            55 IntDisable "intDisable" (slot: Number) All ERROR false;
            56 IntPending "intPending" (slot: Number) All ERROR false;
            57 DevRemove "devRemove" (slot: Number) Tasks ERROR false;
        }
    };
}
