//! The table of gates: one line for each.

ghost use Rattle.std.specs.Prelude.{◌≡◌, None, Some, false, option_map};
ghost use Rattle.wind_base.specs.Gates.{gate_name as gate_name_lem, rules_of};
ghost use Rattle.wind_base.specs.Limits.{error_word};
ghost use Rattle.wind_base.specs.declared.gate_rules.Callers.TheVariants.{Tasks};

use crate::gate::Gate;
use crate::gate_table;
use crate::words::{ERROR, OK};

/// Who may make a kernel call.
#[derive(Clone, Copy, Debug, PartialEq, Eq)]
pub enum Callers {
    /// Any task.
    Tasks,
    /// Any task or interrupt routine.
    All,
    /// The shell's task only.
    Shell,
}

/// The table's entry for a gate. The table is this project's own.
#[derive(Clone, Copy, Debug, PartialEq, Eq)]
pub struct GateRules {
    /// Its number, from 0 to 57.
    pub number: u32,
    /// The name of its call. None if the gate is a return.
    pub name: Option<&'static str>,
    /// Who may make its call.
    pub callers: Callers,
    /// The result of a refused call: 0 if the call returns an object or an address, otherwise
    /// ERROR.
    pub refusal: u32,
    /// Whether the call can run out of host memory.
    pub memory: bool,
}

// The entry of a call's gate.
#[inline(always)]
const fn call(
    number: u32,
    name: &'static str,
    callers: Callers,
    refusal: u32,
    memory: bool,
) -> GateRules
    ensures number { result.number ≡ number }
    ensures name { option_map (λ n. n.now) result.name ≡ Some name.now }
    ensures callers { result.callers ≡ callers }
    ensures refusal { result.refusal ≡ refusal }
    ensures memory { result.memory ≡ memory }
{
    GateRules {
        number,
        name: Some(name),
        callers,
        refusal,
        memory,
    }
}

// The entry of a return's gate. Only its number is used.
#[inline(always)]
const fn back(number: u32) -> GateRules
    ensures number { result.number ≡ number }
    ensures name { result.name ≡ None }
    ensures callers { result.callers ≡ Tasks }
    ensures refusal { result.refusal ≡ error_word }
    ensures memory { result.memory ≡ false }
{
    GateRules {
        number,
        name: None,
        callers: Callers::Tasks,
        refusal: ERROR,
        memory: false,
    }
}

// The entry of a gate.
macro_rules! rules {
    (($gate:expr)
        $($back:literal $return:ident;)* =>
        $($number:literal $call:ident $name:literal $arguments:tt
            $callers:ident $refusal:ident $memory:literal;)*
    ) => {
        match $gate {
            $(Gate::$return => back($back),)*
            $(Gate::$call => call($number, $name, $callers, $refusal, $memory),)*
        }
    };
}

impl Gate {
    /// The table's entry for this gate.
    #[inline(always)]
    pub fn rules(self) -> GateRules
        ensures number { result.number ≡ (rules_of self).number }
        ensures name { option_map (λ n. n.now) result.name ≡ (rules_of self).name }
        ensures callers { result.callers ≡ (rules_of self).callers }
        ensures refusal { result.refusal ≡ (rules_of self).refusal }
        ensures memory { result.memory ≡ (rules_of self).memory }
    {
        use Callers::{All, Shell, Tasks};
        gate_table!(rules self)
    }

    /// The name of its call. None if the gate is a return.
    #[inline(always)]
    pub fn name(self) -> Option<&'static str>
        ensures { option_map (λ n. n.now) result ≡ (rules_of self).name }
    {
        self.rules().name
    }
}

/// The name of the call of the gate with this number. None for gates 0, 1 and 2, and above 57.
#[tactic(auto, unfolding(crate::specs::Gates::gate_name))]
pub fn gate_name(gate: u32) -> Option<&'static str>
    ensures { option_map (λ n. n.now) result ≡ gate_name_lem gate }
{
    match Gate::new(gate) {
        Some(gate) => gate.name(),
        None => None,
    }
}
