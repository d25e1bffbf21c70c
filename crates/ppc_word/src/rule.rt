//! What an instruction's words must meet besides the pieces.

ghost use Rattle.std.specs.Prelude.{◌≡◌};
ghost use Rattle.ppc_word.specs.Rules.{allowed, rt_of, ra_of, spr_of};

use crate::word::part;

// The special registers of the model, by their numbers.
const XER: u32 = 1;

const LR: u32 = 8;

const CTR: u32 = 9;

/// What a word must meet besides its pieces.
#[derive(Clone, Copy, Debug, PartialEq, Eq, Drop)]
pub enum Rule {
    /// Nothing.
    Any,
    /// The base register RA is neither 0 nor the target RT.
    LoadUpdate,
    /// The base register RA isn't 0.
    StoreUpdate,
    /// The number of the base register RA is below that of the target RT.
    LoadMultiple,
    /// The special register is XER, LR or CTR.
    SpecialRegister,
    /// The branch doesn't decrement CTR.
    NoCount,
}

/// Whether a word meets a rule.
#[inline(always)]
pub(crate) fn is_allowed(rule: Rule, word: u32) -> bool
    ensures { result ≡ allowed rule word }
{
    match rule {
        Rule::Any => true,
        Rule::LoadUpdate => base(word) != 0 && base(word) != target(word),
        Rule::StoreUpdate => base(word) != 0,
        Rule::LoadMultiple => base(word) < target(word),
        Rule::SpecialRegister => {
            let register = special_register(word);
            register == XER || register == LR || register == CTR
        }
        Rule::NoCount => part(word, 23, 1) == 1,
    }
}

// Bits 6 to 10: RT.
#[inline(always)]
fn target(word: u32) -> u32
    ensures { result ≡ rt_of word }
{
    part(word, 21, 5)
}

// Bits 11 to 15: RA.
#[inline(always)]
fn base(word: u32) -> u32
    ensures { result ≡ ra_of word }
{
    part(word, 16, 5)
}

// Bits 11 to 20: SPR, with its lower half first.
#[inline(always)]
fn special_register(word: u32) -> u32
    ensures { result ≡ spr_of word }
{
    part(word, 11, 5) * 0x20 + part(word, 16, 5)
}
