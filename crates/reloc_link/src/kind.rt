//! The types of relocation, and the forms of the fields that they write.

ghost use Rattle.std.specs.Prelude.{◌≡◌};
ghost use Rattle.reloc_link.specs.Types.{type_of, form_of, is_relative as is_relative_lem, width_by};

/// A type of relocation. These are the types of the System V ABI, PowerPC Processor Supplement,
/// "Relocation Types", that need no table other than the symbols. Each has its name there, without
/// `R_PPC_`. S is the symbol, A the addend and P the address of the field.
#[derive(Clone, Copy, Debug, PartialEq, Eq)]
pub enum RelocType {
    /// `NONE`: nothing is written.
    Nothing,
    /// `ADDR32`: a word, S + A.
    Addr32,
    /// `ADDR24`: the target of a branch, S + A.
    Addr24,
    /// `ADDR16`: a half word, S + A.
    Addr16,
    /// `ADDR16_LO`: the lower half of S + A.
    Addr16Lo,
    /// `ADDR16_HI`: the upper half of S + A.
    Addr16Hi,
    /// `ADDR16_HA`: the adjusted upper half of S + A.
    Addr16Ha,
    /// `ADDR14`: the target of a conditional branch, S + A.
    Addr14,
    /// `ADDR14_BRTAKEN`: the same, with the branch predicted as taken.
    Addr14BrTaken,
    /// `ADDR14_BRNTAKEN`: the same, with the branch predicted as not taken.
    Addr14BrNTaken,
    /// `REL24`: the target of a branch, S + A - P.
    Rel24,
    /// `REL14`: the target of a conditional branch, S + A - P.
    Rel14,
    /// `REL14_BRTAKEN`: the same, with the branch predicted as taken.
    Rel14BrTaken,
    /// `REL14_BRNTAKEN`: the same, with the branch predicted as not taken.
    Rel14BrNTaken,
    /// `UADDR32`: as `ADDR32`, at any address.
    Uaddr32,
    /// `UADDR16`: as `ADDR16`, at any address.
    Uaddr16,
    /// `REL32`: a word, S + A - P.
    Rel32,
}

/// How the prediction bit of a conditional branch is set.
#[derive(Clone, Copy, Debug, PartialEq, Eq)]
pub enum Hint {
    /// The bit stays as it is.
    Kept,
    /// The branch is predicted as taken.
    Taken,
    /// The branch is predicted as not taken.
    NotTaken,
}

/// The form of a field.
#[derive(Clone, Copy, Debug, PartialEq, Eq)]
pub enum Form {
    /// No bytes.
    Empty,
    /// A whole word.
    Word,
    /// The 24 bits of a word that hold the target of a branch.
    Branch24,
    /// The 14 bits of a word that hold the target of a conditional branch.
    Branch14(Hint),
    /// A half word that holds the whole value.
    Half,
    /// A half word that holds the lower half of the value.
    Low,
    /// A half word that holds the upper half of the value.
    High,
    /// A half word that holds the upper half of the value, plus 1 if the lower half is negative
    /// when read as signed.
    HighAdjusted,
}

impl RelocType {
    /// The type that has this number. `None` if there is none.
    pub fn of(number: u8) -> Option<RelocType>
        ensures { result ≡ type_of number }
    {
        Some(match number {
            0 => RelocType::Nothing,
            1 => RelocType::Addr32,
            2 => RelocType::Addr24,
            3 => RelocType::Addr16,
            4 => RelocType::Addr16Lo,
            5 => RelocType::Addr16Hi,
            6 => RelocType::Addr16Ha,
            7 => RelocType::Addr14,
            8 => RelocType::Addr14BrTaken,
            9 => RelocType::Addr14BrNTaken,
            10 => RelocType::Rel24,
            11 => RelocType::Rel14,
            12 => RelocType::Rel14BrTaken,
            13 => RelocType::Rel14BrNTaken,
            24 => RelocType::Uaddr32,
            25 => RelocType::Uaddr16,
            26 => RelocType::Rel32,
            _ => return None,
        })
    }

    /// The form of the field that the type writes.
    pub(crate) fn form(self) -> Form
        ensures { result ≡ form_of self }
    {
        match self {
            RelocType::Nothing => Form::Empty,
            RelocType::Addr32 | RelocType::Uaddr32 | RelocType::Rel32 => Form::Word,
            RelocType::Addr24 | RelocType::Rel24 => Form::Branch24,
            RelocType::Addr16 | RelocType::Uaddr16 => Form::Half,
            RelocType::Addr16Lo => Form::Low,
            RelocType::Addr16Hi => Form::High,
            RelocType::Addr16Ha => Form::HighAdjusted,
            RelocType::Addr14 | RelocType::Rel14 => Form::Branch14(Hint::Kept),
            RelocType::Addr14BrTaken | RelocType::Rel14BrTaken => Form::Branch14(Hint::Taken),
            RelocType::Addr14BrNTaken | RelocType::Rel14BrNTaken => Form::Branch14(Hint::NotTaken),
        }
    }

    /// Whether the type writes a distance from the field instead of an address.
    pub(crate) fn is_relative(self) -> bool
        ensures { result ≡ is_relative_lem self }
    {
        match self {
            RelocType::Rel24
            | RelocType::Rel14
            | RelocType::Rel14BrTaken
            | RelocType::Rel14BrNTaken
            | RelocType::Rel32 => true,
            _ => false,
        }
    }
}

impl Form {
    /// How many bytes the form has.
    pub(crate) fn width(self) -> u32
        ensures { result ≡ width_by self }
    {
        match self {
            Form::Empty => 0,
            Form::Half | Form::Low | Form::High | Form::HighAdjusted => 2,
            Form::Word | Form::Branch24 | Form::Branch14(_) => 4,
        }
    }
}
