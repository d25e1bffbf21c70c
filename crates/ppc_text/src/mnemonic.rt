//! The mnemonics: one line for each instruction and each short form.

ghost use Rattle.std.specs.Prelude.{◌≡◌, ◌≤◌, length, map, not, ◌==◌, slice_set};
ghost use Rattle.std.specs.List.{prefix_len};
ghost use Rattle.ppc_text.specs.Mnemonics.{name_of as name_of_lem, seen, ending_of as ending_of_lem, named as named_lem, spelling_in, spelling_of as spelling_of_lem, named_as, flagged as flagged_lem, is_absolute as is_absolute_lem, spells};

use crate::part::Shape;
use ppc_word::Row;

/// The letters that may follow the name of an instruction, with the place of the first field that they set.
#[derive(Clone, Copy, Debug, PartialEq, Eq, Drop)]
pub(crate) enum Endings {
    /// Nothing.
    Bare,
    /// `.` for Rc.
    Record(u8),
    /// `o` for OE, then `.` for Rc.
    Overflow(u8),
    /// `l` for LK.
    Link(u8),
    /// `l` for LK, then `a` for AA. The field of AA stands first.
    LinkAbsolute(u8),
}

/// How an instruction is spelled.
#[derive(Clone, Copy, Debug, Drop)]
pub(crate) struct Mnemonic {
    /// The name, with zeros after it.
    pub name: [u8; 6],
    /// The instruction's row of the table.
    pub row: Row,
    /// The operands.
    pub shape: Shape,
    /// The letters that may follow the name.
    pub endings: Endings,
}

/// The values of the one or two fields that an ending sets, in the order of their places.
#[derive(Clone, Copy, Debug, PartialEq, Eq, Drop)]
pub(crate) struct Flags {
    /// The field at the ending's place.
    pub first: u32,
    /// The field after it.
    pub second: u32,
}

/// What a mnemonic names: an instruction, the shape of its operands, and the fields that its ending sets.
#[derive(Clone, Copy, Debug, Drop)]
pub(crate) struct Spelling {
    /// The instruction's row of the table.
    pub row: Row,
    /// The operands.
    pub shape: Shape,
    /// Whether the ending sets AA.
    pub absolute: bool,
    /// The fields that the ending sets; the others are 0.
    pub fields: [u32; 6],
}

// The place of the first field after those of the operands, for the shapes with an ending.
macro_rules! place_after {
    (Branch) => {
        1
    };
    (Two) => {
        2
    };
    (LogicalTwo) => {
        2
    };
    (BranchRegister) => {
        2
    };
    (Rotate) => {
        5
    };
    (RotateBy) => {
        5
    };
    ($shape:ident) => {
        3
    };
}

macro_rules! mnemonic {
    ($name:literal, $row:ident, $shape:ident, Bare) => {
        mnemonic!($name, $row, $shape, (Endings::Bare))
    };
    ($name:literal, $row:ident, $shape:ident, $ending:ident) => {
        mnemonic!($name, $row, $shape, (Endings::$ending(place_after!($shape))))
    };
    ($name:literal, $row:ident, $shape:ident, ($endings:expr)) => {
        Mnemonic {
            name: *$name,
            row: Row::$row,
            shape: Shape::$shape,
            endings: $endings,
        }
    };
}

/// The number of mnemonics, including the short forms.
pub(crate) const MNEMONICS: usize = 118;

/// The instructions in the order of `Row`, then the short forms.
pub(crate) static TABLE: [Mnemonic; MNEMONICS] = [
    mnemonic!(b"twi\0\0\0", Twi, TrapImmediate, Bare),
    mnemonic!(b"mulli\0", Mulli, Immediate, Bare),
    mnemonic!(b"subfic", Subfic, Immediate, Bare),
    mnemonic!(b"cmplwi", Cmpli, CompareUnsigned, Bare),
    mnemonic!(b"cmpwi\0", Cmpi, CompareImmediate, Bare),
    mnemonic!(b"addic\0", Addic, Immediate, Bare),
    mnemonic!(b"addic.", AddicDot, Immediate, Bare),
    mnemonic!(b"addi\0\0", Addi, Immediate, Bare),
    mnemonic!(b"addis\0", Addis, Shifted, Bare),
    mnemonic!(b"bc\0\0\0\0", Bc, BranchConditional, LinkAbsolute),
    mnemonic!(b"sc\0\0\0\0", Sc, Nothing, Bare),
    mnemonic!(b"b\0\0\0\0\0", B, Branch, LinkAbsolute),
    mnemonic!(b"rlwimi", Rlwimi, Rotate, Record),
    mnemonic!(b"rlwinm", Rlwinm, Rotate, Record),
    mnemonic!(b"rlwnm\0", Rlwnm, RotateBy, Record),
    mnemonic!(b"ori\0\0\0", Ori, LogicalImmediate, Bare),
    mnemonic!(b"oris\0\0", Oris, LogicalImmediate, Bare),
    mnemonic!(b"xori\0\0", Xori, LogicalImmediate, Bare),
    mnemonic!(b"xoris\0", Xoris, LogicalImmediate, Bare),
    mnemonic!(b"andi.\0", Andi, LogicalImmediate, Bare),
    mnemonic!(b"andis.", Andis, LogicalImmediate, Bare),
    mnemonic!(b"lwz\0\0\0", Lwz, Memory, Bare),
    mnemonic!(b"lwzu\0\0", Lwzu, Memory, Bare),
    mnemonic!(b"lbz\0\0\0", Lbz, Memory, Bare),
    mnemonic!(b"lbzu\0\0", Lbzu, Memory, Bare),
    mnemonic!(b"stw\0\0\0", Stw, Memory, Bare),
    mnemonic!(b"stwu\0\0", Stwu, Memory, Bare),
    mnemonic!(b"stb\0\0\0", Stb, Memory, Bare),
    mnemonic!(b"stbu\0\0", Stbu, Memory, Bare),
    mnemonic!(b"lhz\0\0\0", Lhz, Memory, Bare),
    mnemonic!(b"lhzu\0\0", Lhzu, Memory, Bare),
    mnemonic!(b"lha\0\0\0", Lha, Memory, Bare),
    mnemonic!(b"lhau\0\0", Lhau, Memory, Bare),
    mnemonic!(b"sth\0\0\0", Sth, Memory, Bare),
    mnemonic!(b"sthu\0\0", Sthu, Memory, Bare),
    mnemonic!(b"lmw\0\0\0", Lmw, Memory, Bare),
    mnemonic!(b"stmw\0\0", Stmw, Memory, Bare),
    mnemonic!(b"mcrf\0\0", Mcrf, Fields, Bare),
    mnemonic!(b"bclr\0\0", Bclr, BranchRegister, Link),
    mnemonic!(b"bcctr\0", Bcctr, BranchRegister, Link),
    mnemonic!(b"crnor\0", Crnor, Bits, Bare),
    mnemonic!(b"crandc", Crandc, Bits, Bare),
    mnemonic!(b"crxor\0", Crxor, Bits, Bare),
    mnemonic!(b"crnand", Crnand, Bits, Bare),
    mnemonic!(b"crand\0", Crand, Bits, Bare),
    mnemonic!(b"creqv\0", Creqv, Bits, Bare),
    mnemonic!(b"crorc\0", Crorc, Bits, Bare),
    mnemonic!(b"cror\0\0", Cror, Bits, Bare),
    mnemonic!(b"isync\0", Isync, Nothing, Bare),
    mnemonic!(b"cmpw\0\0", Cmp, Compare, Bare),
    mnemonic!(b"cmplw\0", Cmpl, Compare, Bare),
    mnemonic!(b"tw\0\0\0\0", Tw, Trap, Bare),
    mnemonic!(b"subfc\0", Subfc, Three, Overflow),
    mnemonic!(b"subf\0\0", Subf, Three, Overflow),
    mnemonic!(b"addc\0\0", Addc, Three, Overflow),
    mnemonic!(b"add\0\0\0", Add, Three, Overflow),
    mnemonic!(b"subfe\0", Subfe, Three, Overflow),
    mnemonic!(b"adde\0\0", Adde, Three, Overflow),
    mnemonic!(b"subfze", Subfze, Two, Overflow),
    mnemonic!(b"addze\0", Addze, Two, Overflow),
    mnemonic!(b"subfme", Subfme, Two, Overflow),
    mnemonic!(b"addme\0", Addme, Two, Overflow),
    mnemonic!(b"neg\0\0\0", Neg, Two, Overflow),
    mnemonic!(b"mulhwu", Mulhwu, Three, Record),
    mnemonic!(b"mulhw\0", Mulhw, Three, Record),
    mnemonic!(b"mullw\0", Mullw, Three, Overflow),
    mnemonic!(b"divwu\0", Divwu, Three, Overflow),
    mnemonic!(b"divw\0\0", Divw, Three, Overflow),
    mnemonic!(b"and\0\0\0", And, LogicalThree, Record),
    mnemonic!(b"andc\0\0", Andc, LogicalThree, Record),
    mnemonic!(b"or\0\0\0\0", Or, LogicalThree, Record),
    mnemonic!(b"orc\0\0\0", Orc, LogicalThree, Record),
    mnemonic!(b"xor\0\0\0", Xor, LogicalThree, Record),
    mnemonic!(b"eqv\0\0\0", Eqv, LogicalThree, Record),
    mnemonic!(b"nor\0\0\0", Nor, LogicalThree, Record),
    mnemonic!(b"nand\0\0", Nand, LogicalThree, Record),
    mnemonic!(b"slw\0\0\0", Slw, LogicalThree, Record),
    mnemonic!(b"srw\0\0\0", Srw, LogicalThree, Record),
    mnemonic!(b"sraw\0\0", Sraw, LogicalThree, Record),
    mnemonic!(b"srawi\0", Srawi, Shift, Record),
    mnemonic!(b"cntlzw", Cntlzw, LogicalTwo, Record),
    mnemonic!(b"extsb\0", Extsb, LogicalTwo, Record),
    mnemonic!(b"extsh\0", Extsh, LogicalTwo, Record),
    mnemonic!(b"mfcr\0\0", Mfcr, One, Bare),
    mnemonic!(b"mtcrf\0", Mtcrf, Mask, Bare),
    mnemonic!(b"mcrxr\0", Mcrxr, Field, Bare),
    mnemonic!(b"mfspr\0", Mfspr, FromSpecial, Bare),
    mnemonic!(b"mtspr\0", Mtspr, ToSpecial, Bare),
    mnemonic!(b"lwzx\0\0", Lwzx, Three, Bare),
    mnemonic!(b"lbzx\0\0", Lbzx, Three, Bare),
    mnemonic!(b"lhzx\0\0", Lhzx, Three, Bare),
    mnemonic!(b"lhax\0\0", Lhax, Three, Bare),
    mnemonic!(b"lwzux\0", Lwzux, Three, Bare),
    mnemonic!(b"lbzux\0", Lbzux, Three, Bare),
    mnemonic!(b"lhzux\0", Lhzux, Three, Bare),
    mnemonic!(b"lhaux\0", Lhaux, Three, Bare),
    mnemonic!(b"stwx\0\0", Stwx, Three, Bare),
    mnemonic!(b"stbx\0\0", Stbx, Three, Bare),
    mnemonic!(b"sthx\0\0", Sthx, Three, Bare),
    mnemonic!(b"stwux\0", Stwux, Three, Bare),
    mnemonic!(b"stbux\0", Stbux, Three, Bare),
    mnemonic!(b"sthux\0", Sthux, Three, Bare),
    mnemonic!(b"lwbrx\0", Lwbrx, Three, Bare),
    mnemonic!(b"lhbrx\0", Lhbrx, Three, Bare),
    mnemonic!(b"stwbrx", Stwbrx, Three, Bare),
    mnemonic!(b"sthbrx", Sthbrx, Three, Bare),
    mnemonic!(b"lwarx\0", Lwarx, Three, Bare),
    mnemonic!(b"stwcx.", Stwcx, Three, Bare),
    mnemonic!(b"sync\0\0", Sync, Nothing, Bare),
    mnemonic!(b"eieio\0", Eieio, Nothing, Bare),
    mnemonic!(b"li\0\0\0\0", Addi, LoadImmediate, Bare),
    mnemonic!(b"lis\0\0\0", Addis, LoadShifted, Bare),
    mnemonic!(b"mr\0\0\0\0", Or, Move, Bare),
    mnemonic!(b"blr\0\0\0", Bclr, Always, Bare),
    mnemonic!(b"bctr\0\0", Bcctr, Always, Bare),
    mnemonic!(b"mflr\0\0", Mfspr, FromLink, Bare),
    mnemonic!(b"mtlr\0\0", Mtspr, ToLink, Bare),
    mnemonic!(b"nop\0\0\0", Ori, Nothing, Bare),
];

// The number of bytes before the first zero.
fn name_len(name: &[u8]) -> usize
    ensures exact { result ≡ prefix_len (λ b. not (b == 0)) name.now }
    ensures within { result ≤ length name.now }
{
    name.iter().take_while(|byte| **byte != 0).count()
}

/// The name without the zeros after it.
pub(crate) fn name_of(mnemonic: &Mnemonic) -> &[u8]
    ensures value { result.now ≡ name_of_lem mnemonic.now }
    ensures within { length result.now ≤ 6 }
{
    &mnemonic.name[..name_len(&mnemonic.name)]
}

// The values of the field at an ending's place and of the field after it.
fn flags_of(first: u32, second: u32) -> Flags
    ensures { result ≡ record { first = first; second = second } }
{
    Flags { first, second }
}

// The fields that the bytes after a name set. None if the bytes aren't one of the name's endings.
#[tactic(auto, unfolding(crate::specs::Mnemonics::ending_of))]
fn ending_of(endings: Endings, bytes: &[u8]) -> Option<Flags>
    ensures { result ≡ ending_of_lem endings bytes.now }
{
    match (endings, bytes) {
        (_, []) => Some(flags_of(0, 0)),
        (Endings::Record(_), [b'.']) => Some(flags_of(1, 0)),
        (Endings::Overflow(_), [b'o']) => Some(flags_of(1, 0)),
        (Endings::Overflow(_), [b'.']) => Some(flags_of(0, 1)),
        (Endings::Overflow(_), [b'o', b'.']) => Some(flags_of(1, 1)),
        (Endings::Link(_), [b'l']) => Some(flags_of(1, 0)),
        (Endings::LinkAbsolute(_), [b'a']) => Some(flags_of(1, 0)),
        (Endings::LinkAbsolute(_), [b'l']) => Some(flags_of(0, 1)),
        (Endings::LinkAbsolute(_), [b'l', b'a']) => Some(flags_of(1, 1)),
        _ => None,
    }
}

// The fields that a word's ending sets. None if the word isn't this mnemonic.
#[tactic(auto, unfolding(crate::specs::Mnemonics::named))]
fn named(mnemonic: &Mnemonic, word: &[u8]) -> Option<Flags>
    ensures { result ≡ named_lem (seen mnemonic.now) word.now }
{
    let name = name_of(mnemonic);
    if word.starts_with(name) {
        ending_of(mnemonic.endings, &word[name.len()..])
    } else {
        None
    }
}

#[tactic(auto, unfolding(crate::specs::Mnemonics::is_absolute))]
fn is_absolute(endings: Endings, flags: Flags) -> bool
    ensures { result ≡ is_absolute_lem endings flags }
{
    match endings {
        Endings::LinkAbsolute(_) => flags.first == 1,
        _ => false,
    }
}

/// Six fields: those that the ending sets, and 0 elsewhere.
#[tactic(auto, unfolding(crate::specs::Mnemonics::flagged))]
pub(crate) fn flagged(endings: Endings, flags: Flags) -> [u32; 6]
    ensures { result ≡ flagged_lem endings flags }
{
    let mut fields = [0; 6];
    match endings {
        Endings::Bare => {}
        Endings::Record(place) | Endings::Link(place) => put(&mut fields, place, flags.first),
        Endings::Overflow(place) | Endings::LinkAbsolute(place) => {
            put(&mut fields, place, flags.first);
            put(&mut fields, place.saturating_add(1), flags.second);
        }
    }
    fields
}

fn put(fields: &mut [u32; 6], place: u8, value: u32)
    ensures { fields.new ≡ slice_set fields.old place value }
{
    if (place as usize) < fields.len() {
        fields[place as usize] = value;
    }
}

#[tactic(auto, unfolding(crate::specs::Mnemonics::spells))]
fn spelled(mnemonic: &Mnemonic, flags: Flags) -> Spelling
    ensures { result ≡ spells (seen mnemonic.now) flags }
{
    Spelling {
        row: mnemonic.row,
        shape: mnemonic.shape,
        absolute: is_absolute(mnemonic.endings, flags),
        fields: flagged(mnemonic.endings, flags),
    }
}

fn spelling_among(mnemonics: &[Mnemonic], word: &[u8]) -> Option<Spelling>
    ensures { result ≡ spelling_in (map seen mnemonics.now) word.now }
{
    for mnemonic in mnemonics {
        if let Some(flags) = named(mnemonic, word) {
            return Some(spelled(mnemonic, flags));
        }
    }
    None
}

/// How an instruction is spelled.
pub(crate) fn mnemonic_of(row: Row) -> &'static Mnemonic
    ensures { seen result.now ≡ named_as row }
{
    &TABLE[row as usize]
}

/// What a mnemonic names. None if the word isn't a mnemonic.
pub(crate) fn spelling_of(word: &[u8]) -> Option<Spelling>
    ensures { result ≡ spelling_of_lem word.now }
{
    spelling_among(&TABLE, word)
}
