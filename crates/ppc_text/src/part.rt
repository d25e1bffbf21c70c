//! The operands of instructions: how each is written, and which field it fills.

ghost use Rattle.std.specs.Prelude.{◌≡◌};
ghost use Rattle.ppc_text.specs.Shapes.{parts_of as parts_of_lem};

/// How far a branch reaches: the width of its displacement, which counts bytes.
#[derive(Clone, Copy, Debug, PartialEq, Eq, Drop)]
pub(crate) enum Reach {
    /// 26 bits, signed.
    Long,
    /// 16 bits, signed.
    Short,
}

/// A part of an instruction's operands. A place is the index of a field in the instruction's form.
#[derive(Clone, Copy, Debug, PartialEq, Eq, Drop)]
pub(crate) enum Part {
    /// `,`.
    Comma,
    /// `(`.
    Open,
    /// `)`.
    Close,
    /// A register: the place of its field.
    Register(u8),
    /// A register whose number fills two fields: their places.
    Twice(u8, u8),
    /// An unsigned number: its place, and the greatest one allowed.
    Number(u8, u32),
    /// The number of a special register. Its field has the number's two halves of 5 bits exchanged.
    Special(u8),
    /// An immediate operand from -32768 to a greatest number, or half an address.
    Signed(u8, u32),
    /// An immediate operand from 0 to 65535, or half an address.
    Unsigned(u8),
    /// The target of a branch: a displacement in bytes, or an address.
    Target(u8, Reach),
    /// A field that isn't written: its place and its value.
    Fixed(u8, u32),
}

/// The operands of an instruction, in the order in which they are written.
#[derive(Clone, Copy, Debug, PartialEq, Eq, Drop)]
pub(crate) enum Shape {
    /// rT, rA, SI.
    Immediate,
    /// rT, rA, SI; SI may also be up to 65535.
    Shifted,
    /// rA, rS, UI.
    LogicalImmediate,
    /// F, rA, SI.
    CompareImmediate,
    /// F, rA, UI.
    CompareUnsigned,
    /// F, rA, rB.
    Compare,
    /// TO, rA, SI.
    TrapImmediate,
    /// TO, rA, rB.
    Trap,
    /// rT, SI(rA).
    Memory,
    /// rT, rA, rB.
    Three,
    /// rT, rA.
    Two,
    /// rA, rS, rB.
    LogicalThree,
    /// rA, rS.
    LogicalTwo,
    /// rA, rS, SH.
    Shift,
    /// rA, rS, SH, MB, ME.
    Rotate,
    /// rA, rS, rB, MB, ME.
    RotateBy,
    /// target.
    Branch,
    /// BO, BI, target.
    BranchConditional,
    /// BO, BI.
    BranchRegister,
    /// D, A, B.
    Bits,
    /// F, G.
    Fields,
    /// F.
    Field,
    /// rT.
    One,
    /// FXM, rS.
    Mask,
    /// rT, N.
    FromSpecial,
    /// N, rS.
    ToSpecial,
    /// None.
    Nothing,
    /// rT, SI; rA is r0.
    LoadImmediate,
    /// rT, SI; rA is r0, and SI may also be up to 65535.
    LoadShifted,
    /// rA, rS; rS is also rB.
    Move,
    /// None; BO is 20 and BI 0.
    Always,
    /// rT; N is 8, the link register.
    FromLink,
    /// rS; N is 8, the link register.
    ToLink,
}

/// The parts of a shape, from left to right.
pub(crate) fn parts_of(shape: Shape) -> &'static [Part]
    ensures { result.now ≡ parts_of_lem shape }
{
    use Part::{
        Close, Comma, Fixed, Number, Open, Register, Signed, Special, Target, Twice, Unsigned,
    };
    match shape {
        Shape::Immediate => &[Register(0), Comma, Register(1), Comma, Signed(2, 32767)],
        Shape::Shifted => &[Register(0), Comma, Register(1), Comma, Signed(2, 65535)],
        Shape::LogicalImmediate => &[Register(1), Comma, Register(0), Comma, Unsigned(2)],
        Shape::CompareImmediate => &[Number(0, 7), Comma, Register(1), Comma, Signed(2, 32767)],
        Shape::CompareUnsigned => &[Number(0, 7), Comma, Register(1), Comma, Unsigned(2)],
        Shape::Compare => &[Number(0, 7), Comma, Register(1), Comma, Register(2)],
        Shape::TrapImmediate => &[Number(0, 31), Comma, Register(1), Comma, Signed(2, 32767)],
        Shape::Trap => &[Number(0, 31), Comma, Register(1), Comma, Register(2)],
        Shape::Memory => &[
            Register(0),
            Comma,
            Signed(2, 32767),
            Open,
            Register(1),
            Close,
        ],
        Shape::Three => &[Register(0), Comma, Register(1), Comma, Register(2)],
        Shape::Two => &[Register(0), Comma, Register(1)],
        Shape::LogicalThree => &[Register(1), Comma, Register(0), Comma, Register(2)],
        Shape::LogicalTwo => &[Register(1), Comma, Register(0)],
        Shape::Shift => &[Register(1), Comma, Register(0), Comma, Number(2, 31)],
        Shape::Rotate => &[
            Register(1),
            Comma,
            Register(0),
            Comma,
            Number(2, 31),
            Comma,
            Number(3, 31),
            Comma,
            Number(4, 31),
        ],
        Shape::RotateBy => &[
            Register(1),
            Comma,
            Register(0),
            Comma,
            Register(2),
            Comma,
            Number(3, 31),
            Comma,
            Number(4, 31),
        ],
        Shape::Branch => &[Target(0, Reach::Long)],
        Shape::BranchConditional => &[
            Number(0, 31),
            Comma,
            Number(1, 31),
            Comma,
            Target(2, Reach::Short),
        ],
        Shape::BranchRegister => &[Number(0, 31), Comma, Number(1, 31)],
        Shape::Bits => &[Number(0, 31), Comma, Number(1, 31), Comma, Number(2, 31)],
        Shape::Fields => &[Number(0, 7), Comma, Number(1, 7)],
        Shape::Field => &[Number(0, 7)],
        Shape::One => &[Register(0)],
        Shape::Mask => &[Number(1, 255), Comma, Register(0)],
        Shape::FromSpecial => &[Register(0), Comma, Special(1)],
        Shape::ToSpecial => &[Special(1), Comma, Register(0)],
        Shape::Nothing => &[],
        Shape::LoadImmediate => &[Register(0), Comma, Signed(2, 32767)],
        Shape::LoadShifted => &[Register(0), Comma, Signed(2, 65535)],
        Shape::Move => &[Register(1), Comma, Twice(0, 2)],
        Shape::Always => &[Fixed(0, 20)],
        Shape::FromLink => &[Register(0), Fixed(1, 256)],
        Shape::ToLink => &[Fixed(1, 256), Register(0)],
    }
}
