//! What an instruction reads, writes and reaches.

ghost use Rattle.std.specs.Prelude.{◌≡◌, ◌≤◌, Some};
ghost use Rattle.decode.specs.Encoding.{bytes_in, loaded};
ghost use Rattle.decode.specs.Attributes.{register_of, nothing, computes, loads, stores, alu_attributes, attributes_of};

use crate::alu_form::{Form, form_from};
use crate::insn::{Insn, Operand, Reg, SignedSize, Size};

/// The bytes that are read or written: at a register and an offset.
#[derive(Clone, Copy, Debug, PartialEq, Eq)]
pub struct Access {
    pub base: Reg,
    pub offset: i16,
    pub bytes: u8,
    pub stores: bool,
}

/// What an instruction reads, writes and reaches. It leaves out the arguments of a helper, and r0 at the end.
#[derive(Clone, Copy, Debug, PartialEq, Eq)]
pub struct Attributes {
    /// Read as a number.
    pub number: Option<Reg>,
    /// Read as a number.
    pub operand: Option<Reg>,
    /// Copied, whatever it holds.
    pub copied: Option<Reg>,
    /// Moved by this many bytes if it is a place.
    pub moved: Option<(Reg, i64)>,
    pub access: Option<Access>,
    /// Written.
    pub written: Option<Reg>,
}

/// How many bytes a load or store of this size reaches.
pub fn bytes_in(size: Size) -> u8
    ensures value { result ≡ bytes_in size }
    ensures bound { result ≤ 8 }
{
    match size {
        Size::Byte => 1,
        Size::Half => 2,
        Size::Word => 4,
        Size::Double => 8,
    }
}

/// How many bytes a load of this size reaches.
pub fn signed_bytes_in(size: SignedSize) -> u8
    ensures value { result ≡ bytes_in (loaded size) }
    ensures bound { result ≤ 8 }
{
    match size {
        SignedSize::Byte => 1,
        SignedSize::Half => 2,
        SignedSize::Word => 4,
    }
}

fn register(operand: &Operand) -> Option<Reg>
    ensures { result ≡ register_of operand.now }
{
    match *operand {
        Operand::Imm(_) => None,
        Operand::Reg(reg) => Some(reg),
    }
}

/// No attribute.
const NOTHING: Attributes = Attributes {
    number: None,
    operand: None,
    copied: None,
    moved: None,
    access: None,
    written: None,
};

fn computes(number: Option<Reg>, operand: Option<Reg>, dst: Reg) -> Attributes
    ensures { result ≡ computes number operand dst }
{
    Attributes {
        number,
        operand,
        written: Some(dst),
        ..NOTHING
    }
}

fn loads(bytes: u8, dst: Reg, base: Reg, offset: i16) -> Attributes
    ensures { result ≡ loads bytes dst base offset }
{
    Attributes {
        written: Some(dst),
        access: Some(Access {
            base,
            offset,
            bytes,
            stores: false,
        }),
        ..NOTHING
    }
}

fn stores(bytes: u8, base: Reg, offset: i16, operand: Option<Reg>) -> Attributes
    ensures { result ≡ stores bytes base offset operand }
{
    Attributes {
        operand,
        access: Some(Access {
            base,
            offset,
            bytes,
            stores: true,
        }),
        ..NOTHING
    }
}

fn compares(number: Reg, operand: &Operand) -> Attributes
    ensures { result ≡ record nothing { number = Some number; operand = register_of operand.now } }
{
    Attributes {
        number: Some(number),
        operand: register(operand),
        ..NOTHING
    }
}

fn alu_attributes(form: &Form, dst: Reg, operand: &Operand) -> Attributes
    ensures { result ≡ alu_attributes form.now dst operand.now }
{
    match *form {
        Form::Copies(src) => Attributes {
            copied: Some(src),
            written: Some(dst),
            ..NOTHING
        },
        Form::Moves(by) => Attributes {
            written: Some(dst),
            moved: Some((dst, by)),
            ..NOTHING
        },
        Form::Sets => computes(None, register(operand), dst),
        Form::Computes => computes(Some(dst), register(operand), dst),
    }
}

/// The attributes of an instruction.
pub fn attributes_from(insn: &Insn) -> Attributes
    ensures { result ≡ attributes_of insn.now }
{
    match *insn {
        Insn::Alu {
            op,
            width,
            dst,
            operand,
        } => alu_attributes(&form_from(op, width, operand), dst, &operand),
        Insn::MovSx { dst, src, .. } => computes(None, Some(src), dst),
        Insn::Neg { dst, .. } | Insn::End { dst, .. } => computes(None, Some(dst), dst),
        Insn::Jump { .. } | Insn::JumpLong { .. } | Insn::Call { .. } | Insn::Exit => NOTHING,
        Insn::JumpIf { dst, operand, .. } => compares(dst, &operand),
        Insn::Load {
            size,
            dst,
            src,
            offset,
        } => loads(bytes_in(size), dst, src, offset),
        Insn::LoadSx {
            size,
            dst,
            src,
            offset,
        } => loads(signed_bytes_in(size), dst, src, offset),
        Insn::StoreReg {
            size,
            dst,
            src,
            offset,
        } => stores(bytes_in(size), dst, offset, Some(src)),
        Insn::StoreImm {
            size,
            dst,
            offset,
            ..
        } => stores(bytes_in(size), dst, offset, None),
        Insn::Wide { dst, .. } => computes(None, None, dst),
    }
}
