//! Kinds and frames.

ghost use Rattle.std.specs.Prelude.{◌≡◌, ◌↔◌, IsTrue};
ghost use Rattle.regtypes.specs.declared.frame.Frame.{Frame};
ghost use Rattle.regtypes.specs.Frame.{is_num, LeqKind, Leq};
ghost use Rattle.regtypes.specs.Inside.Frame.{IsJoin};

use crate::image_form::ImageForm;
use decode::Reg;
use limits::{FORM_1_BYTES, REGISTERS, STACK_BYTES};

/// A part of the memory that a handler can reach: the message, its state, and its stack of 512
/// bytes.
#[derive(Clone, Copy, Debug, PartialEq, Eq)]
pub enum Region {
    Message,
    State,
    Stack,
}

/// What is known of a register: nothing; that it holds a number; that it holds the message's length; or that it holds
/// this place of a region, in bytes from the region's first byte.
#[derive(Clone, Copy, Debug, PartialEq, Eq)]
pub enum Kind {
    Unset,
    Num,
    Len,
    Place(Region, i16),
}

/// What is known of the eleven registers, r0 to r10, and the least number of bytes that the message has.
#[derive(Clone, Copy, Debug, PartialEq, Eq)]
pub struct Frame {
    pub kinds: [Kind; REGISTERS],
    pub low: u16,
}

impl Frame {
    ghost use Rattle.std.specs.Prelude.{◌≡◌, slice_set};
    ghost use Rattle.regtypes.specs.Frame.{kind_at, entry_frame};

    /// The frame of the entry: r1 is the message, r2 the state, r10 the end of the stack. In form 1 the message has 64
    /// bytes; in form 2 r3 is its length.
    pub fn entry(form: ImageForm) -> Frame
        ensures { result ≡ entry_frame form }
    {
        let mut kinds = [Kind::Unset; REGISTERS];
        kinds[1] = Kind::Place(Region::Message, 0);
        kinds[2] = Kind::Place(Region::State, 0);
        kinds[10] = Kind::Place(Region::Stack, STACK_BYTES as i16);
        match form {
            ImageForm::Sbi1 => Frame {
                kinds,
                low: FORM_1_BYTES as u16,
            },
            ImageForm::Sbi2 => {
                kinds[3] = Kind::Len;
                Frame { kinds, low: 0 }
            }
        }
    }

    /// What is known of one register.
    pub fn kind(&self, reg: Reg) -> Kind
        ensures { result ≡ kind_at self.now.kinds reg.number }
    {
        self.kinds[reg.number as usize]
    }

    /// The least number of bytes that the message has, 0 to 256.
    pub fn low(&self) -> u16
        ensures { result ≡ self.now.low }
    {
        self.low
    }

    /// The frame with this kind in one register.
    pub fn with(&self, reg: Reg, kind: Kind) -> Frame
        ensures { result ≡ record self.now { kinds = slice_set self.now.kinds reg.number kind } }
    {
        let mut kinds = self.kinds;
        kinds[reg.number as usize] = kind;
        Frame {
            kinds,
            low: self.low,
        }
    }
}

pub fn is_num(kind: Kind) -> bool
    ensures { result ≡ is_num kind }
{
    matches!(kind, Kind::Num | Kind::Len)
}

fn leq_kind(a: Kind, b: Kind) -> bool
    ensures { IsTrue result ↔ LeqKind a b }
{
    match b {
        Kind::Unset => true,
        Kind::Num => is_num(a),
        Kind::Len => a == Kind::Len,
        Kind::Place(_, _) => a == b,
    }
}

#[tactic(auto, using(crate::proofs::Order::join_same, crate::proofs::Order::join_numbers, crate::proofs::Order::join_nothing))]
fn join_kind(a: Kind, b: Kind) -> Kind
    ensures { IsJoin a b result }
{
    if a == b {
        a
    } else if is_num(a) && is_num(b) {
        Kind::Num
    } else {
        Kind::Unset
    }
}

/// Whether the first frame says everything that the second says.
pub fn leq(a: &Frame, b: &Frame) -> bool
    ensures { IsTrue result ↔ Leq a.now b.now }
{
    for i in 0..REGISTERS {
        if !leq_kind(a.kinds[i], b.kinds[i]) {
            return false;
        }
    }
    b.low <= a.low
}

/// What both frames say.
pub fn join(a: &Frame, b: &Frame) -> Frame
    ensures first { Leq a.now result }
    ensures second { Leq b.now result }
    ensures least { (f : Frame) → Leq a.now f → Leq b.now f → Leq result f }
{
    let mut kinds = a.kinds;
    for i in 0..REGISTERS {
        kinds[i] = join_kind(a.kinds[i], b.kinds[i]);
    }
    let low = if a.low <= b.low { a.low } else { b.low };
    Frame { kinds, low }
}
