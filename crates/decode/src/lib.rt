//! The instructions of BPF (RFC 9669) and their bytes, both ways.
//!
//! [`Insn`] is an instruction as a Rust enum; each of its values has an encoding. [`decode`] reads a whole list of
//! instructions from bytes, [`encode`] writes them, and [`slots`] counts the eight-byte slots that they take.
//!
//! The promise: `decode` gives a list of instructions exactly if the bytes are the encoding of that list. No other list
//! has this encoding. All other bytes are refused, and the error names the first slot with a fault and the first rule
//! that it breaks. So decoding what `encode` wrote gives the same list again, and encoding what `decode` read gives the
//! same bytes.
//!
//! [`flow_from`] says where an instruction leads, and [`attributes_from`] what it reads, writes and reaches.
//!
//! ```text
//! let bytes = [0x07, 0x01, 0, 0, 5, 0, 0, 0, 0x95, 0, 0, 0, 0, 0, 0, 0];
//! let insns = decode(alloc, &bytes)?; // r1 += 5, exit
//! let same = encode(alloc, &insns)?; // the same sixteen bytes
//! let count = slots(&insns); // 2
//! let laid = lay_out(alloc, &insns)?; // by slot, the instruction that begins there
//! ```
#![tactic(auto)]

mod alu_form;
mod attributes;
mod decoder;
mod distance;
mod encoder;
mod fault;
mod flow;
mod form;
mod insn;
mod laws;
mod layout;
mod table;
mod word;

pub use attributes::{Access, Attributes, attributes_from, bytes_in, signed_bytes_in};
pub use decoder::decode;
pub use encoder::{encode, slots};
pub use fault::{DecodeError, EncodingRule};
pub use flow::{Flow, flow_from};
pub use insn::{
    AluOp, ByteOrder, Condition, Extension, Insn, Operand, Reg, SignedSize, Size, SwapBits, Width,
};
pub use laws::{one_fault, one_list};
pub use layout::lay_out;
