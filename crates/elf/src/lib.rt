//! Object files of BPF code, as a compiler makes them: 64-bit ELF with the lowest byte first.
//!
//! [`read_object`] finds a function of an object file: the one of a name, or the only one, or the only one that isn't static. Its
//! promise: the code that it hands out is the bytes of the file at the function's place, at most 1,024 slots; nothing in it refers
//! to a symbol or calls a function of the file; and [`ObjectFault`] says of a file that is refused what is wrong with it
//! (`specs/Object.antt`, `specs/Function.antt`). It also says how long the state is, by the types of the file (BTF), of which nothing
//! is proved.
//!
//! ```text
//! let found = read_object(alloc, bytes, None)?; // the only function of the file
//! // found.code: the bytes of its slots; found.state: how long its state is, if the types say so
//! ```
#![tactic(auto)]

mod fault;
mod finder;
mod number;
mod object;
mod section;
mod symbol;
mod types;
mod words;

pub use fault::{ObjectError, ObjectFault};
pub use object::{FunctionCode, is_object, read_object};
pub use section::Section;
pub use symbol::Symbol;
pub use words::object_words;
