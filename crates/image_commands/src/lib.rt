//! The commands that need no session, and what all commands share: files, streams, faults and hints.
//!
//! [`check_image`], [`write_image`], [`disassemble_image`], [`explain_image`], [`write_packed`], [`write_machine_code`] and
//! [`write_converted`] are the commands on images, [`load_scenario`] reads the scenario of a run and loads its images. Their
//! promise: what a command answers or writes is that of the file in `specs/` with its name, by the bytes of the files that it
//! reads; its fault is the one that these bytes come to, unless a file has failed. A command that writes a file changes no
//! other one, and none if it fails. [`print_or_tell`] prints the text of a command, or tells its fault in the line of
//! `specs/Fault.antt`. Files are known by the trait [`Files`], streams by [`Stream`], so that a test can hold them in memory
//! and let them fail. The program has [`SystemFiles`], [`Reports`] and [`Faults`], of which nothing but the kind of a fault is
//! proved.
//!
//! ```text
//! let accepted = check_image(alloc, "adder.sbi", &mut files, &mut site)?; // prints as "accepted 6 instructions"
//! ```
#![tactic(auto)]

mod asm;
mod check;
mod conversion;
mod dis;
mod end;
mod explanation;
mod fault;
mod files;
mod hint_word;
mod judged;
mod kind;
mod loader;
mod look;
mod machine_code;
mod own_input;
mod pack;
mod packing;
mod place;
mod said;
mod site;
mod standard_streams;
mod stream;
mod system;

pub use asm::write_image;
pub use check::{Accepted, check_image};
pub use cli::{Packing, Usage};
pub use conversion::write_converted;
pub use dis::disassemble_image;
pub use end::print_or_tell;
pub use explanation::explain_image;
pub use fault::Fault;
pub use files::{Failure, Files, Reason};
pub use hint_word::hints_in;
pub use kind::FileKind;
pub use loader::{Loaded, load_scenario};
pub use machine_code::write_machine_code;
pub use own_input::{spare, spare_images};
pub use pack::write_packed;
pub use site::Site;
pub use standard_streams::{Faults, Reports};
pub use stream::{Stream, Written};
pub use system::SystemFiles;
