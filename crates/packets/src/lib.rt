//! What nodes tell each other and what they keep: eight packets, kept state and logs, and their bytes.
//!
//! A [`NodePacket`] is from one node of a cluster to another one: process 1 to `count`, or 0, the
//! gateway. Its [`Body`] is one of eight. [`encode`] writes it as `SBP1`: magic, kind, ends, the
//! fields, and a CRC-32C of all that. [`decode`] reads it.
//!
//! The promise: `decode` reads bytes exactly if they are those of a packet whose fields are in
//! their ranges, and of one only. Any other bytes are refused by the first of eight faults that
//! they have. So what `encode` wrote is read back, and what was read is written as the same bytes.
//!
//! ```
//! let body = Body::Saved { covered: 3 };
//! let packet = NodePacket { count: 2, from: 1, to: 2, body };
//! let bytes = encode(alloc, &packet)?;
//! let again = decode(alloc, &bytes)?;
//! ```
//!
//! What a process keeps durably is a [`Kept`]: its state, how many messages it received of each peer,
//! and those that it sent and still keeps. [`encode_kept`] writes it as `SBN1`, [`decode_kept`] reads
//! it, and the same holds of these bytes. Crate `stores` uses the fields and the checksum for its own.
//!
//! A [`PacketQueue`] holds packets until they are sent, in the order in which they came. A packet that
//! finds no room is lost, as any packet may be.
//!
//! A node that comes back is told in pages what a log holds for it. A page has entries in the order of
//! their numbers, and of one number in the order of their SSN: [`insert`] puts an entry in its place,
//! and [`page_of`] takes as many of the first ones as fit a packet. `specs/Says` says what a packet says
//! in the words of crate `cluster`: a page says each answer that agrees with it as far as it goes.
#![tactic(auto)]

mod checksum;
mod fault;
mod field;
mod fields;
mod head;
mod kept;
mod kept_fault;
mod kept_reader;
mod kept_writer;
mod kind;
mod laws;
mod log_pages;
mod outbox;
mod packet;
mod page;
mod reader;
mod table;
mod writer;

pub use checksum::crc32c;
pub use fault::{PacketError, PacketFault};
pub use field::{Readable, Spelled, all_of, many_of, put_many};
pub use fields::{byte_of, payload_of, u32_of, u64_of};
pub use head::{CHECKSUM_LEN, HEAD_LEN, fields_under};
pub use kept::{Kept, KeptLog};
pub use kept_fault::{KeptError, KeptFault};
pub use kept_reader::decode_kept;
pub use kept_writer::encode_kept;
pub use kind::PacketKind;
pub use laws::{
    back_and_there, kept_again, one_kept, one_packet, same_bytes_again, there_and_back,
};
pub use log_pages::{ENTRY_BYTES, LEAST_PAGE, TOLD_BYTES, insert, page_of};
pub use outbox::{OUTBOX, PacketQueue};
pub use packet::{Body, NUMBER_LIMIT, NodePacket};
pub use page::{Flags, LoggedMessage, Page, Pair};
pub use reader::decode;
pub use writer::{encode, put_checksum, put_payload, put_u32, put_u64};
