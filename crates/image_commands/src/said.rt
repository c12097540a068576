//! Hints below the line of a fault, on the file that has it. They are for people, and no contract names them.

use crate::fault::Fault;
use crate::files::Reason;
use crate::kind::FileKind;
use crate::site::Site;
use listing::explain_file;
use std::alloc::{AllocError, Global};
use verifier::HeaderFault;

/// The opcode of a call.
const CALL: u8 = 0x85;

/// What a file is that is no image.
fn magic_words(kind: FileKind) -> &'static str {
    match kind {
        FileKind::Object => "an object file, not an image (./sblog pack writes one of its code)",
        FileKind::Sbi1 | FileKind::Sbi2 | FileKind::Sbi3 | FileKind::Other => {
            "not an image file (assembler text? sblog asm writes images)"
        }
    }
}

/// What is wrong with an image's header, or with the length of its file.
fn header_words(kind: FileKind, fault: HeaderFault) -> &'static str {
    match fault {
        HeaderFault::TooShort => "fewer than the 8 bytes of a header",
        HeaderFault::Magic => magic_words(kind),
        HeaderFault::StateLength => "a state of more than 1,024 bytes",
        HeaderFault::SlotCount => {
            "an image has 1 to 1,024 slots, and its text at most 1,048,576 bytes"
        }
        HeaderFault::FileLength => "not as long as its header says: 8 bytes, and 8 for each slot",
    }
}

/// What is wrong with the bytes of a slot.
fn code_words(rule: decode::EncodingRule) -> &'static str {
    match rule {
        decode::EncodingRule::Length => "the code isn't whole slots, of 8 bytes each",
        decode::EncodingRule::Opcode => "no instruction has this opcode",
        decode::EncodingRule::Field => "a field that the instruction doesn't use isn't zero",
        decode::EncodingRule::Register => "there is no register above r10",
        decode::EncodingRule::Cut => "a wide instruction lacks its second slot",
        decode::EncodingRule::Width => "bytes are swapped in 16, 32 or 64 bits",
        decode::EncodingRule::Profile =>
            "a call of what is no helper, or a wide value that is no number",
    }
}

/// Whether code that was written for another form may break the rule: forms differ in the registers that they set, the places
/// that they keep and the helpers that they have.
fn is_of_form(rule: regtypes::Rule) -> bool {
    match rule {
        regtypes::Rule::V3 | regtypes::Rule::V5 | regtypes::Rule::V6 => true,
        regtypes::Rule::V8 | regtypes::Rule::V9 => true,
        regtypes::Rule::V1 | regtypes::Rule::V2 | regtypes::Rule::V4 => false,
        regtypes::Rule::V7 | regtypes::Rule::V10 => false,
    }
}

/// Which command shows why a slot breaks a rule of the verifier, and the image's form, if that may be the cause.
fn rule_words(kind: FileKind, rule: regtypes::Rule) -> &'static str {
    if !is_of_form(rule) {
        return "sblog explain shows why";
    }
    match kind {
        FileKind::Sbi1 => {
            "sblog explain shows why (the image is of form 1; ordinary C wants --form 3)"
        }
        FileKind::Sbi2 => {
            "sblog explain shows why (the image is of form 2; ordinary C wants --form 3)"
        }
        FileKind::Sbi3 | FileKind::Object | FileKind::Other => "sblog explain shows why",
    }
}

/// What is wrong with a line of an assembler text.
fn line_words(rule: assemble::TextRule) -> &'static str {
    match rule {
        assemble::TextRule::Word => "no instruction has the line's first word",
        assemble::TextRule::Shape => "the operands aren't those of the line's first word",
        assemble::TextRule::Range => "a number is out of its range",
        assemble::TextRule::Limit => "with this line there are more than 1,024 slots",
    }
}

/// What a file is that is no text.
fn text_words(kind: FileKind) -> &'static str {
    match kind {
        FileKind::Sbi1 | FileKind::Sbi2 | FileKind::Sbi3 => {
            "an image, not a text (sblog check verifies it, sblog dis prints its text)"
        }
        FileKind::Object => "an object file, not a text (./sblog pack writes an image of its code)",
        FileKind::Other => "not UTF-8, so no text",
    }
}

/// Why a file was not read or written; without a reason it was read and is no text.
fn reason_words(kind: FileKind, reason: Option<Reason>) -> &'static str {
    match reason {
        None => text_words(kind),
        Some(Reason::Missing) => "no such file or folder",
        Some(Reason::Denied) => "that isn't allowed",
        Some(Reason::Folder) => "that is a folder",
        Some(Reason::Full) => "no space is left there",
        Some(Reason::Other) => "reading or writing failed",
    }
}

/// Why the verifier refuses an image, as the line of its listing; empty if there is no such line.
fn refused_line(alloc: Global, image: &[u8]) -> Result<String, AllocError> {
    if let Ok(text) = explain_file(alloc, image) {
        for line in text.split('\n') {
            let line = line.trim();
            if line.starts_with("refused by ") {
                return format!(in alloc; "{line}\n");
            }
        }
    }
    Ok(String::new(alloc))
}

/// A line that says what a call forgets, if the reason is that a register of its arguments isn't set, in code with a call; else empty.
fn call_words(why: &str, image: &[u8]) -> &'static str {
    let Some(register) = why.strip_prefix("refused by V3: r") else {
        return "";
    };
    let is_argument = register.starts_with(|digit: char| matches!(digit, '1'..='5'))
        && register.contains(" is read and isn't set");
    for (place, byte) in image.iter().enumerate() {
        if is_argument && place >= 8 && place % 8 == 0 && *byte == CALL {
            return "a call forgets r1 to r5: what is needed after it stands in r6 to r9\n";
        }
    }
    ""
}

/// An image that the verifier refuses and the reason, as lines of text.
fn refused_lines(alloc: Global, rule: regtypes::Rule, site: &Site) -> Result<String, AllocError> {
    let words = rule_words(site.kind, rule);
    let why = refused_line(alloc, site.image.as_slice())?;
    let called = call_words(why.as_str(), site.image.as_slice());
    format!(in alloc; "{site}: {words}\n{why}{called}")
}

/// The file and what is wrong with it, as lines of text; or empty.
fn lines_of(alloc: Global, fault: &Fault, site: &Site) -> Result<String, AllocError> {
    let below = site.words.as_str();
    let (words, below) = match fault {
        Fault::Memory => return Ok(String::new(alloc)),
        Fault::Usage(_) | Fault::Scenario { .. } => return String::from_str(alloc, below),
        Fault::Object(_) | Fault::NoState => {
            return if below.is_empty() {
                Ok(String::new(alloc))
            } else {
                format!(in alloc; "{site}: {below}")
            };
        }
        Fault::Decode { rule, .. } if site.kind == FileKind::Object => (code_words(*rule), below),
        Fault::Header(header) => (header_words(site.kind, *header), below),
        Fault::Decode { rule, .. } => (code_words(*rule), ""),
        Fault::Verify { rule, .. } => return refused_lines(alloc, *rule, site),
        Fault::Assemble { rule, .. } => (line_words(*rule), below),
        Fault::InputOutput => (reason_words(site.kind, site.reason), below),
    };
    format!(in alloc; "{site}: {words}\n{below}")
}

/// The hints on a fault at a file, as lines of text; empty if memory runs out.
pub fn said_of(alloc: Global, fault: &Fault, site: &Site) -> String {
    match lines_of(alloc, fault, site) {
        Ok(lines) => lines,
        Err(_) => String::new(alloc),
    }
}
