//! The fields of a call or an answer.

ghost use Rattle.std.specs.Prelude.{◌≡◌, ◌++◌, OnOk, map, string_bytes};
ghost use Rattle.scenario.specs.Order.{party_text};
ghost use Rattle.scenario.specs.Process.{names_of};
ghost use Rattle.scenario.specs.Styles.Fields.{labelled_text, field_of, field_text, fields_text, party_in, value_text};
ghost use Rattle.scenario.specs.Styles.Style.{style_of};
ghost use Rattle.scenario.specs.declared.styles.field.Value.TheVariants.{Number, Party};

use crate::styles::style::Style;
use crate::{NamedProcess, name_at};
use indexmap::IndexMap;
use std::alloc::AllocError;

/// The value of a field.
#[derive(Clone, Copy, Debug)]
pub enum Value {
    /// A process, or the outside as 0.
    Party(u8),
    Number(usize),
}

/// A field of a call or an answer: its label and its value.
#[derive(Clone, Copy, Debug)]
pub struct Field {
    pub label: &'static str,
    pub value: Value,
}

/// The field of a process.
pub(crate) fn party(label: &'static str, party: u8) -> Field
    ensures { field_of result ≡ (label.entry.now, Party party) }
{
    let value = Value::Party(party);
    Field { label, value }
}

/// The field of a number.
pub(crate) fn number(label: &'static str, number: usize) -> Field
    ensures { field_of result ≡ (label.entry.now, Number number) }
{
    let value = Value::Number(number);
    Field { label, value }
}

/// The field of a number of 32 bits.
pub(crate) fn amount(label: &'static str, amount: u32) -> Field
    ensures { field_of result ≡ (label.entry.now, Number amount) }
{
    number(label, amount as usize)
}

/// The name of a process, or of the outside.
fn party_name(processes: &IndexMap<String, NamedProcess>, party: u8) -> &str
    ensures { result.now ≡ party_text (names_of processes.now) party }
{
    if party == 0 {
        "outside"
    } else {
        name_at(processes, party)
    }
}

impl Style<'_> {
    /// Writes a process by its number, or by its name, which JSON has in quotes.
    fn push_party(self, out: &mut String, party: u8) -> Result<(), AllocError>
        ensures { OnOk result (string_bytes out.new ≡ string_bytes out.old ++ party_in self.entry.json (style_of self.entry).names party) }
    {
        let Some(processes) = self.names else {
            return write!(out, "{party}");
        };
        let name = party_name(processes, party);
        if self.json {
            write!(out, "\"{name}\"")
        } else {
            out.push_str(name)
        }
    }

    /// Writes a space and the field's value. In JSON the label comes before the value.
    fn push_field(self, out: &mut String, field: Field) -> Result<(), AllocError>
        ensures { OnOk result (string_bytes out.new ≡ string_bytes out.old ++ field_text (style_of self.entry) (field_of field)) }
    {
        let label = field.label;
        if self.json {
            write!(out, ",\"{label}\":")?;
        } else {
            out.push_str(" ")?;
        }
        match field.value {
            Value::Party(party) => self.push_party(out, party),
            Value::Number(number) => write!(out, "{number}"),
        }
    }

    /// Writes these fields, one after the other.
    fn push_fields(self, out: &mut String, fields: &[Field]) -> Result<(), AllocError>
        ensures { OnOk result (string_bytes out.new ≡ string_bytes out.old ++ fields_text (style_of self.entry) (map field_of fields.now)) }
    {
        for field in fields {
            self.push_field(out, *field)?;
        }
        Ok(())
    }

    /// Writes a call or an answer: its word, and its fields.
    #[tactic(auto, unfolding(crate::specs::Styles::Fields::labelled_text))]
    pub(crate) fn say(
        self,
        out: &mut String,
        word: &str,
        fields: &[Field],
    ) -> Result<(), AllocError>
        ensures { OnOk result (string_bytes out.new ≡ string_bytes out.old ++ labelled_text (style_of self.entry) word.now (map field_of fields.now)) }
    {
        if self.json {
            write!(out, "{{\"name\":\"{word}\"")?;
            self.push_fields(out, fields)?;
            out.push_str("}")
        } else {
            out.push_str(word)?;
            self.push_fields(out, fields)
        }
    }
}
