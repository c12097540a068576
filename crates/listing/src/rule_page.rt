//! The page of a rule by its name.

ghost use Rattle.std.specs.Prelude.{◌≡◌};
ghost use Rattle.listing.specs.RulePage.{page_text};

use crate::rule_text::{INDEX, V1, V2, V3, V4, V5, V6, V7, V8, V9, V10};

/// The page of the rule with this name, `V1` to `V10`; for any other name the list of the rules.
pub fn page_of(rule: &str) -> &'static str
    ensures { result.now ≡ page_text rule.now }
{
    match rule {
        "V1" => V1,
        "V2" => V2,
        "V3" => V3,
        "V4" => V4,
        "V5" => V5,
        "V6" => V6,
        "V7" => V7,
        "V8" => V8,
        "V9" => V9,
        "V10" => V10,
        _ => INDEX,
    }
}
