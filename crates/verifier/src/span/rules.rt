//! The rules that a kind breaks.

ghost use Rattle.std.specs.Prelude.{◌≡◌};
ghost use Rattle.verifier.specs.Span.Rules.{argument_rule, exit_rule, lesser, number_rule, unless, value_rule};

use regtypes::Rule;
use spans::SpanKind;

/// The lesser of two rules, if both are broken.
pub fn lesser(first: Option<Rule>, second: Option<Rule>) -> Option<Rule>
    ensures { result ≡ lesser first second }
{
    match first {
        None => second,
        Some(rule) => match second {
            None => Some(rule),
            Some(other) => {
                if rule.number() <= other.number() {
                    Some(rule)
                } else {
                    Some(other)
                }
            }
        },
    }
}

/// The rule, if a test fails.
pub fn unless(holds: bool, rule: Rule) -> Option<Rule>
    ensures { result ≡ unless holds rule }
{
    if holds { None } else { Some(rule) }
}

/// What is read as a number has to be one.
pub fn number_rule(kind: SpanKind) -> Option<Rule>
    ensures { result ≡ number_rule kind }
{
    match kind {
        SpanKind::Unset => Some(Rule::V3),
        SpanKind::Num(_) => None,
        SpanKind::Place(_, _) => Some(Rule::V5),
    }
}

/// What is copied has to be set.
pub fn value_rule(kind: SpanKind) -> Option<Rule>
    ensures { result ≡ value_rule kind }
{
    match kind {
        SpanKind::Unset => Some(Rule::V3),
        SpanKind::Num(_) | SpanKind::Place(_, _) => None,
    }
}

/// A helper's argument has to be what the helper takes.
pub fn argument_rule(rule: Option<Rule>) -> Option<Rule>
    ensures { result ≡ argument_rule rule }
{
    match rule {
        None => None,
        Some(_) => Some(Rule::V9),
    }
}

/// r0 has to be a number at the end.
pub fn exit_rule(kind: SpanKind) -> Option<Rule>
    ensures { result ≡ exit_rule kind }
{
    match kind {
        SpanKind::Num(_) => None,
        SpanKind::Unset | SpanKind::Place(_, _) => Some(Rule::V10),
    }
}
