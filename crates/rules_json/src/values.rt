//! The values of a part, each with the faults that it may have.
ghost use Rattle.std.specs.Prelude.{◌≡◌, ℕ, map, option_map};
ghost use Rattle.serde_json.specs.View.{view};
ghost use Rattle.rules_json.specs.Values.{part_with, number as number_of, truth as truth_of, word as word_of};
ghost use Rattle.rules_json.specs.Values.{redeals as redeals_of, number_within as number_within_of};

use crate::words::Word;
use crate::{RulePart, RulesFault};
use game_rules::Redeals;
use json_tree::has_only_keys;
use serde_json::Value;

/// The part is absent, or an object with these keys alone.
pub fn check_part(value: Option<&Value>, part: RulePart, keys: &[&str]) -> Result<(), RulesFault>
    ensures { result ≡ part_with part (map (λ key. key.now) keys.now)
        (option_map (λ v. view v.now) value.entry) }
{
    let Some(value) = value else {
        return Ok(());
    };
    if !value.is_object() {
        return Err(RulesFault::WrongType(part));
    }
    if !has_only_keys(value, keys) {
        return Err(RulesFault::UnknownKey(part));
    }
    Ok(())
}

/// A whole number from `low` to `high`.
pub fn number(
    value: Option<&Value>,
    part: RulePart,
    low: u8,
    high: u8,
    default: u8,
) -> Result<u8, RulesFault>
    ensures { result ≡ number_of part low high default (option_map (λ v. view v.now) value.entry) }
{
    let Some(value) = value else {
        return Ok(default);
    };
    let Some(number) = value.as_u64() else {
        return Err(RulesFault::WrongType(part));
    };
    number_within(number, part, low, high)
}

fn number_within(number: u64, part: RulePart, low: u8, high: u8) -> Result<u8, RulesFault>
    ensures { result ≡ number_within_of part low high number }
{
    if low as u64 <= number && number <= high as u64 {
        Ok(number as u8)
    } else {
        Err(RulesFault::BadValue(part))
    }
}

/// A truth value.
pub fn truth(value: Option<&Value>, part: RulePart, default: bool) -> Result<bool, RulesFault>
    ensures { result ≡ truth_of part default (option_map (λ v. view v.now) value.entry) }
{
    let Some(value) = value else {
        return Ok(default);
    };
    match value.as_bool() {
        Some(truth) => Ok(truth),
        None => Err(RulesFault::WrongType(part)),
    }
}

/// One of the words of a type.
pub fn word<W: Word>(value: Option<&Value>, part: RulePart, default: W) -> Result<W, RulesFault>
    ensures { result ≡ word_of part W.names default (option_map (λ v. view v.now) value.entry) }
{
    let Some(value) = value else {
        return Ok(default);
    };
    let Some(text) = value.as_str() else {
        return Err(RulesFault::WrongType(part));
    };
    match W::named(text) {
        Some(value) => Ok(value),
        None => Err(RulesFault::BadValue(part)),
    }
}

/// A number of redeals from 0 to 99, or the word for no end of them.
pub fn redeals(value: Option<&Value>) -> Result<Redeals, RulesFault>
    ensures { result ≡ redeals_of (option_map (λ v. view v.now) value.entry) }
{
    let Some(value) = value else {
        return Ok(Redeals::Times(0));
    };
    if let Some(number) = value.as_u64() {
        let times = number_within(number, RulePart::Stock, 0, 99)?;
        return Ok(Redeals::Times(times));
    }
    match value.as_str() {
        Some("unlimited") => Ok(Redeals::Unlimited),
        Some(_) => Err(RulesFault::BadValue(RulePart::Stock)),
        None => Err(RulesFault::WrongType(RulePart::Stock)),
    }
}
