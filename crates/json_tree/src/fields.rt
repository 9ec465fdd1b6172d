//! Looking into a tree.
ghost use Rattle.std.specs.Prelude.{◌≡◌, map, option_map, string_bytes};
ghost use Rattle.std.specs.List.{list_any, list_all};
ghost use Rattle.std.specs.Str.{bytes_eq};
ghost use Rattle.std.specs.BTreeMap.{keys as keys_of};
ghost use Rattle.serde_json.specs.View.{view};
ghost use Rattle.json_tree.specs.Fields.{field as field_of, has_only_keys as has_only_keys_of};

use serde_json::{Map, Value};

/// What stands at the key of a part, which may be absent.
pub fn field<'v>(part: Option<&'v Value>, key: &str) -> Option<&'v Value>
    ensures { option_map (λ v. view v.now) result ≡ field_of
        (option_map (λ v. view v.now) part.entry) key.now }
{
    match part {
        Some(part) => part.get(key),
        None => None,
    }
}

/// Whether the value is an object whose keys are among these.
pub fn has_only_keys(value: &Value, keys: &[&str]) -> bool
    ensures { result ≡ has_only_keys_of (map (λ key. key.now) keys.now) (view value.now) }
{
    match value.as_object() {
        Some(members) => are_known(members, keys),
        None => false,
    }
}

fn are_known(members: &Map<String, Value>, keys: &[&str]) -> bool
    ensures { result ≡ list_all
        (λ key. list_any (λ known. bytes_eq (string_bytes key) known.now) keys.now)
        (keys_of members.now) }
{
    members.keys().all(|key| is_known(key.as_str(), keys))
}

fn is_known(key: &str, keys: &[&str]) -> bool
    ensures { result ≡ list_any (λ known. bytes_eq key.now known.now) keys.now }
{
    keys.iter().any(|known| key == *known)
}
