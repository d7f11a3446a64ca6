//! The keys of an index: one for each id with its label, in the order of the labels and then of the ids. A key with `false` is
//! room that was made for one.

ghost use Rattle.std.specs.Prelude.{◌≡◌, ℕ, Bool, true, ◌||◌, ◌&&◌, not, IfSome};
ghost use Rattle.id_index.specs.Keys.{key, is_key, is_listed, ListsAlike, IsRelisted, IsFirstListed};

use std::collections::BTreeMap;
use wire_base::NoMemory;

/// The key of an id with a label.
fn key(label: u64, id: u32) -> u128
    ensures { result ≡ key label id }
{
    u128::from(label) * 4_294_967_296 + u128::from(id)
}

/// The least id that is listed with this label, if one is. Nothing is told where the first key with the label is room that no
/// id has taken yet.
pub(crate) fn first_listed(keys: &BTreeMap<u128, bool>, label: u64) -> Option<Option<u32>>
    ensures { IfSome result (λ o. IsFirstListed keys.now.entries label o) }
{
    let least = key(label, 0);
    let most = key(label, u32::MAX);
    let Some((found, listed)) = keys.range(least..=most).next() else {
        return Some(None);
    };
    if !*listed {
        return None;
    }
    Some(Some((*found - least) as u32))
}

/// Makes room for the key of an id with this label, where there is none yet.
pub(crate) fn make_key(
    keys: &mut BTreeMap<u128, bool>,
    id: u32,
    label: Option<u64>,
) -> Result<(), NoMemory>
    ensures { ListsAlike keys.old.entries keys.new.entries }
{
    let Some(label) = label else {
        return Ok(());
    };
    let key = key(label, id);
    if !keys.contains_key(&key) {
        keys.insert(key, false)?;
    }
    Ok(())
}

/// Lists the key of an id with this label, and says whether it could. It takes no memory where room was made for the key.
fn list(keys: &mut BTreeMap<u128, bool>, id: u32, label: Option<u64>) -> bool
    ensures { result ≡ true → (k : ℕ) → is_listed keys.new.entries k ≡ (is_key id label k || is_listed keys.old.entries k) }
{
    let Some(label) = label else {
        return true;
    };
    keys.insert(key(label, id), true).is_ok()
}

/// Takes out the key of an id with this label.
fn unlist(keys: &mut BTreeMap<u128, bool>, id: u32, label: Option<u64>)
    ensures { (k : ℕ) → is_listed keys.new.entries k ≡ (not (is_key id label k) && is_listed keys.old.entries k) }
{
    if let Some(label) = label {
        keys.remove(&key(label, id));
    }
}

/// Takes out the key of an id with the label that it had, lists the one with the label that it has, and says whether it could. It
/// takes no memory where room was made for that key.
pub(crate) fn relist(
    keys: &mut BTreeMap<u128, bool>,
    id: u32,
    before: Option<u64>,
    after: Option<u64>,
) -> bool
    ensures { result ≡ true → IsRelisted keys.old.entries keys.new.entries id before after }
{
    if before == after {
        return true;
    }
    unlist(keys, id, before);
    list(keys, id, after)
}
