// The values at the keys of a table.
ghost use Rattle.std.specs.List.{list_all};
ghost use Rattle.std.specs.Prelude.{◌≡◌, ◌≤◌, ℕ, Bool, false, true, None, Some, IfOk, IfErr, option_map, length};
ghost use Rattle.toml.specs.Data.{get_member, string, array};
ghost use Rattle.toml.specs.View.{table_view, view, items_view};
ghost use Rattle.wol_config.specs.Documents.{number_of, number_or, number_at};
ghost use Rattle.wol_config.specs.Keys.{key_text, key_fault, value_fault, number_from_to, text_of, tables_from_to, texts_up_to, judged, may_miss, is_table, is_text, is_between};

use crate::{ConfigFault, Key};
use toml::{Table, Value};

// The value at a key.
fn find<'a>(table: &'a Table, key: Key) -> Option<&'a Value>
    ensures { option_map (λ v. view v.now) result
        ≡ get_member (key_text key) (table_view table.now) }
{
    table.get(key.text())
}

// The value at a key that has to be there.
fn value<'a>(table: &'a Table, key: Key) -> Result<&'a Value, ConfigFault>
    requires { may_miss key ≡ false }
    ensures ok { IfOk result
        (λ v. get_member (key_text key) (table_view table.now) ≡ Some (view v.now)) }
    ensures err { IfErr result (λ e.
        (get_member (key_text key) (table_view table.now) ≡ None)
        × (e ≡ ConfigFault.Missing key)) }
{
    match find(table, key) {
        Some(value) => Ok(value),
        None => Err(ConfigFault::Missing { key }),
    }
}

// A value as an integer from `least` to `most`.
fn as_number(value: &Value, key: Key, least: u64, most: u64) -> Result<u64, ConfigFault>
    ensures ok { IfOk result (λ n. (value_fault (number_from_to least most) key (view value.now)
        ≡ None) × (number_of (view value.now) ≡ n)) }
    ensures range { IfOk result (λ n. (least ≤ n) × (n ≤ most)) }
    ensures err { IfErr result
        (λ e. value_fault (number_from_to least most) key (view value.now) ≡ Some e) }
{
    let Some(number) = value.as_integer() else {
        return Err(ConfigFault::WrongKind { key });
    };
    match u64::try_from(number) {
        Ok(number) if least <= number && number <= most => Ok(number),
        _ => Err(ConfigFault::OutOfRange { key }),
    }
}

// The integer at a key, from `least` to `most`.
pub(crate) fn number(table: &Table, key: Key, least: u64, most: u64) -> Result<u64, ConfigFault>
    requires { may_miss key ≡ false }
    ensures ok { IfOk result (λ n. (judged (number_from_to least most) key
        (get_member (key_text key) (table_view table.now)) ≡ None)
        × (number_at key (table_view table.now) ≡ n)) }
    ensures range { IfOk result (λ n. (least ≤ n) × (n ≤ most)) }
    ensures err { IfErr result (λ e. judged (number_from_to least most) key
        (get_member (key_text key) (table_view table.now)) ≡ Some e) }
{
    as_number(value(table, key)?, key, least, most)
}

// The integer at a key that may be missing, from `least` to `most`; `default` where it is missing.
pub(crate) fn number_or(
    table: &Table,
    key: Key,
    least: u64,
    most: u64,
    default: u64,
) -> Result<u64, ConfigFault>
    requires missing { may_miss key ≡ true }
    requires default { (least ≤ default) × (default ≤ most) }
    ensures ok { IfOk result (λ n. n ≡ number_or default key (table_view table.now)) }
    ensures range { IfOk result (λ n. (least ≤ n) × (n ≤ most)) }
    ensures faultless { IfOk result (λ n. judged (number_from_to least most) key
        (get_member (key_text key) (table_view table.now)) ≡ None) }
    ensures err { IfErr result (λ e. judged (number_from_to least most) key
        (get_member (key_text key) (table_view table.now)) ≡ Some e) }
{
    match find(table, key) {
        Some(value) => as_number(value, key, least, most),
        None => Ok(default),
    }
}

// The text at a key.
pub(crate) fn text<'a>(table: &'a Table, key: Key) -> Result<&'a str, ConfigFault>
    requires { may_miss key ≡ false }
    ensures ok { IfOk result
        (λ s. get_member (key_text key) (table_view table.now) ≡ Some (string s.now)) }
    ensures err { (most : ℕ) (good : ℕ → Bool)
        → IfErr result (λ e. judged (text_of most good) key
        (get_member (key_text key) (table_view table.now)) ≡ Some e) }
{
    match value(table, key)?.as_str() {
        Some(text) => Ok(text),
        None => Err(ConfigFault::WrongKind { key }),
    }
}

// The array at a key.
fn list<'a>(table: &'a Table, key: Key) -> Result<&'a [Value], ConfigFault>
    requires { may_miss key ≡ false }
    ensures ok { IfOk result
        (λ a. get_member (key_text key) (table_view table.now) ≡ Some (array (items_view a.now))) }
    ensures err_tables { (least most : ℕ)
        → IfErr result (λ e. judged (tables_from_to least most) key
        (get_member (key_text key) (table_view table.now)) ≡ Some e) }
    ensures err_texts { (most : ℕ)
        → IfErr result (λ e.
        judged (texts_up_to most) key (get_member (key_text key) (table_view table.now))
        ≡ Some e) }
{
    match value(table, key)?.as_array() {
        Some(list) => Ok(list.as_slice()),
        None => Err(ConfigFault::WrongKind { key }),
    }
}

// The tables of the volumes.
pub(crate) fn tables(document: &Table) -> Result<&[Value], ConfigFault>
    ensures ok { IfOk result (λ a. get_member (key_text Key.Volume) (table_view document.now)
        ≡ Some (array (items_view a.now))) }
    ensures members { IfOk result
        (λ a. (list_all (λ v. is_table (view v)) a.now ≡ true) × (length a.now ≤ 64)) }
    ensures faultless { IfOk result (λ a. key_fault Key.Volume (table_view document.now) ≡ None) }
    ensures err { IfErr result (λ e. key_fault Key.Volume (table_view document.now) ≡ Some e) }
{
    let key = Key::Volume;
    let tables = list(document, key)?;
    if !all_tables(tables) {
        return Err(ConfigFault::WrongKind { key });
    }
    if !is_between(tables.len(), 1, 64) {
        return Err(ConfigFault::OutOfRange { key });
    }
    Ok(tables)
}

// The texts of a volume's view.
pub(crate) fn texts(table: &Table) -> Result<&[Value], ConfigFault>
    ensures ok { IfOk result (λ a.
        get_member (key_text Key.View) (table_view table.now) ≡ Some (array (items_view a.now))) }
    ensures members { IfOk result
        (λ a. (list_all (λ v. is_text (view v)) a.now ≡ true) × (length a.now ≤ 16)) }
    ensures faultless { IfOk result (λ a. key_fault Key.View (table_view table.now) ≡ None) }
    ensures err { IfErr result (λ e. key_fault Key.View (table_view table.now) ≡ Some e) }
{
    let key = Key::View;
    let texts = list(table, key)?;
    if !all_texts(texts) {
        return Err(ConfigFault::WrongKind { key });
    }
    if !is_between(texts.len(), 0, 16) {
        return Err(ConfigFault::OutOfRange { key });
    }
    Ok(texts)
}

fn all_tables(list: &[Value]) -> bool
    ensures { result ≡ list_all (λ v. is_table (view v)) list.now }
{
    list.iter().all(|value| value.is_table())
}

fn all_texts(list: &[Value]) -> bool
    ensures { result ≡ list_all (λ v. is_text (view v)) list.now }
{
    list.iter().all(|value| value.is_str())
}

fn is_between(count: usize, least: usize, most: usize) -> bool
    ensures { result ≡ is_between least most count }
{
    least <= count && count <= most
}
