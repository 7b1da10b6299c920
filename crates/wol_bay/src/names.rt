// Entries of a list that are found by name.
ghost use Rattle.std.specs.Prelude.{◌≡◌, ◌<◌, ◌≤◌, ℕ, List, None, Some, map, length, remove, slice_index_or, ◌+◌, IfSome, IfNone, vec_len, vec_capacity};
ghost use Rattle.wol_bay.specs.Bay.{at_name, without};
ghost use Rattle.wol_bay.specs.Names.{by_name};

/// What has a name.
pub trait Entry {
    /// The bytes of its name.
    ghost name_of: { Self → List ℕ };

    fn name(&self) -> &str
        ensures { result.now ≡ name_of self.now };
}

// The place of the first entry of a name.
pub fn place_of<T: Entry>(entries: &[T], name: &str) -> Option<usize>
    ensures within { IfSome result (λ i. i < length entries.now) }
    ensures found { IfSome result (λ i.
        by_name T.name_of (remove entries.now i)
        ≡ without name.now (by_name T.name_of entries.now)) }
    ensures value { IfSome result (λ i. (e : T) → e ≡ slice_index_or entries.now i e
        → at_name name.now (by_name T.name_of entries.now) ≡ Some e) }
    ensures none { IfNone result (at_name name.now (by_name T.name_of entries.now) ≡ None) }
{
    for (i, entry) in entries.iter().enumerate() {
        if entry.name() == name {
            return Some(i);
        }
    }
    None
}

// Takes the first entry of a name out of the list.
pub fn take_by_name<T: Entry>(entries: &mut Vec<T>, name: &str) -> Option<T>
    ensures entries { by_name T.name_of entries.new.items
        ≡ without name.now (by_name T.name_of entries.old.items) }
    ensures result { result ≡ at_name name.now (by_name T.name_of entries.old.items) }
    ensures room { vec_capacity entries.new ≡ vec_capacity entries.old }
    ensures fewer { IfSome result (λ e. vec_len entries.new + 1 ≡ vec_len entries.old) }
    ensures same { IfNone result (vec_len entries.new ≡ vec_len entries.old) }
{
    match place_of(entries, name) {
        Some(at) => Some(entries.remove(at)),
        None => None,
    }
}
