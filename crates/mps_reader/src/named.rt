// A table of items in the order in which their names came, found by name.
ghost use Rattle.std.specs.Prelude.{◌≡◌, ◌<◌, ◌+◌, ◌∷◌, ◌++◌, [], map, position, IfSome, OnOk, OnErr, vec_len, false, is_some, bytes_eq};
ghost use Rattle.std.specs.List.{list_any};
ghost use Rattle.indexmap.specs.IndexSet.{index_set_len};

use indexmap::IndexSet;
use std::alloc::{AllocError, Global};

/// Items in the order in which their names came, found by name. The item with the number k has the name k.
#[derive(Drop)]
pub(crate) struct Named<'a, T> {
    names: IndexSet<&'a [u8]>,
    pub(crate) items: Vec<T>,
    ghost same_length: { vec_len items ≡ index_set_len names },
}

impl<'a, T: Drop> Named<'a, T> {
    pub(crate) fn new(alloc: Global) -> Self
        ensures items { result.items.items ≡ [] }
        ensures names { result.names.keys ≡ [] }
    {
        Named {
            names: IndexSet::new(alloc),
            items: Vec::new(alloc),
        }
    }

    /// The items, in order.
    pub(crate) fn into_items(self) -> Vec<T>
        ensures { result ≡ self.entry.items }
    {
        let Named { names: _, items } = self;
        items
    }

    /// The number of the item with this name.
    pub(crate) fn find(&self, name: &[u8]) -> Option<usize>
        ensures place { result ≡ position (bytes_eq name.now) (map (λ k. k.now) self.now.names.keys) }
        ensures found { is_some result ≡ list_any (bytes_eq name.now) (map (λ k. k.now) self.now.names.keys) }
        ensures within { IfSome result (λ k. k < vec_len self.now.items) }
    {
        self.names.get_index_of(name)
    }

    /// Adds an item with a name that no other has.
    pub(crate) fn push(&mut self, name: &'a [u8], item: T) -> Result<(), AllocError>
        requires { list_any (bytes_eq name.now) (map (λ k. k.now) self.old.names.keys) ≡ false }
        ensures names { OnOk result (map (λ k. k.now) self.new.names.keys ≡ map (λ k. k.now) self.old.names.keys ++ name.entry.now ∷ []) }
        ensures items { OnOk result (self.new.items.items ≡ self.old.items.items ++ item ∷ []) }
        ensures ok { OnOk result (vec_len self.new.items ≡ vec_len self.old.items + 1) }
        ensures err { OnErr result (vec_len self.new.items ≡ vec_len self.old.items) }
    {
        self.items.reserve(1)?;
        let _ = self.names.insert(name)?;
        self.items.push(item).unwrap();
        Ok(())
    }
}
