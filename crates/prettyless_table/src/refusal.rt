//! Refused memory (out of memory), as a value that only a refused request makes.
ghost use Rattle.std.specs.Prelude.{◌≡◌, ◌≤◌, ◌++◌, ◌∷◌, [], OnErr, if◌then◌else◌, is_ok, vec_capacity, vec_len};

/// Memory for a table, or for a list beside one, was refused. Only a refused request makes such a value.
#[derive(Drop)]
pub struct TableRefused {
    sealed: (),
}

// The error of a request that was refused, whichever that answered.
#[inline(always)]
pub(crate) fn refused<E: Drop>(_: E) -> TableRefused {
    TableRefused { sealed: () }
}

/// Appends an item to a list that is made for a table.
///
/// It fails where the list is full and memory for more items is refused. The list then keeps the items that it had.
#[inline(always)]
pub fn push<T: Drop>(list: &mut Vec<T>, item: T) -> Result<(), TableRefused>
    ensures items { list.new.items ≡ (if is_ok result then list.old.items ++ item ∷ [] else list.old.items) }
    ensures full { OnErr result (vec_capacity list.old ≤ vec_len list.old) }
{
    match list.push(item) {
        Ok(()) => Ok(()),
        Err(e) => Err(refused(e)),
    }
}
