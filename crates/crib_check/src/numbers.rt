//! Values that a set stores once each, with their indices.
ghost use Rattle.std.specs.Prelude.{IfSome, IfNone};
ghost use Rattle.std.specs.List.{position_or_len};
ghost use Rattle.crib_check.specs.Private.Numbers.{IsMore, IsNumber};

use indexmap::IndexSet;
use std::alloc::Allocator;
use std::hash::{BuildHasherDefault, FoldHasher, Hash};

// Values, each of which is stored once. The index of a value is how many came before it.
pub(crate) type Numbered<T, A> = IndexSet<T, BuildHasherDefault<FoldHasher>, A>;

// The index of a value, if it is stored.
pub(crate) fn number_of<T: Eq + Hash, A: Allocator>(kept: &Numbered<T, A>, value: &T) -> Option<u32>
    ensures number { IfSome result (IsNumber (T.eq value.now) kept.now.keys) }
    ensures none { IfNone result (IsNumber (T.eq value.now) kept.now.keys
        (position_or_len (T.eq value.now) kept.now.keys) → ⊥) }
{
    u32::try_from(kept.get_index_of(value)?).ok()
}

// Stores a value, and returns its index. There is none if an allocation fails, or if it would be 2^32 or more.
pub(crate) fn keep<T: Eq + Hash + Drop, A: Allocator>(
    kept: &mut Numbered<T, A>,
    value: T,
) -> Option<u32>
    ensures more { IsMore kept.old.keys kept.new.keys }
    ensures number { IfSome result (IsNumber (T.eq value) kept.new.keys) }
{
    let Ok((number, _)) = kept.insert_full(value) else {
        return None;
    };
    u32::try_from(number).ok()
}
