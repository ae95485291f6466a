//! Lists that are copied, or longer or shorter by one element.

ghost use Rattle.std.specs.Prelude.{◌≡◌, ◌∷◌, [], ◌++◌, IfOk, OnOk, IfSome, IsNone};

use kernel_data::NoMemory;
use std::alloc::Global;

/// The same elements once more.
pub fn copy<T: Copy + Drop>(alloc: Global, items: &[T]) -> Result<Vec<T>, NoMemory>
    ensures { IfOk result (λ copied. copied.items ≡ items.now) }
{
    match Vec::from_slice(alloc, items) {
        Ok(copied) => Ok(copied),
        Err(_) => Err(NoMemory),
    }
}

/// An element behind the others.
pub fn put_last<T: Drop>(items: &mut Vec<T>, item: T) -> Result<(), NoMemory>
    ensures { OnOk result (items.new.items ≡ items.old.items ++ item ∷ []) }
{
    match items.push(item) {
        Ok(()) => Ok(()),
        Err(_) => Err(NoMemory),
    }
}

/// An element before the others.
pub fn put_first<T: Drop>(items: &mut Vec<T>, item: T) -> Result<(), NoMemory>
    ensures { OnOk result (items.new.items ≡ item ∷ items.old.items) }
{
    match items.insert(0, item) {
        Ok(()) => Ok(()),
        Err(_) => Err(NoMemory),
    }
}

/// The first element, which is taken out, if there is one.
pub fn take_first<T>(items: &mut Vec<T>) -> Option<T>
    ensures some { IfSome result (λ x. items.old.items ≡ x ∷ items.new.items) }
    ensures none { IsNone result → items.old.items ≡ [] }
    ensures same { IsNone result → items.new.items ≡ items.old.items }
{
    if items.is_empty() {
        None
    } else {
        Some(items.remove(0))
    }
}
