// Items that are recorded in quiet expressions too.
ghost use Rattle.std.specs.Prelude.{◌≡◌, ℕ, false, slice_get, Some, true};
ghost use Rattle.ub_base.specs.declared.names.Item.{Item};
ghost use Rattle.quiet_trees.specs.Items.{is_noted};

use ub_base::Item;

/// Whether one of the items is noted.
pub fn some_noted(items: &[Item]) -> bool
    ensures none { result ≡ false → (p : ℕ) (x : Item) → slice_get items.now p ≡ Some x → is_noted x ≡ false }
    ensures one { result ≡ true → (p : ℕ) × (x : Item) × (slice_get items.now p ≡ Some x) × (is_noted x ≡ true) }
{
    for p in 0..items.len() {
        if is_noted_at(items, p) {
            return true;
        }
    }
    false
}

fn is_noted_at(items: &[Item], p: usize) -> bool
    ensures none { result ≡ false → (x : Item) → slice_get items.now p ≡ Some x → is_noted x ≡ false }
    ensures one { result ≡ true → (x : Item) × (slice_get items.now p ≡ Some x) × (is_noted x ≡ true) }
{
    match items.get(p) {
        Some(item) => is_noted(item),
        None => false,
    }
}

fn is_noted(item: &Item) -> bool
    ensures { result ≡ is_noted item.now }
{
    match item {
        Item::Expose(_) | Item::Lookup(_) | Item::Narrow { .. } => true,
        _ => false,
    }
}
