// What is true of the order of entries and of the least of them, whatever they are.
ghost use Rattle.std.specs.Prelude.{◌≡◌, false, [], List, All, Contains, IsNone, IfSome, ◌↔◌};
ghost use Rattle.std.specs.Cmp.{IsTotalOrder};
ghost use Rattle.std.specs.declared.cmp.Ordering.TheVariants.{Equal};
ghost use Rattle.ss_events_entries.specs.declared.entry.Entry.{Entry};
ghost use Rattle.ss_world.specs.Order.{entry_order, comes_before};
ghost use Rattle.ss_world.specs.PendingList.{least};

/// The order of entries is total: of two entries, one comes before the other, unless they are of one scheduling.
pub fn order_is_total()
    ensures total { IsTotalOrder entry_order }
    ensures parts { (a b : Entry) → entry_order a b ≡ Equal → a.number ≡ b.number }
{}

/// The least of some entries is one of them, and none comes out before it.
pub fn least_comes_first()
    ensures none { (entries : List Entry) → IsNone (least entries) ↔ (entries ≡ []) }
    ensures one { (entries : List Entry) → IfSome (least entries) (Contains entries) }
    ensures first { (entries : List Entry) → IfSome (least entries) (λ e. All (λ f. comes_before f e ≡ false) entries) }
{}
