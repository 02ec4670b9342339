// Where the words of a block are, as it follows from a layout.
ghost use Rattle.std.specs.Prelude.{◌≡◌, ℕ, ◌+◌, ◌*◌, ◌<◌, ◌≤◌, length, slice_get, Some};
ghost use Rattle.ss_world.specs.State.{kind_of, modes_of};
ghost use Rattle.ss_records_words.specs.Shape.{values_end, links_start, owned_start, joins, owned_by, count_sets};
ghost use Rattle.ss_records_words.specs.Kept.{IsSmall};
ghost use Rattle.ss_records_words.specs.Slotted.{member_base, owner_base};
ghost use Rattle.ss_records_words.specs.Plans.{is_permanent_kind, is_system};

use ss_base::{ClassKind, Layout, Mode, Owner, SetLayout};

/// The first word of a block after those that name its class and its number.
pub const VALUES: usize = 2;

/// Where the two words of an attribute are: this one and the next.
#[inline(always)]
pub fn value_start(field: usize) -> usize
    requires { field < 1048576 }
    ensures at { result ≡ 2 + 2 * field }
    ensures bound { result ≤ 2097152 }
{
    VALUES + 2 * field
}

/// What a heap relies on of every layout.
pub fn law(layout: &Layout)
    ensures { IsSmall layout.now }
{
    layout.law();
}

/// The kind of a class, by which a caller knows which calls of a heap serve it.
pub fn kind(layout: &Layout, class: usize) -> ClassKind
    requires class { class < length layout.now.classes }
    ensures { result ≡ kind_of layout.now class }
{
    let class = &layout.classes[class];
    class.kind
}

/// The mode of an attribute.
pub fn mode(layout: &Layout, class: usize, field: usize) -> Mode
    requires class { class < length layout.now.classes }
    requires field { field < length (modes_of layout.now class) }
    ensures { slice_get (modes_of layout.now class) field ≡ Some result }
{
    let class = &layout.classes[class];
    class.fields[field]
}

/// Where the values of a class end: there is the time of a notice.
pub fn values_end(layout: &Layout, class: usize) -> usize
    requires small { IsSmall layout.now }
    requires class { class < length layout.now.classes }
    ensures at { result ≡ values_end layout.now class }
    ensures bound { result ≤ 2097154 }
{
    let class = &layout.classes[class];
    VALUES + 2 * class.fields.len()
}

/// Where the links of a class begin.
pub fn links_start(layout: &Layout, class: usize) -> usize
    requires small { IsSmall layout.now }
    requires class { class < length layout.now.classes }
    ensures at { result ≡ links_start layout.now class }
    ensures bound { result ≤ 2097155 }
{
    let end = values_end(layout, class);
    match kind(layout, class) {
        ClassKind::Notice => end + 1,
        ClassKind::Temporary | ClassKind::Permanent => end,
    }
}

/// Where the words of the sets that a class owns begin.
pub fn owned_start(layout: &Layout, owner: Owner) -> usize
    requires small { IsSmall layout.now }
    requires class { (c : ℕ) → owner ≡ Owner.Class c → c < length layout.now.classes }
    ensures at { result ≡ owned_start layout.now owner }
    ensures bound { result ≤ 5242883 }
{
    match owner {
        Owner::System => VALUES,
        Owner::Class(class) => links_start(layout, class) + 3 * joining(&layout.sets, class),
    }
}

/// How many sets a class joins.
pub fn joined_count(layout: &Layout, class: usize) -> usize
    requires small { IsSmall layout.now }
    ensures value { result ≡ count_sets (joins class) layout.now.sets }
    ensures bound { result ≤ 1048576 }
{
    joining(&layout.sets, class)
}

/// How many sets an owner has.
pub fn owned_count(layout: &Layout, owner: Owner) -> usize
    requires small { IsSmall layout.now }
    ensures value { result ≡ count_sets (owned_by owner) layout.now.sets }
    ensures bound { result ≤ 1048576 }
{
    owned(&layout.sets, owner)
}

// How many sets a class joins.
fn joining(sets: &[SetLayout], class: usize) -> usize
    ensures value { result ≡ count_sets (joins class) sets.now }
    ensures bound { result ≤ length sets.now }
{
    let mut count = 0;
    for set in sets {
        if set.member == class {
            count += 1;
        }
    }
    count
}

// How many sets an owner has.
fn owned(sets: &[SetLayout], owner: Owner) -> usize
    ensures value { result ≡ count_sets (owned_by owner) sets.now }
    ensures bound { result ≤ length sets.now }
{
    let mut count = 0;
    for set in sets {
        if set.owner == owner {
            count += 1;
        }
    }
    count
}

/// Where the words of a set are in a member.
#[tactic(auto, using(crate::proofs::Tied::count_taken))]
pub fn member_base(layout: &Layout, s: usize) -> usize
    requires small { IsSmall layout.now }
    requires set { s < length layout.now.sets }
    ensures at { (t : SetLayout) → slice_get layout.now.sets s ≡ Some t → result ≡ member_base layout.now s t }
    ensures bound { result ≤ 5242883 }
{
    let class = member_class(layout, s);
    links_start(layout, class) + 3 * joining(&layout.sets[..s], class)
}

/// Where the words of a set are in an owner.
#[tactic(auto, using(crate::proofs::Tied::count_taken))]
pub fn owner_base(layout: &Layout, s: usize) -> usize
    requires small { IsSmall layout.now }
    requires set { s < length layout.now.sets }
    ensures at { (t : SetLayout) → slice_get layout.now.sets s ≡ Some t → result ≡ owner_base layout.now s t }
    ensures bound { result ≤ 8388614 }
{
    let owner = owner_class(layout, s);
    owned_start(layout, owner) + 3 * owned(&layout.sets[..s], owner)
}

/// The class of the members of a set.
pub fn member_class(layout: &Layout, s: usize) -> usize
    requires small { IsSmall layout.now }
    requires set { s < length layout.now.sets }
    ensures is { (t : SetLayout) → slice_get layout.now.sets s ≡ Some t → result ≡ t.member }
    ensures class { result < length layout.now.classes }
{
    layout.sets[s].member
}

/// The owner of a set.
pub fn owner_class(layout: &Layout, s: usize) -> Owner
    requires small { IsSmall layout.now }
    requires set { s < length layout.now.sets }
    ensures is { (t : SetLayout) → slice_get layout.now.sets s ≡ Some t → result ≡ t.owner }
    ensures class { (c : ℕ) → result ≡ Owner.Class c → c < length layout.now.classes }
{
    layout.sets[s].owner
}

/// Whether the class of the members of a set is permanent.
pub fn holds_permanent(layout: &Layout, s: usize) -> bool
    requires small { IsSmall layout.now }
    requires set { s < length layout.now.sets }
    ensures { (t : SetLayout) → slice_get layout.now.sets s ≡ Some t → result ≡ is_permanent_kind (kind_of layout.now t.member) }
{
    match kind(layout, member_class(layout, s)) {
        ClassKind::Permanent => true,
        ClassKind::Temporary | ClassKind::Notice => false,
    }
}

/// Whether a set is one of the system.
pub fn is_of_system(layout: &Layout, s: usize) -> bool
    requires small { IsSmall layout.now }
    requires set { s < length layout.now.sets }
    ensures { (t : SetLayout) → slice_get layout.now.sets s ≡ Some t → result ≡ is_system t.owner }
{
    match owner_class(layout, s) {
        Owner::System => true,
        Owner::Class(_) => false,
    }
}
