// Where the words of the blocks are, worked out once.
ghost use Rattle.std.specs.Prelude.{◌≡◌, ℕ, ◌+◌, ◌*◌, ◌^◌, ◌<◌, ◌≤◌, length, slice_get, Some, MatchResult, ⊤};
ghost use Rattle.ss_base.specs.declared.layout.SetLayout.{SetLayout};
ghost use Rattle.ss_world.specs.State.{kind_of, modes_of, is_owner_class};
ghost use Rattle.ss_records_words.specs.Shape.{values_end, links_start, owned_start, block_words, joins, owned_by, count_sets};
ghost use Rattle.ss_records_words.specs.Kept.{IsSmall};
ghost use Rattle.ss_records_words.specs.Slotted.{member_base, owner_base};
ghost use Rattle.ss_world.specs.Sets.{member_class, owner_kind};
ghost use Rattle.ss_records_words.specs.Plans.{AreExtents, AreBases, extent_of, bases_of, is_permanent_kind, is_system};

use crate::shape::{self, VALUES};
use ss_base::{ClassKind, Layout, Mode, Owner};
use std::alloc::{AllocError, Global};
use std::marker::Model;

/// A layout, with the places that follow from it for the words of each class and of each set, so that a call looks
/// them up. A contract sees the layout.
#[derive(Drop)]
pub struct LayoutPlan {
    layout: Layout,
    classes: Vec<Extent>,
    sets: Vec<Bases>,
    system_sets: usize,
}

/// Where the links of a class and the words of the sets that it owns begin, how many sets it joins and owns, and how many words its
/// blocks have.
#[derive(Clone, Copy)]
struct Extent {
    links: usize,
    owned: usize,
    joined: usize,
    sets: usize,
    words: usize,
}

/// Where the words of a set are in a member, and in an owner; the class of its members, and whether that is permanent; and whether
/// the set is one of the system.
#[derive(Clone, Copy)]
struct Bases {
    member: usize,
    owner: usize,
    class: usize,
    permanent: bool,
    system: bool,
}

impl Model for LayoutPlan {
    ghost use Rattle.ss_base.specs.declared.layout.Layout.{Layout};
    ghost use Rattle.ss_records_words.specs.Plans.{IsPlan};

    ghost Value = { Layout };

    ghost view = { λ p. p.layout };

    ghost invariant = { λ p. IsPlan p.layout p.classes.items p.sets.items p.system_sets };
}

impl LayoutPlan {
    /// The plan of a layout. The error comes where memory was refused.
    pub fn new(alloc: Global, layout: Layout) -> Result<LayoutPlan, AllocError>
        ensures { MatchResult result (λ plan. (plan ≡ layout) × IsSmall layout) (λ _. ⊤) }
    {
        shape::law(&layout);
        let classes = all_extents(alloc, &layout)?;
        let sets = all_bases(alloc, &layout)?;
        let system_sets = shape::owned_count(&layout, Owner::System);
        Ok(LayoutPlan {
            layout,
            classes,
            sets,
            system_sets,
        })
    }

    /// The layout by itself.
    pub fn layout(&self) -> &Layout
        ensures { result.now ≡ self.now }
    {
        &self.layout
    }

    /// How many classes there are.
    pub fn classes(&self) -> usize
        ensures { result ≡ length self.now.classes }
    {
        let layout = &self.layout;
        layout.classes.len()
    }

    /// How many names of sets there are.
    pub fn names(&self) -> usize
        ensures { result ≡ length self.now.sets }
    {
        let layout = &self.layout;
        layout.sets.len()
    }

    /// The kind of a class.
    pub fn kind(&self, class: usize) -> ClassKind
        requires { class < length self.now.classes }
        ensures { result ≡ kind_of self.now class }
    {
        shape::kind(&self.layout, class)
    }

    /// The mode of an attribute.
    pub fn mode(&self, class: usize, field: usize) -> Mode
        requires class { class < length self.now.classes }
        requires field { field < length (modes_of self.now class) }
        ensures { slice_get (modes_of self.now class) field ≡ Some result }
    {
        shape::mode(&self.layout, class, field)
    }

    /// Where the values of a class end: there is the time of a notice.
    pub fn values_end(&self, class: usize) -> usize
        requires { class < length self.now.classes }
        ensures at { result ≡ values_end self.now class }
        ensures bound { result ≤ 2097154 }
    {
        shape::values_end(&self.layout, class)
    }

    /// Where the links of a class begin.
    pub fn links_start(&self, class: usize) -> usize
        requires { class < length self.now.classes }
        ensures at { result ≡ links_start self.now class }
        ensures bound { result ≤ 2097155 }
    {
        self.extent(class).links
    }

    /// Where the words of the sets that a class owns begin.
    pub fn owned_start(&self, owner: Owner) -> usize
        requires { (c : ℕ) → owner ≡ Owner.Class c → c < length self.now.classes }
        ensures at { result ≡ owned_start self.now owner }
        ensures bound { result ≤ 5242883 }
    {
        match owner {
            Owner::System => VALUES,
            Owner::Class(class) => self.extent(class).owned,
        }
    }

    /// How many sets an owner has.
    pub fn owned_count(&self, owner: Owner) -> usize
        requires { (c : ℕ) → owner ≡ Owner.Class c → c < length self.now.classes }
        ensures value { result ≡ count_sets (owned_by owner) self.now.sets }
        ensures bound { result ≤ 1048576 }
    {
        match owner {
            Owner::System => self.system_sets(),
            Owner::Class(class) => self.extent(class).sets,
        }
    }

    /// How many sets a class joins.
    #[inline(always)]
    pub fn joined_count(&self, class: usize) -> usize
        requires { class < length self.now.classes }
        ensures value { result ≡ count_sets (joins class) self.now.sets }
        ensures bound { result ≤ 1048576 }
    {
        self.extent(class).joined
    }

    /// How many words a block of a class has.
    pub fn block_words(&self, owner: Owner) -> usize
        requires { (c : ℕ) → owner ≡ Owner.Class c → c < length self.now.classes }
        ensures size { result ≡ block_words self.now owner }
        ensures bound { (2 ≤ result) × (result < 2 ^ 32) }
    {
        match owner {
            Owner::System => VALUES + 3 * self.system_sets(),
            Owner::Class(class) => self.extent(class).words,
        }
    }

    /// Where the words of a set are in a member.
    pub fn member_base(&self, s: usize) -> usize
        requires { s < length self.now.sets }
        ensures at { (t : SetLayout) → slice_get self.now.sets s ≡ Some t → result ≡ member_base self.now s t }
        ensures bound { result ≤ 5242883 }
    {
        self.bases(s).member
    }

    /// Where the words of a set are in an owner.
    pub fn owner_base(&self, s: usize) -> usize
        requires { s < length self.now.sets }
        ensures at { (t : SetLayout) → slice_get self.now.sets s ≡ Some t → result ≡ owner_base self.now s t }
        ensures bound { result ≤ 8388614 }
    {
        self.bases(s).owner
    }

    /// The class of the members of a set.
    pub fn member_class(&self, s: usize) -> usize
        requires { s < length self.now.sets }
        ensures is { (t : SetLayout) → slice_get self.now.sets s ≡ Some t → result ≡ t.member }
        ensures class { result < length self.now.classes }
    {
        self.bases(s).class
    }

    /// Whether the class of the members of a set is permanent.
    #[inline(always)]
    pub fn holds_permanent(&self, s: usize) -> bool
        requires { s < length self.now.sets }
        ensures { result ≡ is_permanent_kind (kind_of self.now (member_class self.now s)) }
    {
        self.bases(s).permanent
    }

    /// Whether a set is one of the system.
    #[inline(always)]
    pub fn is_of_system(&self, s: usize) -> bool
        requires { s < length self.now.sets }
        ensures { result ≡ is_system (owner_kind self.now s) }
    {
        self.bases(s).system
    }

    /// The owner of a set.
    pub fn owner_class(&self, s: usize) -> Owner
        requires { s < length self.now.sets }
        ensures is { (t : SetLayout) → slice_get self.now.sets s ≡ Some t → result ≡ t.owner }
        ensures class { (c : ℕ) → result ≡ Owner.Class c → c < length self.now.classes }
    {
        shape::owner_class(&self.layout, s)
    }

    /// Whether a class owns the sets of a name.
    pub fn is_owner(&self, s: usize, class: usize) -> bool
        requires { s < length self.now.sets }
        ensures { (t : SetLayout) → slice_get self.now.sets s ≡ Some t → result ≡ is_owner_class t.owner class }
    {
        match shape::owner_class(&self.layout, s) {
            Owner::System => false,
            Owner::Class(owner) => owner == class,
        }
    }

    // How many sets the system has.
    #[inline(always)]
    #[tactic(auto, using(crate::proofs::Planning::few_sets))]
    fn system_sets(&self) -> usize
        ensures value { result ≡ count_sets (owned_by Owner.System) self.now.sets }
        ensures bound { result ≤ 1048576 }
    {
        self.system_sets
    }

    // The places of the words of a class.
    #[inline(always)]
    fn extent(&self, class: usize) -> &Extent
        requires { class < length self.now.classes }
        ensures is { result.now ≡ extent_of self.now class }
        ensures bound { (result.now.links ≤ 2097155) × (result.now.owned ≤ 5242883) × (result.now.joined ≤ 1048576) × (result.now.sets ≤ 1048576) × (2 ≤ result.now.words) × (result.now.words < 2 ^ 32) }
    {
        &self.classes[class]
    }

    // The places of the words of a set.
    #[inline(always)]
    fn bases(&self, s: usize) -> &Bases
        requires { s < length self.now.sets }
        ensures is { (t : SetLayout) → slice_get self.now.sets s ≡ Some t → result.now ≡ bases_of self.now s t }
        ensures says { (result.now.member ≤ 5242883) × (result.now.owner ≤ 8388614) × (result.now.class < length self.now.classes) × (result.now.permanent ≡ is_permanent_kind (kind_of self.now (member_class self.now s))) × (result.now.system ≡ is_system (owner_kind self.now s)) }
    {
        &self.sets[s]
    }
}

// The places of the words of each class.
fn all_extents(alloc: Global, layout: &Layout) -> Result<Vec<Extent>, AllocError>
    requires { IsSmall layout.now }
    ensures { MatchResult result (λ xs. AreExtents layout.now xs.items) (λ _. ⊤) }
{
    let mut extents = Vec::with_capacity(alloc, layout.classes.len())?;
    for class in 0..layout.classes.len() {
        let owner = Owner::Class(class);
        let owned = shape::owned_start(layout, owner);
        let sets = shape::owned_count(layout, owner);
        extents.push(Extent {
            links: shape::links_start(layout, class),
            owned,
            joined: shape::joined_count(layout, class),
            sets,
            words: owned + 3 * sets,
        })?;
    }
    Ok(extents)
}

// The places of the words of each set.
fn all_bases(alloc: Global, layout: &Layout) -> Result<Vec<Bases>, AllocError>
    requires { IsSmall layout.now }
    ensures { MatchResult result (λ xs. AreBases layout.now xs.items) (λ _. ⊤) }
{
    let mut bases = Vec::with_capacity(alloc, layout.sets.len())?;
    for s in 0..layout.sets.len() {
        bases.push(Bases {
            member: shape::member_base(layout, s),
            owner: shape::owner_base(layout, s),
            class: shape::member_class(layout, s),
            permanent: shape::holds_permanent(layout, s),
            system: shape::is_of_system(layout, s),
        })?;
    }
    Ok(bases)
}
