// The records, and what the block of each says.
ghost use Rattle.std.specs.Prelude.{◌≡◌, ℕ, List, ◌+◌, ◌-◌, ◌*◌, ◌/◌, ◌^◌, ◌<◌, ◌≤◌, length, MatchResult, IfOk, Ok, Err, Some, None, slice_get, nat_abs, true, false, if◌then◌else◌, ⊤};
ghost use Rattle.ss_world.specs.State.{Members, kind_of, modes_of, is_notice, first_state, living_numbers, living_records, value_in, time_in, destroyed, created, created_all, is_made, with_made, assigned, timed, no_value, IsRefusalOf};
ghost use Rattle.ss_world.specs.Sets.{owner_kind};
ghost use Rattle.ss_records_blocks.specs.Cells.{words_at};
ghost use Rattle.ss_records_blocks.specs.Pages.{in_page};
ghost use Rattle.ss_base.specs.Layout.{mode_of};
ghost use Rattle.ss_base.specs.Arithmetic.{plus_of, minus_of};
ghost use Rattle.ss_records_words.specs.Shape.{values_end, set_places};
ghost use Rattle.ss_records_words.specs.Kept.{ArePartsKept, IsSmall, IsPermanent, AreRowsHeld};
ghost use Rattle.ss_records_words.specs.Places.{class_at_place, lying};
ghost use Rattle.ss_records_entities.specs.Parts.{IsKept, state};
ghost use Rattle.ss_records_entities.specs.Attributes.{IsAssigned, IsChanged, changed_number};

use ss_base::{Alpha, FaultKind, Layout, Mode, Owner, Refused, Value, minus, plus};
use ss_records_blocks::placing::{give_places_back, place_all};
use ss_records_blocks::row::{self, Row};
use ss_records_blocks::{BlockPlace, Blocks, CLASS, Directory, PAGE};
use ss_records_words::notes::Notes;
use ss_records_words::plan::LayoutPlan;
use ss_records_words::shape::value_start;
use ss_records_words::{attributes, laying, placing};
use std::alloc::{AllocError, Global};

/// The greatest creation number.
const LAST_NUMBER: u64 = 4611686018427387903;

/// The most entities of a permanent class.
const MOST_ENTITIES: i64 = 1048576;

pub struct Records {
    pub layout: LayoutPlan,
    pub blocks: Blocks,
    pub notes: Notes,
    pub system: BlockPlace,
    pub directory: Directory,
    pub permanents: Vec<Row>,
}

impl Records {
    /// No record, all sets empty.
    pub fn new(alloc: Global, layout: Layout) -> Result<Records, AllocError>
        ensures made { MatchResult result (λ r. IsKept r × (state r ≡ first_state layout)) (λ _. ⊤) }
        ensures touches { IfOk result (λ r. (r.blocks.touches ≡ 3 * set_places layout Owner.System) × (r.blocks.total ≡ r.blocks.touches)) }
    {
        let layout = LayoutPlan::new(alloc, layout)?;
        let words = layout.block_words(Owner::System);
        let permanents = row::not_made(alloc, layout.classes());
        let tables = beside(layout, permanents)?;
        let tables = beside(tables, Directory::new(alloc))?;
        let held = beside(tables, Blocks::with_one(&alloc, words))?;
        let (((layout, permanents), directory), (mut blocks, system)) = held;
        laying::lay_system(&mut blocks, &layout, system);
        Ok(Records {
            layout,
            blocks,
            notes: Notes::new(),
            system,
            directory,
            permanents,
        })
    }

    /// Counts the touches from 0 on.
    pub fn start(&mut self)
        ensures { self.new ≡ record self.old { blocks = record { cells = self.old.blocks.cells; touches = 0; total = self.old.blocks.total } } }
    {
        self.blocks.start();
    }

    /// The touches since `start`.
    pub fn touches(&self) -> u64
        ensures { result ≡ self.now.blocks.touches }
    {
        self.blocks.touches()
    }

    /// How many pages the directory has.
    pub fn pages(&self) -> usize
        requires kept { IsKept self.now }
        ensures value { result ≡ self.now.directory.pages }
        ensures bound { result ≤ living_numbers (state self.now).records + 1 }
    {
        self.directory.pages()
    }

    /// How many blocks there are.
    pub fn placed(&self) -> u64
        requires kept { IsKept self.now }
        ensures { result ≡ living_records (state self.now) + 1 }
    {
        self.blocks.placed()
    }

    /// Gives every block back.
    pub fn close(self, alloc: &Global)
        requires kept { IsKept self }
    {
        let Records {
            layout,
            mut blocks,
            notes: _,
            system,
            directory,
            permanents,
        } = self;
        give_all_back(&mut blocks, alloc, &layout, &directory, &permanents, system);
        let words = layout.block_words(Owner::System);
        blocks.give_back(alloc, system, words);
        blocks.close();
    }

    /// The value of an attribute.
    pub fn value(&self, class: usize, field: usize, r: i64) -> Result<Value, FaultKind>
        requires kept { IsKept self.now }
        requires class { class < length self.now.layout.classes }
        requires field { field < length (modes_of self.now.layout class) }
        ensures { result ≡ value_in (state self.now) class field r }
    {
        match self.find(class, r) {
            Ok(place) => {
                let mode = self.layout.mode(class, field);
                let k = value_start(field);
                Ok(attributes::value(&self.blocks, place, k, mode))
            }
            Err(fault) => Err(fault),
        }
    }

    /// Sets the value of an attribute.
    pub fn set_value(
        &mut self,
        class: usize,
        field: usize,
        r: i64,
        value: Value,
    ) -> Result<(), FaultKind>
        requires kept { IsKept self.old }
        requires class { class < length self.old.layout.classes }
        requires mode { slice_get (modes_of self.old.layout class) field ≡ Some (mode_of value) }
        ensures kept { IsKept self.new }
        ensures done { MatchResult result (λ _. assigned (state self.old) class field r value ≡ Ok (state self.new)) (λ e. (assigned (state self.old) class field r value ≡ Err e) × (state self.new ≡ state self.old)) }
        ensures touches { (self.new.blocks.touches ≡ self.old.blocks.touches) × (self.new.blocks.total ≡ self.old.blocks.total) }
        ensures blocks { length self.new.blocks.cells ≡ length self.old.blocks.cells }
    {
        match self.find(class, r) {
            Ok(place) => {
                let k = value_start(field);
                attributes::set_value(&mut self.blocks, place, k, value);
                Ok(())
            }
            Err(fault) => Err(fault),
        }
    }

    /// The whole number that an attribute is.
    #[inline(always)]
    pub fn whole(&self, class: usize, field: usize, r: i64) -> Result<i64, FaultKind>
        requires kept { IsKept self.now }
        requires class { class < length self.now.layout.classes }
        requires mode { slice_get (modes_of self.now.layout class) field ≡ Some Mode.Integer }
        ensures { MatchResult result (λ n. value_in (state self.now) class field r ≡ Ok (Value.Whole n)) (λ e. value_in (state self.now) class field r ≡ Err e) }
    {
        match self.find(class, r) {
            Ok(place) => {
                let k = value_start(field);
                Ok(attributes::whole(&self.blocks, place, k))
            }
            Err(fault) => Err(fault),
        }
    }

    /// The text that an attribute is.
    pub fn text(&self, class: usize, field: usize, r: i64) -> Result<Alpha, FaultKind>
        requires kept { IsKept self.now }
        requires class { class < length self.now.layout.classes }
        requires mode { slice_get (modes_of self.now.layout class) field ≡ Some Mode.Alpha }
        ensures { MatchResult result (λ t. value_in (state self.now) class field r ≡ Ok (Value.Text t)) (λ e. value_in (state self.now) class field r ≡ Err e) }
    {
        match self.find(class, r) {
            Ok(place) => {
                let k = value_start(field);
                Ok(attributes::text(&self.blocks, place, k))
            }
            Err(fault) => Err(fault),
        }
    }

    /// Sets an attribute of whole numbers.
    #[inline(always)]
    pub fn set_whole(&mut self, class: usize, field: usize, r: i64, n: i64) -> Result<(), FaultKind>
        requires kept { IsKept self.old }
        requires class { class < length self.old.layout.classes }
        requires mode { slice_get (modes_of self.old.layout class) field ≡ Some Mode.Integer }
        ensures kept { IsKept self.new }
        ensures done { MatchResult result (λ _. IsAssigned (state self.old) class field r n (state self.new)) (λ e. (assigned (state self.old) class field r (Value.Whole n) ≡ Err e) × (state self.new ≡ state self.old)) }
        ensures touches { (self.new.blocks.touches ≡ self.old.blocks.touches) × (self.new.blocks.total ≡ self.old.blocks.total) }
        ensures blocks { length self.new.blocks.cells ≡ length self.old.blocks.cells }
    {
        match self.find(class, r) {
            Ok(place) => {
                let k = value_start(field);
                attributes::set_whole(&mut self.blocks, place, k, n);
                Ok(())
            }
            Err(fault) => Err(fault),
        }
    }

    /// Adds a number to an attribute of whole numbers, or subtracts it. Faults: those of the entity, then 14 where the result does
    /// not fit 64 bits.
    #[inline(always)]
    pub fn change_whole(
        &mut self,
        class: usize,
        field: usize,
        r: i64,
        n: i64,
        subtract: bool,
    ) -> Result<(), FaultKind>
        requires kept { IsKept self.old }
        requires class { class < length self.old.layout.classes }
        requires mode { slice_get (modes_of self.old.layout class) field ≡ Some Mode.Integer }
        ensures kept { IsKept self.new }
        ensures done { MatchResult result (λ _. IsChanged (λ z. (if subtract then minus_of else plus_of) z n) (state self.old) class field r (state self.new)) (λ e. (changed_number (λ z. (if subtract then minus_of else plus_of) z n) (value_in (state self.old) class field r) ≡ Err e) × (state self.new ≡ state self.old)) }
        ensures touches { (self.new.blocks.touches ≡ self.old.blocks.touches) × (self.new.blocks.total ≡ self.old.blocks.total) }
        ensures blocks { length self.new.blocks.cells ≡ length self.old.blocks.cells }
    {
        match self.find(class, r) {
            Ok(place) => {
                let k = value_start(field);
                match changed(attributes::whole(&self.blocks, place, k), n, subtract) {
                    Ok(number) => {
                        attributes::set_whole(&mut self.blocks, place, k, number);
                        Ok(())
                    }
                    Err(fault) => Err(fault),
                }
            }
            Err(fault) => Err(fault),
        }
    }

    /// The time of a notice.
    pub fn time(&self, r: i64) -> Result<i64, FaultKind>
        requires kept { IsKept self.now }
        ensures { result ≡ time_in (state self.now) r }
    {
        match self.find_notice(r) {
            Ok(place) => {
                let k = self.time_word(place);
                Ok(self.blocks.number(place, k).cast_signed())
            }
            Err(fault) => Err(fault),
        }
    }

    // The word of a notice's block that has its time.
    fn time_word(&self, place: BlockPlace) -> usize
        requires kept { IsKept self.now }
        requires entry { (i : ℕ) × (slice_get self.now.directory.places i ≡ Some (Some place)) }
        requires notice { is_notice (kind_of self.now.layout (class_at_place self.now.blocks.cells place)) ≡ true }
        ensures { result ≡ values_end self.now.layout (class_at_place self.now.blocks.cells place) }
    {
        let class = self.blocks.number(place, CLASS) as usize;
        self.layout.values_end(class)
    }

    /// Sets the time of a notice.
    pub fn set_time(&mut self, r: i64, t: i64) -> Result<(), FaultKind>
        requires kept { IsKept self.old }
        ensures kept { IsKept self.new }
        ensures done { MatchResult result (λ _. timed (state self.old) r t ≡ Ok (state self.new)) (λ e. (timed (state self.old) r t ≡ Err e) × (state self.new ≡ state self.old)) }
        ensures touches { (self.new.blocks.touches ≡ self.old.blocks.touches) × (self.new.blocks.total ≡ self.old.blocks.total) }
        ensures blocks { length self.new.blocks.cells ≡ length self.old.blocks.cells }
    {
        match self.near_notice(r) {
            Some(place) => {
                let k = self.time_word(place);
                self.blocks.set_number(place, k, t.cast_unsigned());
                Ok(())
            }
            None => self.set_time_apart(r, t),
        }
    }

    // Does the work of `set_time` where it may take a search, or there is a fault.
    #[cold]
    #[inline(never)]
    fn set_time_apart(&mut self, r: i64, t: i64) -> Result<(), FaultKind>
        requires kept { IsKept self.old }
        ensures kept { IsKept self.new }
        ensures done { MatchResult result (λ _. timed (state self.old) r t ≡ Ok (state self.new)) (λ e. (timed (state self.old) r t ≡ Err e) × (state self.new ≡ state self.old)) }
        ensures touches { (self.new.blocks.touches ≡ self.old.blocks.touches) × (self.new.blocks.total ≡ self.old.blocks.total) }
        ensures blocks { length self.new.blocks.cells ≡ length self.old.blocks.cells }
    {
        match self.find_notice(r) {
            Ok(place) => {
                let k = self.time_word(place);
                self.blocks.set_number(place, k, t.cast_unsigned());
                Ok(())
            }
            Err(fault) => Err(fault),
        }
    }

    /// Whether a class owns a set.
    #[inline(always)]
    pub fn owns_set(&self, class: usize) -> bool
        requires { class < length self.now.layout.classes }
        ensures { result ≡ false → (set : ℕ) → owner_kind self.now.layout set ≡ Owner.Class class → ⊥ }
    {
        self.layout.owned_count(Owner::Class(class)) != 0
    }

    /// Whether `create` makes an entity where memory is not refused. Faults: 14 after the last creation number.
    pub fn may_create(&self) -> Result<(), FaultKind>
        ensures { (class : ℕ) → result ≡ no_value (created (state self.now) class) }
    {
        if self.directory.len() as u64 >= LAST_NUMBER {
            return Err(FaultKind::Overflow);
        }
        Ok(())
    }

    // Whether the entities of a permanent class are made.
    fn is_made(&self, class: usize) -> bool
        ensures { result ≡ is_made (state self.now) class }
    {
        match self.permanents.get(class) {
            None => false,
            Some(row) => row.is_made(),
        }
    }

    /// Whether `create_all` makes so many entities of a permanent class where memory is not refused. Faults: 18 where they are
    /// made, then 22 for a bad count.
    pub fn may_create_all(&self, class: usize, n: i64) -> Result<(), FaultKind>
        ensures { result ≡ no_value (created_all (state self.now) class n) }
    {
        if self.is_made(class) {
            return Err(FaultKind::CreatedTwice);
        }
        if n < 0 || n > MOST_ENTITIES {
            return Err(FaultKind::BadCount);
        }
        Ok(())
    }

    /// A new entity, with the next creation number.
    #[inline(always)]
    pub fn create(&mut self, alloc: &Global, class: usize) -> Result<i64, Refused>
        requires kept { IsKept self.old }
        requires class { class < length self.old.layout.classes }
        requires kind { IsPermanent (kind_of self.old.layout class) → ⊥ }
        requires touches { self.old.blocks.touches ≡ 0 }
        ensures kept { IsKept self.new }
        ensures done { MatchResult result (λ n. created (state self.old) class ≡ Ok (n, state self.new)) (λ e. (state self.new ≡ state self.old) × IsRefusalOf (created (state self.old) class) e) }
        ensures touches { self.new.blocks.total ≡ self.old.blocks.total + self.new.blocks.touches }
        ensures links { MatchResult result (λ _. self.new.blocks.touches ≡ 3 * set_places self.old.layout (Owner.Class class)) (λ _. self.new.blocks.touches ≡ 0) }
    {
        let i = self.directory.len();
        if i as u64 >= LAST_NUMBER {
            return Err(Refused::Fault(FaultKind::Overflow));
        }
        let words = self.layout.block_words(Owner::Class(class));
        let Ok(place) = self.blocks.place(alloc, words) else {
            return Err(Refused::Memory);
        };
        match self.directory.push(place) {
            Ok(()) => {
                let number = i as u64 + 1;
                laying::lay(
                    &mut self.blocks,
                    &self.layout,
                    place,
                    class,
                    number,
                    self.system,
                );
                Ok(number as i64)
            }
            Err(_) => {
                self.blocks.give_back(alloc, place, words);
                Err(Refused::Memory)
            }
        }
    }

    /// The entities of a permanent class, n of them, with the numbers from 1 on.
    pub fn create_all(&mut self, alloc: &Global, class: usize, n: i64) -> Result<(), Refused>
        requires kept { IsKept self.old }
        requires class { class < length self.old.layout.classes }
        requires kind { IsPermanent (kind_of self.old.layout class) }
        requires touches { self.old.blocks.touches ≡ 0 }
        ensures kept { IsKept self.new }
        ensures done { MatchResult result (λ _. created_all (state self.old) class n ≡ Ok (state self.new)) (λ e. (state self.new ≡ state self.old) × IsRefusalOf (created_all (state self.old) class n) e) }
        ensures touches { self.new.blocks.total ≡ self.old.blocks.total + self.new.blocks.touches }
        ensures links { MatchResult result (λ _. self.new.blocks.touches ≡ nat_abs n * (3 * set_places self.old.layout (Owner.Class class))) (λ _. self.new.blocks.touches ≡ 0) }
    {
        if self.permanents[class].is_made() {
            return Err(Refused::Fault(FaultKind::CreatedTwice));
        }
        if n < 0 || n > MOST_ENTITIES {
            return Err(Refused::Fault(FaultKind::BadCount));
        }
        match self.make(alloc, class, n as usize) {
            Ok(()) => Ok(()),
            Err(_) => Err(Refused::Memory),
        }
    }

    // So many entities of a permanent class that is not made.
    fn make(&mut self, alloc: &Global, class: usize, count: usize) -> Result<(), AllocError>
        requires kept { IsKept self.old }
        requires class { class < length self.old.layout.classes }
        requires kind { IsPermanent (kind_of self.old.layout class) }
        requires free { slice_get self.old.permanents.items class ≡ Some None }
        requires few { count ≤ 2 ^ 20 }
        requires touches { self.old.blocks.touches ≡ 0 }
        ensures kept { IsKept self.new }
        ensures done { MatchResult result (λ _. state self.new ≡ with_made (state self.old) class count) (λ _. state self.new ≡ state self.old) }
        ensures touches { self.new.blocks.total ≡ self.old.blocks.total + self.new.blocks.touches }
        ensures links { MatchResult result (λ _. self.new.blocks.touches ≡ count * (3 * set_places self.old.layout (Owner.Class class))) (λ _. self.new.blocks.touches ≡ 0) }
    {
        let words = self.layout.block_words(Owner::Class(class));
        let Ok(places) = place_all(&mut self.blocks, alloc, words, count) else {
            return Err(AllocError);
        };
        placing::lay_all(&mut self.blocks, &self.layout, &places, class, self.system);
        self.permanents[class] = Row::of(places);
        Ok(())
    }

    /// Whether `destroy` destroys an entity. Faults: those of `destroy`.
    pub fn may_destroy(&mut self, class: usize, r: i64) -> Result<(), FaultKind>
        requires kept { IsKept self.old }
        requires class { class < length self.old.layout.classes }
        requires kind { IsPermanent (kind_of self.old.layout class) → ⊥ }
        requires touches { self.old.blocks.touches ≡ 0 }
        ensures kept { IsKept self.new }
        ensures value { result ≡ no_value (destroyed (state self.old) class r) }
        ensures same { state self.new ≡ state self.old }
        ensures touches { self.new.blocks.total + self.old.blocks.touches ≡ self.old.blocks.total + self.new.blocks.touches }
        ensures looked { self.new.blocks.touches ≤ set_places self.old.layout (Owner.Class class) }
    {
        match self.find_free(class, r) {
            Ok(_) => Ok(()),
            Err(fault) => Err(fault),
        }
    }

    /// Gives the block of an entity back.
    #[inline(always)]
    pub fn destroy(&mut self, alloc: &Global, class: usize, r: i64) -> Result<(), FaultKind>
        requires kept { IsKept self.old }
        requires class { class < length self.old.layout.classes }
        requires kind { IsPermanent (kind_of self.old.layout class) → ⊥ }
        requires touches { self.old.blocks.touches ≡ 0 }
        ensures kept { IsKept self.new }
        ensures done { MatchResult result (λ _. destroyed (state self.old) class r ≡ Ok (state self.new)) (λ e. (destroyed (state self.old) class r ≡ Err e) × (state self.new ≡ state self.old)) }
        ensures touches { self.new.blocks.total + self.old.blocks.touches ≡ self.old.blocks.total + self.new.blocks.touches }
        ensures looked { self.new.blocks.touches ≤ set_places self.old.layout (Owner.Class class) }
    {
        match self.find_free(class, r) {
            Ok(place) => {
                let words = self.layout.block_words(Owner::Class(class));
                self.directory.clear(r as usize - 1);
                self.blocks.give_back(alloc, place, words);
                Ok(())
            }
            Err(fault) => Err(fault),
        }
    }
}

// The sum of two numbers, or their difference.
#[inline(always)]
fn changed(number: i64, by: i64, subtract: bool) -> Result<i64, FaultKind>
    ensures { result ≡ (if subtract then minus_of else plus_of) number by }
{
    if subtract {
        minus(number, by)
    } else {
        plus(number, by)
    }
}

// Gives back the blocks that a directory leads to. That of the system is left.
fn give_all_back(
    blocks: &mut Blocks,
    alloc: &Global,
    layout: &LayoutPlan,
    directory: &Directory,
    permanents: &[Row],
    system: BlockPlace,
)
    requires kept { (ms : List Members) × ArePartsKept layout.now blocks.old.cells system.at (lying directory.now.places permanents.now) ms }
    ensures system { words_at blocks.new.cells system.at ≡ words_at blocks.old.cells system.at }
    ensures count { length blocks.new.cells ≡ 1 }
{
    for stretch in 0..directory.stretches() {
        let first = stretch * PAGE;
        for i in first..first + numbers_in(directory, stretch) {
            match directory.place_of(i) {
                Some(place) => {
                    let class = blocks.number(place, CLASS) as usize;
                    let words = layout.block_words(Owner::Class(class));
                    blocks.give_back(alloc, place, words);
                }
                None => {}
            }
        }
    }
    give_rows_back(blocks, alloc, layout, permanents, system);
}

// How many numbers of a stretch are to be looked at: none where its page is not held.
fn numbers_in(directory: &Directory, stretch: usize) -> usize
    ensures few { result ≤ 256 }
    ensures others { (i : ℕ) → i / 256 ≡ stretch → stretch * 256 + result ≤ i → in_page (slice_get directory.now.places i) ≡ None }
{
    if directory.holds(stretch) {
        return PAGE;
    }
    0
}

// Gives back the blocks of the permanent entities.
fn give_rows_back(
    blocks: &mut Blocks,
    alloc: &Global,
    layout: &LayoutPlan,
    permanents: &[Row],
    system: BlockPlace,
)
    requires small { IsSmall layout.now }
    requires held { AreRowsHeld layout.now blocks.old.cells system.at permanents.now }
    ensures system { words_at blocks.new.cells system.at ≡ words_at blocks.old.cells system.at }
    ensures count { length blocks.new.cells ≡ 1 }
{
    for class in 0..permanents.len() {
        let words = layout.block_words(Owner::Class(class));
        let places = permanents[class].places();
        give_places_back(blocks, alloc, places, words);
    }
}

// What was made first, beside what was made next, unless memory was refused for that.
fn beside<A: Drop, B>(first: A, next: Result<B, AllocError>) -> Result<(A, B), AllocError>
    ensures { IfOk result (λ both. (both.0 ≡ first) × (next ≡ Ok both.1)) }
{
    match next {
        Ok(next) => Ok((first, next)),
        Err(e) => Err(e),
    }
}
