//! Sets: what is asked of them, filing and removing.

ghost use Rattle.std.specs.Prelude.{◌≡◌, ◌<◌, length, true, false};
ghost use Rattle.ss_base.specs.declared.words.End.TheVariants as ends;
ghost use Rattle.ss_base.specs.declared.value.Value.TheVariants.{Whole};
ghost use Rattle.ss_meaning.specs.Sets.{set_answer, Foremost, Hindmost, ByRule, JustBefore, JustAfter};
ghost use Rattle.ss_machine_world.specs.Numbers.{count_noted};
ghost use Rattle.ss_machine_world.specs.Seen.{number_if};
ghost use Rattle.ss_code_instructions.specs.Forms.{asking_member, asking_set};
ghost use Rattle.ss_machine_instructions.specs.Doing.{Can, HasDone};
ghost use Rattle.ss_machine_instructions.specs.Worldly.{HasChangedIf, IsCounted, IsCountedOut, IsRuled, HasFiled, HasRemoved, HasTaken, one_of, member_answer};
ghost use Rattle.ss_machine_instructions.specs.Ways.{on_after};

use crate::flow::Here;
use crate::state::State;
use ss_base::FaultKind;
use ss_code_instructions::address::Address;
use ss_code_instructions::instruction::Instruction;
use ss_machine_entities::population::Population;
use ss_machine_world::world::World;
use ss_program::expression::{MemberQuery, SetQuery};

/// Where a member is filed: the set, and whether N. of it is noted.
#[derive(Clone, Copy)]
pub struct Filing {
    pub set: u32,
    pub noted: bool,
}

// 1 where there is an owner, 0 where there is none, or the fault.
#[inline(always)]
fn one_where(owner: Result<Option<i64>, FaultKind>) -> Result<i64, FaultKind>
    ensures { result ≡ one_of owner }
{
    match owner {
        Err(kind) => Err(kind),
        Ok(None) => Ok(0),
        Ok(Some(_)) => Ok(1),
    }
}

// What is asked of the set of an owner: a member, 0 for none, or how many there are.
#[inline(always)]
fn answer_of_set(
    population: &mut Population,
    query: SetQuery,
    set: usize,
    owner: i64,
) -> Result<i64, FaultKind>
    requires set { set < length population.old.layout.sets }
    ensures value { result ≡ set_answer query population.old set owner }
    ensures same { population.new ≡ population.old }
{
    match query {
        SetQuery::FirstMember => population.first(set, owner),
        SetQuery::LastMember => population.last(set, owner),
        SetQuery::MemberCount => population.member_count(set, owner),
    }
}

// What is asked of a member: the one before it or after it, 0 for none, or whether it is in some set of the name, 1 or 0.
#[inline(always)]
fn answer_of_member(
    population: &mut Population,
    query: MemberQuery,
    set: usize,
    member: i64,
) -> Result<i64, FaultKind>
    requires set { set < length population.old.layout.sets }
    ensures value { result ≡ member_answer query population.old set member }
    ensures same { population.new ≡ population.old }
{
    match query {
        MemberQuery::Predecessor => population.previous(set, member),
        MemberQuery::Successor => population.next(set, member),
        MemberQuery::Membership => one_where(population.owner_in(set, member)),
    }
}

// What is asked of a set of the world.
#[inline(always)]
pub(crate) fn ask_set(
    world: &mut World,
    query: SetQuery,
    set: usize,
    owner: i64,
) -> Result<i64, FaultKind>
    requires set { set < length world.old.heap.layout.sets }
    ensures value { result ≡ set_answer query world.old.heap set owner }
    ensures same { world.new ≡ world.old }
{
    answer_of_set(&mut world.population, query, set, owner)
}

// What is asked of a member of the world.
#[inline(always)]
fn ask_member(
    world: &mut World,
    query: MemberQuery,
    set: usize,
    member: i64,
) -> Result<i64, FaultKind>
    requires set { set < length world.old.heap.layout.sets }
    ensures value { result ≡ member_answer query world.old.heap set member }
    ensures same { world.new ≡ world.old }
{
    answer_of_member(&mut world.population, query, set, member)
}

// N. of the set of an owner is noted, where that is so.
#[inline(always)]
fn note_if(world: &mut World, set: usize, owner: i64, noted: bool) -> Result<(), FaultKind>
    requires set { set < length world.old.heap.layout.sets }
    ensures { HasChangedIf noted (count_noted set owner) world.old world.new result }
{
    if noted {
        world.note_count(set, owner)
    } else {
        Ok(())
    }
}

// The set of an owner has changed, or there was a fault: N. of it is noted, where that is so.
#[inline(always)]
fn counted(
    world: &mut World,
    changed: Result<(), FaultKind>,
    set: usize,
    owner: i64,
    noted: bool,
) -> Result<(), FaultKind>
    requires set { set < length world.old.heap.layout.sets }
    ensures { IsCounted set owner changed noted world.old world.new result }
{
    match changed {
        Err(kind) => Err(kind),
        Ok(()) => note_if(world, set, owner, noted),
    }
}

// A number, unless there was a fault.
#[inline(always)]
fn number_if(number: i64, answer: Result<(), FaultKind>) -> Result<i64, FaultKind>
    ensures { result ≡ number_if number answer }
{
    match answer {
        Err(kind) => Err(kind),
        Ok(()) => Ok(number),
    }
}

// A member was taken out of the set of an owner, or there was a fault: N. of it is noted, where that is so. The member is the answer.
#[inline(always)]
fn counted_out(
    world: &mut World,
    taken: Result<i64, FaultKind>,
    set: usize,
    owner: i64,
    noted: bool,
) -> Result<i64, FaultKind>
    requires set { set < length world.old.heap.layout.sets }
    ensures { IsCountedOut set owner taken noted world.old world.new result }
{
    match taken {
        Err(kind) => Err(kind),
        Ok(member) => number_if(member, note_if(world, set, owner, noted)),
    }
}

// A member is filed first in the set of an owner.
#[inline(always)]
fn put_first(
    world: &mut World,
    set: usize,
    owner: i64,
    member: i64,
    noted: bool,
) -> Result<(), FaultKind>
    requires set { set < length world.old.heap.layout.sets }
    ensures { HasFiled Foremost set noted world.old world.new result owner member }
{
    let changed = world.population.file_first(set, owner, member);
    counted(world, changed, set, owner, noted)
}

// .. or last.
#[inline(always)]
fn put_last(
    world: &mut World,
    set: usize,
    owner: i64,
    member: i64,
    noted: bool,
) -> Result<(), FaultKind>
    requires set { set < length world.old.heap.layout.sets }
    ensures { HasFiled Hindmost set noted world.old world.new result owner member }
{
    let changed = world.population.file_last(set, owner, member);
    counted(world, changed, set, owner, noted)
}

// .. or where its rank is.
#[inline(always)]
fn put_ranked(
    world: &mut World,
    set: usize,
    owner: i64,
    member: i64,
    noted: bool,
) -> Result<(), FaultKind>
    requires set { set < length world.old.heap.layout.sets }
    requires ruled { IsRuled world.old set }
    ensures { HasFiled ByRule set noted world.old world.new result owner member }
{
    let changed = world.file_ranked(set, owner, member);
    counted(world, changed, set, owner, noted)
}

// .. or directly before another member.
#[inline(always)]
fn put_before(
    world: &mut World,
    set: usize,
    owner: i64,
    member: i64,
    beside: i64,
    noted: bool,
) -> Result<(), FaultKind>
    requires set { set < length world.old.heap.layout.sets }
    ensures { HasFiled (JustBefore (Whole beside)) set noted world.old world.new result owner member }
{
    let changed = world.population.file_before(set, owner, member, beside);
    counted(world, changed, set, owner, noted)
}

// .. or directly after it.
#[inline(always)]
fn put_after(
    world: &mut World,
    set: usize,
    owner: i64,
    member: i64,
    beside: i64,
    noted: bool,
) -> Result<(), FaultKind>
    requires set { set < length world.old.heap.layout.sets }
    ensures { HasFiled (JustAfter (Whole beside)) set noted world.old world.new result owner member }
{
    let changed = world.population.file_after(set, owner, member, beside);
    counted(world, changed, set, owner, noted)
}

// A member is removed from the set of an owner.
#[inline(always)]
fn take_out(
    world: &mut World,
    set: usize,
    owner: i64,
    member: i64,
    noted: bool,
) -> Result<(), FaultKind>
    requires set { set < length world.old.heap.layout.sets }
    ensures { HasRemoved set noted world.old world.new result owner member }
{
    let changed = world.population.remove(set, owner, member);
    counted(world, changed, set, owner, noted)
}

// The first member is, which is the answer.
#[inline(always)]
fn take_first(world: &mut World, set: usize, owner: i64, noted: bool) -> Result<i64, FaultKind>
    requires set { set < length world.old.heap.layout.sets }
    ensures { HasTaken ends.First set noted world.old world.new result owner }
{
    let taken = world.population.remove_first(set, owner);
    counted_out(world, taken, set, owner, noted)
}

// .. or the last.
#[inline(always)]
fn take_last(world: &mut World, set: usize, owner: i64, noted: bool) -> Result<i64, FaultKind>
    requires set { set < length world.old.heap.layout.sets }
    ensures { HasTaken ends.Last set noted world.old world.new result owner }
{
    let taken = world.population.remove_last(set, owner);
    counted_out(world, taken, set, owner, noted)
}

impl State {
    /// FirstMember, LastMember and MemberCount.
    #[inline]
    pub fn of_set(
        &mut self,
        here: Here,
        query: SetQuery,
        set: u32,
        owner: &Address,
        to: &Address,
    ) -> Option<()>
        requires { Can here self.old (asking_set query set owner.now to.now) }
        ensures { HasDone here self.old self.new (on_after here result) (asking_set query set owner.now to.now) }
    {
        let owner = self.number(here, owner);
        let answer = ask_set(&mut self.world, query, set as usize, owner);
        self.put(here, to, answer)
    }

    /// Predecessor, Successor and Membership.
    #[inline]
    pub fn of_member(
        &mut self,
        here: Here,
        query: MemberQuery,
        set: u32,
        member: &Address,
        to: &Address,
    ) -> Option<()>
        requires { Can here self.old (asking_member query set member.now to.now) }
        ensures { HasDone here self.old self.new (on_after here result) (asking_member query set member.now to.now) }
    {
        let member = self.number(here, member);
        let answer = ask_member(&mut self.world, query, set as usize, member);
        self.put(here, to, answer)
    }

    /// FileFirst.
    #[inline]
    pub fn file_first(
        &mut self,
        here: Here,
        set: u32,
        member: &Address,
        owner: &Address,
        noted: bool,
    ) -> Option<()>
        requires { Can here self.old (Instruction.FileFirst set member.now owner.now noted) }
        ensures { HasDone here self.old self.new (on_after here result) (Instruction.FileFirst set member.now owner.now noted) }
    {
        let member = self.number(here, member);
        let owner = self.number(here, owner);
        let answer = put_first(&mut self.world, set as usize, owner, member, noted);
        self.done(answer)
    }

    /// FileLast.
    #[inline]
    pub fn file_last(
        &mut self,
        here: Here,
        set: u32,
        member: &Address,
        owner: &Address,
        noted: bool,
    ) -> Option<()>
        requires { Can here self.old (Instruction.FileLast set member.now owner.now noted) }
        ensures { HasDone here self.old self.new (on_after here result) (Instruction.FileLast set member.now owner.now noted) }
    {
        let member = self.number(here, member);
        let owner = self.number(here, owner);
        let answer = put_last(&mut self.world, set as usize, owner, member, noted);
        self.done(answer)
    }

    /// FileRanked.
    #[inline]
    pub fn file_ranked(
        &mut self,
        here: Here,
        set: u32,
        member: &Address,
        owner: &Address,
        noted: bool,
    ) -> Option<()>
        requires { Can here self.old (Instruction.FileRanked set member.now owner.now noted) }
        ensures { HasDone here self.old self.new (on_after here result) (Instruction.FileRanked set member.now owner.now noted) }
    {
        let member = self.number(here, member);
        let owner = self.number(here, owner);
        let answer = put_ranked(&mut self.world, set as usize, owner, member, noted);
        self.done(answer)
    }

    /// FileBeside, before a member.
    #[inline]
    pub fn file_before(
        &mut self,
        here: Here,
        filing: Filing,
        member: &Address,
        beside: &Address,
        owner: &Address,
    ) -> Option<()>
        requires { Can here self.old (Instruction.FileBeside filing.noted false filing.set member.now beside.now owner.now) }
        ensures { HasDone here self.old self.new (on_after here result) (Instruction.FileBeside filing.noted false filing.set member.now beside.now owner.now) }
    {
        let member = self.number(here, member);
        let beside = self.number(here, beside);
        let owner = self.number(here, owner);
        let answer = put_before(
            &mut self.world,
            filing.set as usize,
            owner,
            member,
            beside,
            filing.noted,
        );
        self.done(answer)
    }

    /// FileBeside, after a member.
    #[inline]
    pub fn file_after(
        &mut self,
        here: Here,
        filing: Filing,
        member: &Address,
        beside: &Address,
        owner: &Address,
    ) -> Option<()>
        requires { Can here self.old (Instruction.FileBeside filing.noted true filing.set member.now beside.now owner.now) }
        ensures { HasDone here self.old self.new (on_after here result) (Instruction.FileBeside filing.noted true filing.set member.now beside.now owner.now) }
    {
        let member = self.number(here, member);
        let beside = self.number(here, beside);
        let owner = self.number(here, owner);
        let answer = put_after(
            &mut self.world,
            filing.set as usize,
            owner,
            member,
            beside,
            filing.noted,
        );
        self.done(answer)
    }

    /// Remove.
    #[inline]
    pub fn remove(
        &mut self,
        here: Here,
        set: u32,
        member: &Address,
        owner: &Address,
        noted: bool,
    ) -> Option<()>
        requires { Can here self.old (Instruction.Remove set member.now owner.now noted) }
        ensures { HasDone here self.old self.new (on_after here result) (Instruction.Remove set member.now owner.now noted) }
    {
        let member = self.number(here, member);
        let owner = self.number(here, owner);
        let answer = take_out(&mut self.world, set as usize, owner, member, noted);
        self.done(answer)
    }

    /// RemoveFirst.
    #[inline]
    pub fn remove_first(
        &mut self,
        here: Here,
        set: u32,
        owner: &Address,
        to: &Address,
        noted: bool,
    ) -> Option<()>
        requires { Can here self.old (Instruction.RemoveFirst set owner.now to.now noted) }
        ensures { HasDone here self.old self.new (on_after here result) (Instruction.RemoveFirst set owner.now to.now noted) }
    {
        let owner = self.number(here, owner);
        match take_first(&mut self.world, set as usize, owner, noted) {
            Ok(member) => self.put(here, to, Ok(member)),
            Err(kind) => self.fault(kind),
        }
    }

    /// RemoveLast.
    #[inline]
    pub fn remove_last(
        &mut self,
        here: Here,
        set: u32,
        owner: &Address,
        to: &Address,
        noted: bool,
    ) -> Option<()>
        requires { Can here self.old (Instruction.RemoveLast set owner.now to.now noted) }
        ensures { HasDone here self.old self.new (on_after here result) (Instruction.RemoveLast set owner.now to.now noted) }
    {
        let owner = self.number(here, owner);
        match take_last(&mut self.world, set as usize, owner, noted) {
            Ok(member) => self.put(here, to, Ok(member)),
            Err(kind) => self.fault(kind),
        }
    }
}
