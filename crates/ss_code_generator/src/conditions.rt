//! The code of conditions: it goes on where they hold, and jumps where they do not.

ghost use Rattle.std.specs.Prelude.{◌≡◌, ◌+◌, ◌∷◌, [], ◌++◌, length, map, IfOk, OnOk};
ghost use Rattle.std.specs.List.{AllByRecursion as Every};
ghost use Rattle.ss_program.specs.View.{view_test, view_conjunction, view_condition, view_guard, view_phrase};
ghost use Rattle.ss_program.specs.WellTyped.{IsTypedTest, IsTypedCondition, IsTypedPhrase};
ghost use Rattle.ss_code_instructions.specs.Instructions.{Jump};
ghost use Rattle.ss_code_instructions.specs.Translation.{place, test_code, tests_code, condition_code, negated_code, guard_code, guards_code, phrase_code, phrases_code};
ghost use Rattle.ss_code_instructions.specs.Forms.{comparing_numbers, comparing};
ghost use Rattle.ss_code_pieces.specs.Lined.{no_code};
ghost use Rattle.ss_code_generator.specs.Emitted.{HasEmitted, HasEmittedAround};

use crate::generator::{Generator, Site};
use ss_base::Mode;
use ss_code_instructions::address::Address;
use ss_code_instructions::instruction::Instruction;
use ss_code_pieces::backward::Backward;
use ss_code_pieces::facts::expression_mode;
use ss_code_pieces::leaves::owner_may_fault;
use ss_code_pieces::piece::{Piece, as_index};
use ss_program::condition::{Condition, Conjunction, Relation, Test};
use ss_program::head::{Guard, GuardKind, Phrase, PhraseKind};
use std::alloc::AllocError;

// Two numbers are compared.
fn unless(relation: Relation, left: Address, right: Address, skip: u32) -> Instruction
    ensures { result ≡ comparing_numbers relation left right skip }
{
    match relation {
        Relation::Equal => Instruction::UnlessEqual { left, right, skip },
        Relation::NotEqual => Instruction::UnlessNotEqual { left, right, skip },
        Relation::Less => Instruction::UnlessLess { left, right, skip },
        Relation::Greater => Instruction::UnlessGreater { left, right, skip },
        Relation::LessOrEqual => Instruction::UnlessLessOrEqual { left, right, skip },
        Relation::GreaterOrEqual => Instruction::UnlessGreaterOrEqual { left, right, skip },
    }
}

// Two values of a mode are compared.
fn compare(mode: Mode, relation: Relation, left: Address, right: Address, skip: u32) -> Instruction
    ensures { result ≡ comparing mode relation left right skip }
{
    match mode {
        Mode::Integer => unless(relation, left, right, skip),
        Mode::Alpha => Instruction::UnlessTexts {
            left,
            right,
            skip,
            relation,
        },
    }
}

impl Generator<'_> {
    // A test, which jumps where it does not hold.
    fn test(
        &mut self,
        code: &mut Piece,
        site: Site,
        skip: u32,
        test: &Test,
    ) -> Result<(), AllocError>
        ensures { OnOk result (HasEmitted self.old self.new code.old code.new site (λ s. IsTypedTest s (view_test test.now)) (λ t. test_code t skip (view_test test.now))) }
    {
        match test {
            Test::Compare {
                relation,
                left,
                right,
            } => {
                let mode = expression_mode(self.program, &self.locals, left);
                let left = self.operand(code, site, left)?;
                let right = self.operand(code, site.above(left.cells), right)?.address;
                code.put(
                    site.line,
                    compare(mode, *relation, left.address, right, skip),
                )
            }
            Test::DataEnded { negated } => {
                let negated = *negated;
                code.put(site.line, Instruction::UnlessEnded { skip, negated })?;
                Ok(())
            }
            Test::Empty {
                negated,
                set,
                owner,
            } => {
                let owner = self.owner(code, site, owner)?.address;
                let (set, negated) = (as_index(*set)?, *negated);
                code.put(
                    site.line,
                    Instruction::UnlessEmpty {
                        set,
                        owner,
                        skip,
                        negated,
                    },
                )
            }
            Test::Member {
                negated,
                set,
                member,
                owner,
            } => {
                let member = self.member(code, site, *set, member, owner_may_fault(owner))?;
                let owner = self.owner(code, site.above(member.cells), owner)?.address;
                let (set, negated) = (as_index(*set)?, *negated);
                code.put(
                    site.line,
                    Instruction::UnlessMember {
                        set,
                        member: member.address,
                        owner,
                        skip,
                        negated,
                    },
                )
            }
        }
    }

    // Tests that all must hold, the last of them first.
    fn tests(&mut self, site: Site, skip: u32, tests: &[Test]) -> Result<Piece, AllocError>
        ensures { IfOk result (λ code. HasEmitted self.old self.new no_code code site (λ s. Every (IsTypedTest s) (map view_test tests.now)) (λ t. tests_code t skip (map view_test tests.now))) }
    {
        let mut rest = Backward::new(self.alloc);
        for i in (0..tests.len()).rev() {
            let past = as_index(rest.len() + skip as usize)?;
            let mut front = Piece::new(self.alloc);
            self.test(&mut front, site, past, &tests[i])?;
            rest.put_before(front)?;
        }
        Ok(rest.into_piece())
    }

    /// A jump.
    pub fn jump(&self, site: Site, skip: u32) -> Result<Piece, AllocError>
        ensures { IfOk result (λ code. HasEmitted self.now self.now no_code code site (λ s. Unit {0}) (λ t. place t (Jump skip) ∷ [])) }
    {
        let mut code = Piece::new(self.alloc);
        code.put(site.line, Instruction::Jump { skip })?;
        Ok(code)
    }

    // Alternatives of which one must hold, the last of them first.
    fn alternatives(
        &mut self,
        site: Site,
        skip: u32,
        alternatives: &[Conjunction],
    ) -> Result<Piece, AllocError>
        ensures { IfOk result (λ code. HasEmitted self.old self.new no_code code site (λ s. IsTypedCondition s (map view_conjunction alternatives.now)) (λ t. condition_code t skip (map view_conjunction alternatives.now))) }
    {
        let count = alternatives.len();
        if count == 0 {
            return self.jump(site, skip);
        }
        let last = self.tests(site, skip, &alternatives[count - 1].tests)?;
        let mut rest = Backward::of(last);
        for i in (0..count - 1).rev() {
            let mut front = self.tests(site, 1, &alternatives[i].tests)?;
            let past = as_index(rest.len())?;
            front.put(site.line, Instruction::Jump { skip: past })?;
            rest.put_before(front)?;
        }
        Ok(rest.into_piece())
    }

    /// A condition, which jumps where it does not hold.
    pub fn condition(
        &mut self,
        site: Site,
        skip: u32,
        condition: &Condition,
    ) -> Result<Piece, AllocError>
        ensures { IfOk result (λ code. HasEmitted self.old self.new no_code code site (λ s. IsTypedCondition s (view_condition condition.now)) (λ t. condition_code t skip (view_condition condition.now))) }
    {
        self.alternatives(site, skip, &condition.alternatives)
    }

    // A condition, which jumps where it holds.
    fn negated(&mut self, site: Site, skip: u32, condition: &Condition) -> Result<Piece, AllocError>
        ensures { IfOk result (λ code. HasEmitted self.old self.new no_code code site (λ s. IsTypedCondition s (view_condition condition.now)) (λ t. negated_code t skip (view_condition condition.now))) }
    {
        let mut code = self.condition(site, 1, condition)?;
        code.put(site.line, Instruction::Jump { skip })?;
        Ok(code)
    }

    // A guard of a loop.
    fn guard(&mut self, site: Site, skip: u32, guard: &Guard) -> Result<Piece, AllocError>
        ensures { IfOk result (λ code. HasEmitted self.old self.new no_code code site (λ s. IsTypedCondition s (view_condition guard.now.condition)) (λ t. guard_code t skip guard.now.kind (view_condition guard.now.condition))) }
    {
        match guard.kind {
            GuardKind::While => self.condition(site, skip, &guard.condition),
            GuardKind::Until => self.negated(site, skip, &guard.condition),
        }
    }

    /// The guards of a loop before what follows them, the last of them first. Where one fails it goes on after that, or after so
    /// many instructions more.
    pub fn guards(
        &mut self,
        site: Site,
        more: u32,
        guards: &[Guard],
        following: Piece,
    ) -> Result<Piece, AllocError>
        ensures { IfOk result (λ code. HasEmittedAround self.old self.new no_code code site following (λ s. Every (λ g. IsTypedCondition s g.condition) (map view_guard guards.now)) (λ t b. guards_code t (length b + more) (map view_guard guards.now) ++ b)) }
    {
        let mut rest = Backward::of(following);
        for i in (0..guards.len()).rev() {
            let past = as_index(rest.len() + more as usize)?;
            let front = self.guard(site, past, &guards[i])?;
            rest.put_before(front)?;
        }
        Ok(rest.into_piece())
    }

    // A phrase before the rest of a turn, of so many instructions.
    fn phrase(&mut self, site: Site, rest: u32, phrase: &Phrase) -> Result<Piece, AllocError>
        ensures { IfOk result (λ code. HasEmitted self.old self.new no_code code site (λ s. IsTypedCondition s (view_condition phrase.now.condition)) (λ t. phrase_code t rest phrase.now.kind (view_condition phrase.now.condition))) }
    {
        let condition = &phrase.condition;
        let past = as_index(rest as usize + 1)?;
        match phrase.kind {
            PhraseKind::With => self.condition(site, rest, condition),
            PhraseKind::Unless => self.negated(site, rest, condition),
            PhraseKind::While => self.condition(site, past, condition),
            PhraseKind::Until => self.negated(site, past, condition),
        }
    }

    /// The phrases before a turn, the last of them first.
    pub fn phrases(
        &mut self,
        site: Site,
        phrases: &[Phrase],
        turn: Piece,
    ) -> Result<Piece, AllocError>
        ensures { IfOk result (λ code. HasEmittedAround self.old self.new no_code code site turn (λ s. Every (IsTypedPhrase s) (map view_phrase phrases.now)) (λ t b. phrases_code t (map view_phrase phrases.now) b)) }
    {
        let mut rest = Backward::of(turn);
        for i in (0..phrases.len()).rev() {
            let past = as_index(rest.len())?;
            let front = self.phrase(site, past, &phrases[i])?;
            rest.put_before(front)?;
        }
        Ok(rest.into_piece())
    }
}
