//! The code of PRINT.

ghost use Rattle.std.specs.Prelude.{◌≡◌, ◌+◌, ◌≤◌, map, IfOk, OnOk};
ghost use Rattle.std.specs.List.{AllByRecursion as Every};
ghost use Rattle.ss_program.specs.View.{view_item};
ghost use Rattle.ss_code_instructions.specs.Translation.{item_code, items_code, after_items, height};
ghost use Rattle.ss_code_pieces.specs.Preamble.{scope_for_modes};
ghost use Rattle.ss_code_generator.specs.Items.{running_kind, item_width, IsTypedItem};
ghost use Rattle.ss_code_generator.specs.Printed.{HasPrintedLines};
ghost use Rattle.ss_code_generator.specs.Emitted.{HasGenerated, HasEmitted};

use crate::generator::{Generator, Site};
use ss_base::Mode;
use ss_code_instructions::instruction::Instruction;
use ss_code_instructions::item::ItemKind;
use ss_code_pieces::facts::expression_mode;
use ss_code_pieces::lines::Lines;
use ss_code_pieces::piece::{Piece, as_index};
use ss_program::statement::PrintItem;
use std::alloc::AllocError;

impl Generator<'_> {
    // An item: the value or reference that it takes goes into the next cell, and a mean is looked at. It answers how many cells
    // that takes.
    fn item(&mut self, code: &mut Piece, site: Site, item: &PrintItem) -> Result<usize, AllocError>
        ensures code { IfOk result (λ n. HasEmitted self.old self.new code.old code.new site (IsTypedItem (view_item item.now)) (λ t. item_code t (view_item item.now))) }
        ensures width { IfOk result (λ n. n ≡ item_width (view_item item.now)) }
        ensures room { IfOk result (λ n. site.height + n ≤ self.new.deepest) }
    {
        self.reach(site.height);
        match item {
            PrintItem::Value { value } => {
                self.push(code, site, value)?;
                Ok(1)
            }
            PrintItem::Mean { statistic } => {
                let entity = self.zero()?;
                let statistic = as_index(*statistic)?;
                code.put(site.line, Instruction::LookMean { statistic, entity })?;
                Ok(0)
            }
            PrintItem::MeanOf { statistic, entity } => {
                self.push(code, site, entity)?;
                let entity = self.cell(site)?;
                let statistic = as_index(*statistic)?;
                code.put(site.line, Instruction::LookMean { statistic, entity })?;
                Ok(1)
            }
        }
    }

    // Items, one after the other. It answers where the code goes on.
    fn items(&mut self, code: &mut Piece, site: Site, items: &[PrintItem]) -> Result<(), AllocError>
        ensures { OnOk result (HasGenerated self.old self.new code.old code.new site (λ f t (u : Unit {0}). Every (λ x. IsTypedItem x t.scope) (map view_item items.now)) (λ t u. items_code t (map view_item items.now)) (λ f t u. height (after_items t (map view_item items.now)) ≤ f.depth)) }
    {
        self.reach(site.height);
        let mut here = site;
        for item in items {
            let cells = self.item(code, here, item)?;
            here = here.above(cells);
        }
        Ok(())
    }

    // What an item is.
    fn item_kind(&self, item: &PrintItem) -> ItemKind
        ensures { result ≡ running_kind (scope_for_modes self.now.program.now self.now.locals.items) (view_item item.now) }
    {
        match item {
            PrintItem::Value { value } => match expression_mode(self.program, &self.locals, value) {
                Mode::Integer => ItemKind::Number,
                Mode::Alpha => ItemKind::Text,
            },
            PrintItem::Mean { statistic } => ItemKind::Mean {
                statistic: *statistic,
            },
            PrintItem::MeanOf { statistic, .. } => ItemKind::MeanOf {
                statistic: *statistic,
            },
        }
    }

    // What items are.
    fn item_kinds(&self, items: &[PrintItem]) -> Result<Vec<ItemKind>, AllocError>
        ensures { IfOk result (λ kinds. kinds.items ≡ map (running_kind (scope_for_modes self.now.program.now self.now.locals.items)) (map view_item items.now)) }
    {
        let mut kinds = Vec::new(self.alloc);
        for item in items {
            let kind = self.item_kind(item);
            kinds.push(kind)?;
        }
        Ok(kinds)
    }

    /// PRINT.
    pub fn print(
        &mut self,
        code: &mut Piece,
        prints: &mut Vec<Lines>,
        site: Site,
        items: &[PrintItem],
        pictures: &[Vec<u8>],
    ) -> Result<(), AllocError>
        ensures { OnOk result (HasPrintedLines self.old self.new code.old code.new site prints.old.items prints.new.items (map view_item items.now) (map (λ line. line.items) pictures.now)) }
    {
        let kinds = self.item_kinds(items)?;
        let made = Lines::of(self.alloc, kinds, pictures)?;
        let lines = as_index(prints.len())?;
        prints.push(made)?;
        self.items(code, site, items)?;
        let cell = self.place_of(site)?;
        code.put(site.line, Instruction::Print { lines, cell })
    }
}
