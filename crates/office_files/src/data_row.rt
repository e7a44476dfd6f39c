//! A data row of an import, read column by column.

ghost use Rattle.std.specs.Prelude.{◌≡◌, ◌≤◌, ◌<◌, IfOk, IsTrue, None};
ghost use Rattle.csv.specs.Records.{fields_of};
ghost use Rattle.texts.specs.Words.{IsWord};
ghost use Rattle.sched_book.specs.Classes.{class_of, first_rule};
ghost use Rattle.sched_book.specs.Limits.{most_distance, is_user_name, distance_of};
ghost use Rattle.office_files.specs.Columns.{name_in, count_within, agreement_in, rule_in};
ghost use Rattle.office_files.specs.Faults.{GivesReading};
ghost use Rattle.office_files.specs.Importing.{column_of, column_or};
ghost use Rattle.sched_book.specs.declared.rows.ClassRule.TheVariants.{Any};
ghost use Rattle.texts.specs.Words as words;

use crate::columns;
use crate::fault::RowsFault;
use csv::ByteRecord;
use sched_book::{Agreement, ClassRule};
use std::alloc::Global;
use texts::{Text, word_of};

/// A data row of an import, which is read column by column. Columns count from 1.
#[derive(Clone, Copy)]
pub(crate) struct DataRow<'a> {
    /// Its number, which counts from 1.
    pub(crate) number: u64,
    pub(crate) record: &'a ByteRecord,
}

impl<'a> DataRow<'a> {
    fn fault(&self, column: usize) -> RowsFault
        ensures { result ≡ RowsFault.BadCsv self.now.number column }
    {
        RowsFault::BadCsv {
            row: self.number,
            column: column as u64,
        }
    }

    /// The word in a column.
    #[tactic(auto, unfolding(crate::specs::Importing::column_of))]
    pub(crate) fn word(&self, alloc: Global, column: usize) -> Result<Text, RowsFault>
        requires { 1 ≤ column }
        ensures said { GivesReading result (column_of self.now.number column words.word_of (fields_of self.now.record.now)) }
        ensures range { IfOk result IsWord }
    {
        let word = self
            .record
            .get(column - 1)
            .and_then(word_of)
            .ok_or(self.fault(column))?;
        Ok(Text::copied(alloc, word)?)
    }

    /// The word in a column, or this one if the row is too short for it.
    #[tactic(auto, unfolding(crate::specs::Importing::column_or))]
    pub(crate) fn word_or(
        &self,
        alloc: Global,
        column: usize,
        other: &Text,
    ) -> Result<Text, RowsFault>
        requires { 1 ≤ column }
        ensures said { GivesReading result (column_or self.now.number column words.word_of other.now (fields_of self.now.record.now)) }
        ensures range { IsWord other.now → IfOk result IsWord }
    {
        if column <= self.record.len() {
            self.word(alloc, column)
        } else {
            Ok(Text::copied(alloc, other.as_str())?)
        }
    }

    /// The name of an account in a column.
    #[tactic(auto, unfolding(crate::specs::Importing::column_of))]
    pub(crate) fn name(&self, alloc: Global, column: usize) -> Result<Text, RowsFault>
        requires { 1 ≤ column }
        ensures said { GivesReading result (column_of self.now.number column name_in (fields_of self.now.record.now)) }
        ensures range { IfOk result (λ name. IsTrue (is_user_name name)) }
    {
        let name = self
            .record
            .get(column - 1)
            .and_then(columns::name_in)
            .ok_or(self.fault(column))?;
        Ok(Text::copied(alloc, name)?)
    }

    /// How outputs are compared, as a column says.
    #[tactic(auto, unfolding(crate::specs::Importing::column_of))]
    pub(crate) fn agreement(&self, column: usize) -> Result<Agreement, RowsFault>
        requires { 1 ≤ column }
        ensures said { GivesReading result (column_of self.now.number column agreement_in (fields_of self.now.record.now)) }
        ensures range { IfOk result (λ agreement. distance_of agreement ≤ most_distance) }
    {
        self.record
            .get(column - 1)
            .and_then(columns::agreement_in)
            .ok_or(self.fault(column))
    }

    /// Which versions may do a workunit, as the mark in a column says. If the row is too short for it, the workunit is
    /// not marked.
    #[tactic(auto, unfolding(crate::specs::Importing::column_of, crate::specs::Importing::column_or))]
    pub(crate) fn rule(&self, column: usize) -> Result<ClassRule, RowsFault>
        requires { 1 ≤ column }
        ensures said { GivesReading result (column_or self.now.number column rule_in Any (fields_of self.now.record.now)) }
        ensures first { IfOk result (λ rule. (class_of rule ≡ None) × (first_rule rule ≡ rule)) }
    {
        if self.record.len() < column {
            return Ok(ClassRule::Any);
        }
        self.record
            .get(column - 1)
            .and_then(columns::rule_in)
            .ok_or(self.fault(column))
    }

    /// The number from `least` to `most` in a column.
    #[tactic(auto, unfolding(crate::specs::Importing::column_of))]
    pub(crate) fn number(&self, column: usize, least: u64, most: u64) -> Result<u64, RowsFault>
        requires { 1 ≤ column }
        ensures said { GivesReading result (column_of self.now.number column (count_within least most) (fields_of self.now.record.now)) }
        ensures range { IfOk result (λ n. (least ≤ n) × (n ≤ most)) }
    {
        self.record
            .get(column - 1)
            .and_then(|field| columns::number_in(field, least, most))
            .ok_or(self.fault(column))
    }

    /// The same for a number of 32 bits.
    pub(crate) fn small(&self, column: usize, least: u32, most: u32) -> Result<u32, RowsFault>
        requires { 1 ≤ column }
        ensures said { GivesReading result (column_of self.now.number column (count_within least most) (fields_of self.now.record.now)) }
        ensures range { IfOk result (λ n. (least ≤ n) × (n ≤ most)) }
    {
        Ok(self.number(column, u64::from(least), u64::from(most))? as u32)
    }
}
