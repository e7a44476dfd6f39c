//! The rows that a call or a tick puts: hosts, instances, the columns counted from them, and classes that were granted.

ghost use Rattle.std.specs.Prelude.{◌≡◌, ◌++◌, [], IfOk, OnOk};
ghost use Rattle.std.specs.List.{list_all};
ghost use Rattle.sched_book.specs.Delta.{edited};
ghost use Rattle.sched_book.specs.Trusted.{Trusted};
ghost use Rattle.call_working_set.specs.WorkingSets.{IsCallStateOf};
ghost use Rattle.table_worlds.specs.Changes.{AreChanges};
ghost use Rattle.table_worlds.specs.Readable.{IsReadable, are_words, gives_words};
ghost use Rattle.table_changes.specs.Touching.{AreTouched};
ghost use Rattle.texts.specs.Words.{is_word as spec_word};

use crate::hosts::push_hosts;
use crate::instances::push_instances;
use crate::marks::push_marks;
use crate::touched::{Touched, touched_by};
use crate::units::push_units;
use call_working_set::{CallState, WorkingSet, put_all};
use sched_book::{Cause, Desk, Edit, Edits, Invariant, Unavailable};
use std::alloc::Global;
use table_meaning::rows::RowChange;
use texts::{Listed, Text, is_word};

fn is_word_text(text: &Text) -> bool
    ensures { result ≡ spec_word text.now }
{
    is_word(text.as_str().as_bytes())
}

/// Whether each of these is a word.
fn are_all_words(words: &[Text]) -> bool
    ensures { result ≡ list_all spec_word words.now }
{
    words.iter().all(is_word_text)
}

/// Whether these are words, at least one.
fn are_words(words: &[Text]) -> bool
    ensures { result ≡ are_words words.now }
{
    1 <= words.len() && are_all_words(words)
}

/// Whether the platforms that an edit gives to a host are words, at least one. Other edits give none.
fn gives_words(edit: &Edit) -> bool
    ensures { result ≡ gives_words edit.now }
{
    match edit {
        Edit::Host { row, .. } => are_words(row.platforms.as_slice()),
        Edit::Instance { .. } | Edit::Class { .. } => true,
    }
}

/// Whether all platforms that edits give to hosts are words.
fn give_words(edits: &[Edit]) -> bool
    ensures { result ≡ list_all gives_words edits.now }
{
    edits.iter().all(gives_words)
}

/// Makes the edits in a call state. Each must be at an existing place or at the next one.
fn put_onto<D: Desk>(
    alloc: Global,
    desk: &mut D,
    call_state: &mut CallState,
    edits: &Edits,
) -> Result<(), Unavailable>
    ensures reads { D.reads desk.old desk.new }
    ensures call_state { Trusted D.Units desk.old desk.new (IsCallStateOf (D.world desk.old) call_state.old → IsCallStateOf (D.world desk.old) call_state.new) }
    ensures edits { OnOk result (call_state.new.edits ≡ call_state.old.edits ++ edits.now) }
{
    let mut working_set = WorkingSet { desk, call_state };
    put_all(alloc, &mut working_set, edits.as_slice())
}

/// The state of a call that started from the desk's world and makes these edits. Each of its workunits is decided.
fn call_state_of<D: Desk>(
    alloc: Global,
    desk: &mut D,
    edits: &Edits,
) -> Result<CallState, Unavailable>
    ensures reads { D.reads desk.old desk.new }
    ensures call_state { Trusted D.Units desk.old desk.new (IfOk result (IsCallStateOf (D.world desk.old))) }
    ensures edits { IfOk result (λ call_state. call_state.edits ≡ edits.now) }
{
    let settings = desk.settings(alloc)?;
    let mut call_state = CallState::new(alloc, settings);
    put_onto(alloc, desk, &mut call_state, edits)?;
    call_state.decide_all(alloc)?;
    Ok(call_state)
}

/// Appends the rows that the call state's edits touch: workunits, their marks, hosts, then instances.
fn push_rows<D: Desk>(
    alloc: Global,
    desk: &mut D,
    call_state: &CallState,
    touched: &Touched,
    rows: &mut Listed<RowChange>,
) -> Result<(), Unavailable>
    ensures reads { D.reads desk.old desk.new }
    ensures rows { Trusted D.Units desk.old desk.new (IsCallStateOf (D.world desk.old) call_state.now → AreTouched call_state.now touched.now → rows.old ≡ []
        → OnOk result (AreChanges (D.world desk.old) (edited (D.world desk.old) call_state.now.edits) rows.new)) }
{
    push_units(alloc, desk, call_state, touched.units.as_slice(), rows)?;
    push_marks(call_state, touched.units.as_slice(), rows)?;
    push_hosts(alloc, desk, call_state, touched, rows)?;
    push_instances(call_state, touched.units.as_slice(), rows)
}

/// The rows that the edits of a call state put.
fn rows_of_call_state<D: Desk>(
    alloc: Global,
    desk: &mut D,
    call_state: &CallState,
) -> Result<Listed<RowChange>, Unavailable>
    ensures reads { D.reads desk.old desk.new }
    ensures rows { Trusted D.Units desk.old desk.new (IsCallStateOf (D.world desk.old) call_state.now →
        IfOk result (AreChanges (D.world desk.old) (edited (D.world desk.old) call_state.now.edits))) }
{
    let touched = touched_by(alloc, call_state)?;
    let mut rows = Listed::new(alloc);
    push_rows(alloc, desk, call_state, &touched, &mut rows)?;
    Ok(rows)
}

/// The rows that the edits of a call put: workunits, marks, hosts and instances.
pub(crate) fn rows_of_call<D: Desk>(
    alloc: Global,
    desk: &mut D,
    edits: &Edits,
) -> Result<Listed<RowChange>, Unavailable>
    ensures reads { D.reads desk.old desk.new }
    ensures rows { Trusted D.Units desk.old desk.new (
        IfOk result (AreChanges (D.world desk.old) (edited (D.world desk.old) edits.now))) }
    ensures readable { Trusted D.Units desk.old desk.new (IsReadable (D.world desk.old) →
        IfOk result (λ rows. IsReadable (edited (D.world desk.old) edits.now))) }
{
    if !give_words(edits.as_slice()) {
        return Err(Unavailable(Cause::Broken(Invariant::WordsOfEdits)));
    }
    let call_state = call_state_of(alloc, desk, edits)?;
    rows_of_call_state(alloc, desk, &call_state)
}
