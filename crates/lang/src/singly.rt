//! Reads a document with a tree of one object or of one step at a time, to its end or its first fault.
//!
//! The text is known to write the document, and its own shape has no fault (`document`). So what follows
//! a fault isn't read.
ghost use Rattle.std.specs.Prelude.{◌≡◌, ◌<◌, ◌≤◌, ◌-◌, ◌++◌, ◌∷◌, [], codes, List, Some, map, length, IfErr, IfOk, MatchResult, OnOk};
ghost use Rattle.json.specs.Json.{value};
ghost use Rattle.json.specs.Token as token;
ghost use Rattle.serde_json.specs.Data.{Data, Items, array};
ghost use Rattle.serde_json.specs.Events.{items_len};
ghost use Rattle.serde_json.specs.Read.{converted, of_json};
ghost use Rattle.batch.specs.Names.{texts_of};
ghost use Rattle.batch.specs.Views.{block_view, step_view};
ghost use Rattle.doc_rules.specs.Limits.{limits_of};
ghost use Rattle.doc_tree.specs.Answer.{AreMet};
ghost use Rattle.doc_tree.specs.Asked.{declared_by, kind_in, object_name, objects_in, part, scope_after, setting_in, transactions_in, version_in};
ghost use Rattle.doc_tree.specs.Demand.{no_counts};
ghost use Rattle.doc_tree.specs.Places.{block_placed, object_placed, objects_placed, placed, step_placed, transaction_placed, transactions_placed};
ghost use Rattle.doc_tree.specs.Scope.{numbers_of, scope_of, setting_of};
ghost use Rattle.doc_tree.specs.Spelled.{block_of, blocks_of, parts_in, spelled, start_of, starts_of, step_of};
ghost use Rattle.doc_tokens.specs.Pulled.{ReadsValue, StopsFor, WritesItems};
ghost use Rattle.lang.specs.Found.{IsFirstIn, IsKnown};
ghost use Rattle.meaning.specs.declared.limits.TheConstants.{MAX_DEPTH};

use crate::misread::{Misread, misread_of};
use batch::{Block, Step};
use doc_rules::{Limits, Rule, ShapeRule};
use doc_tokens::members::pass_to_list;
use doc_tokens::notes::{Notes, version_or_first};
use doc_tokens::pull::{PART_DEPTH, pull_value, value_from};
use doc_tokens::stop::Stop;
use doc_tree::counts::Counts;
use doc_tree::declared::{Declared, Parts};
use doc_tree::hashing::TextSet;
use doc_tree::labels::leave_block;
use doc_tree::starts::read_object;
use doc_tree::state::{Numbering, ReaderState};
use doc_tree::steps::read_step;
use indexmap::IndexSet;
use json::{Reader, Scratch, Token};
use meaning::limits::MAX_DEPTH;
use objects::{Objects, Value as ObjectValue};
use std::alloc::Global;

/// The value of the next object, by a tree of it alone, or its first fault. Its name joins these.
fn one_object(
    alloc: Global,
    reader: &mut Reader<'_>,
    version: u8,
    names: &mut TextSet,
    counts: &mut Counts,
    numbering: &mut Numbering,
) -> Result<Result<ObjectValue, Misread>, Stop>
    ensures ok { IfOk result (λ answer. (d : Data) × ReadsValue 125 reader.old d reader.new
        × MatchResult answer (λ start.
        AreMet counts.old (object_placed version (texts_of names.old.keys) d) counts.new
        × ((start, numbers_of numbering.new)
        ≡ start_of (kind_in version d) (numbers_of numbering.old) (part (codes "start") d))
        × (texts_of names.new.keys ≡ texts_of names.old.keys ++ object_name d ∷ []))
        (IsFirstIn counts.old (object_placed version (texts_of names.old.keys) d) d)) }
    ensures err { IfErr result (λ stop. StopsFor stop (converted of_json (value 125
        reader.old))) }
{
    let value = pull_value(alloc, reader, PART_DEPTH)?;
    match read_object(alloc, &value, version, names, counts, numbering) {
        Ok(start) => Ok(Ok(start)),
        Err(unmet) => Ok(Err(misread_of(alloc, unmet, value)?)),
    }
}

/// The objects up to the end of their array, or their first fault.
fn each_object(
    alloc: Global,
    reader: &mut Reader<'_>,
    version: u8,
    counts: &mut Counts,
    numbering: &mut Numbering,
) -> Result<Result<Declared, Misread>, Stop>
    ensures ok { IfOk result (λ answer. (os : Items) (rest : List token.Token)
        → WritesItems 125 reader.old os rest → MatchResult answer (λ declared.
        AreMet counts.old (objects_placed version [] 0 os) counts.new
        × (setting_of declared ≡ declared_by version os)
        × ((declared.objects, numbers_of numbering.new)
        ≡ starts_of version (numbers_of numbering.old) os))
        (IsFirstIn counts.old (objects_placed version [] 0 os) (array os))) }
    ensures err { IfErr result (λ stop. (os : Items) (rest : List token.Token)
        → WritesItems 125 reader.old os rest → items_len os ≤ (limits_of version).objects
        → stop ≡ Stop.NoMemory) }
{
    let mut names = IndexSet::with_hasher(alloc, *numbering.items.hasher());
    let mut objects = Objects::new(alloc);
    let limits = Limits::of(version);
    while !reader.take_end_array() {
        if objects.len() >= limits.objects {
            return Err(Stop::OtherForm);
        }
        match one_object(alloc, reader, version, &mut names, counts, numbering)? {
            Ok(start) => objects.push(start)?,
            Err(inner) => {
                let misread = inner.in_item(alloc, objects.len())?;
                return Ok(Err(misread));
            }
        }
    }
    let declared = Declared::new(alloc, version, names, objects)?;
    Ok(Ok(declared))
}

/// The next step of a transaction, by a tree of it alone, or its first fault.
fn one_step(
    alloc: Global,
    reader: &mut Reader<'_>,
    declared: &Declared,
    state: &mut ReaderState,
) -> Result<Result<Step, Misread>, Stop>
    ensures ok { IfOk result (λ answer. (d : Data) × ReadsValue 124 reader.old d reader.new
        × MatchResult answer
        (λ step. AreMet state.old.counts (step_placed (block_placed (setting_of declared.now)
        (MAX_DEPTH - 1)) (setting_of declared.now) (scope_of state.old.labels.entries) d)
        state.new.counts
        × ((step_view step, numbers_of state.new.numbering)
        ≡ step_of (block_of (setting_of declared.now) (MAX_DEPTH - 1)) (setting_of declared.now)
        (scope_of state.old.labels.entries) (numbers_of state.old.numbering) d)
        × (scope_of state.new.labels.entries
        ≡ scope_after (setting_of declared.now) (scope_of state.old.labels.entries) d))
        (IsFirstIn state.old.counts (step_placed (block_placed (setting_of declared.now)
        (MAX_DEPTH - 1)) (setting_of declared.now) (scope_of state.old.labels.entries) d) d)) }
    ensures err { IfErr result (λ stop. StopsFor stop (converted of_json (value 124
        reader.old))) }
{
    let value = pull_value(alloc, reader, PART_DEPTH - 1)?;
    match read_step(alloc, &value, MAX_DEPTH - 1, declared, state) {
        Ok(step) => Ok(Ok(step)),
        Err(unmet) => {
            let misread = misread_of(alloc, unmet, value)?;
            Ok(Err(misread))
        }
    }
}

/// The steps of a transaction up to the end of their array, or their first fault.
fn each_step(
    alloc: Global,
    reader: &mut Reader<'_>,
    declared: &Declared,
    state: &mut ReaderState,
) -> Result<Result<Block, Misread>, Stop>
    requires { scope_of state.old.labels.entries ≡ [] }
    ensures ok { IfOk result (λ answer. (ds : Items) (rest : List token.Token)
        → WritesItems 124 reader.old ds rest → MatchResult answer
        (λ block. (reader.new ≡ rest)
        × AreMet state.old.counts (block_placed (setting_of declared.now) MAX_DEPTH []
        (array ds)) state.new.counts
        × ((block_view block, numbers_of state.new.numbering)
        ≡ block_of (setting_of declared.now) MAX_DEPTH [] (numbers_of state.old.numbering)
        (array ds)))
        (IsFirstIn state.old.counts (block_placed (setting_of declared.now) MAX_DEPTH []
        (array ds)) (array ds))) }
    ensures err { IfErr result (λ stop. (ds : Items) (rest : List token.Token)
        → WritesItems 124 reader.old ds rest → stop ≡ Stop.NoMemory) }
    ensures left { OnOk result (length reader.new ≤ length reader.old) }
    ensures scope { IfOk result (λ answer. OnOk answer (scope_of state.new.labels.entries
        ≡ [])) }
{
    let mut steps = Vec::new(alloc);
    while !reader.take_end_array() {
        match one_step(alloc, reader, declared, state)? {
            Ok(step) => steps.push(step)?,
            Err(inner) => {
                let misread = inner.in_item(alloc, steps.len())?;
                return Ok(Err(misread));
            }
        }
    }
    steps.shrink_to_fit();
    leave_block(&mut state.labels, 0);
    Ok(Ok(Block { steps }))
}

/// The next transaction, by trees of its steps, or its first fault.
fn one_transaction(
    alloc: Global,
    reader: &mut Reader<'_>,
    number: u32,
    declared: &Declared,
    state: &mut ReaderState,
) -> Result<Result<Block, Misread>, Stop>
    requires { scope_of state.old.labels.entries ≡ [] }
    ensures ok { IfOk result (λ answer. (d : Data) (rest : List token.Token)
        → converted of_json (value 125 reader.old) ≡ Some (d, rest) → MatchResult answer
        (λ block. (reader.new ≡ rest)
        × AreMet state.old.counts (transaction_placed number (setting_of declared.now) d)
        state.new.counts
        × ((block_view block, numbers_of state.new.numbering)
        ≡ block_of (setting_of declared.now) MAX_DEPTH [] (numbers_of state.old.numbering) d))
        (IsFirstIn state.old.counts (transaction_placed number (setting_of declared.now) d) d)) }
    ensures err { IfErr result (λ stop. (d : Data) (rest : List token.Token)
        → converted of_json (value 125 reader.old) ≡ Some (d, rest) → stop ≡ Stop.NoMemory) }
    ensures left { OnOk result (length reader.new < length reader.old) }
    ensures scope { IfOk result (λ answer. OnOk answer (scope_of state.new.labels.entries
        ≡ [])) }
{
    state.counts.transaction = number;
    let token = reader.next().ok_or(Stop::OtherForm)?;
    if let Token::BeginArray = token {
        return each_step(alloc, reader, declared, state);
    }
    Ok(Err(Misread {
        rule: Rule::Shape(ShapeRule::Block),
        transaction: number,
        pointer: String::new(alloc),
        part: value_from(alloc, token, reader, PART_DEPTH)?,
    }))
}

/// The transactions up to the end of their array, or their first fault.
fn each_transaction(
    alloc: Global,
    reader: &mut Reader<'_>,
    declared: &Declared,
    state: &mut ReaderState,
) -> Result<Result<Vec<Block>, Misread>, Stop>
    requires labels { scope_of state.old.labels.entries ≡ [] }
    ensures ok { IfOk result (λ answer. (ds : Items) (rest : List token.Token)
        → WritesItems 125 reader.old ds rest → MatchResult answer
        (λ blocks. AreMet state.old.counts (transactions_placed (setting_of declared.now) 0 ds)
        state.new.counts
        × ((map block_view blocks.items, numbers_of state.new.numbering)
        ≡ blocks_of (setting_of declared.now) (numbers_of state.old.numbering) ds))
        (IsFirstIn state.old.counts (transactions_placed (setting_of declared.now) 0 ds)
        (array ds))) }
    ensures err { IfErr result (λ stop. (ds : Items) (rest : List token.Token)
        → WritesItems 125 reader.old ds rest
        → items_len ds ≤ (limits_of declared.now.version).transactions
        → stop ≡ Stop.NoMemory) }
{
    let mut blocks = Vec::new(alloc);
    let mut number = 0;
    let limits = Limits::of(declared.version);
    while !reader.take_end_array() {
        if number as usize >= limits.transactions {
            return Err(Stop::OtherForm);
        }
        number += 1;
        match one_transaction(alloc, reader, number, declared, state)? {
            Ok(block) => blocks.push(block)?,
            Err(inner) => {
                let misread = inner.in_item(alloc, number as usize - 1)?;
                return Ok(Err(misread));
            }
        }
    }
    Ok(Ok(blocks))
}

/// The objects of a document, or their first fault below it.
fn objects_of(
    alloc: Global,
    text: &str,
    notes: &Notes,
    state: &mut ReaderState,
) -> Result<Result<Declared, Misread>, Stop>
    requires { state.old.counts ≡ no_counts }
    ensures ok { IfOk result (λ answer. (d : Data) → IsKnown text.now notes.now d
        → MatchResult answer (λ declared.
        AreMet no_counts (objects_placed (version_in d) [] 0 (objects_in d)) state.new.counts
        × (setting_of declared ≡ setting_in d)
        × ((declared.objects, numbers_of state.new.numbering)
        ≡ starts_of (version_in d) (numbers_of state.old.numbering) (objects_in d)))
        (IsFirstIn no_counts (placed d) d)) }
    ensures err { IfErr result (λ stop. (d : Data) → IsKnown text.now notes.now d
        → stop ≡ Stop.NoMemory) }
    ensures labels { state.new.labels ≡ state.old.labels }
{
    let mut scratch = Scratch::new(alloc);
    let mut reader = Reader::new(text, &mut scratch)?;
    pass_to_list(&mut reader, "objects", notes.objects_times)?;
    let version = version_or_first(notes);
    match each_object(
        alloc,
        &mut reader,
        version,
        &mut state.counts,
        &mut state.numbering,
    )? {
        Ok(declared) => Ok(Ok(declared)),
        Err(inner) => {
            let misread = inner.below(alloc, "objects")?;
            Ok(Err(misread))
        }
    }
}

/// The transactions of a document, or their first fault below it, once its objects have none.
fn transactions_of(
    alloc: Global,
    text: &str,
    notes: &Notes,
    declared: &Declared,
    state: &mut ReaderState,
) -> Result<Result<Vec<Block>, Misread>, Stop>
    requires { scope_of state.old.labels.entries ≡ [] }
    ensures ok { IfOk result (λ answer. (d : Data) → IsKnown text.now notes.now d
        → setting_of declared.now ≡ setting_in d
        → AreMet no_counts (objects_placed (version_in d) [] 0 (objects_in d)) state.old.counts
        → MatchResult answer (λ blocks. AreMet no_counts (placed d) state.new.counts
        × ((map block_view blocks.items, numbers_of state.new.numbering)
        ≡ blocks_of (setting_in d) (numbers_of state.old.numbering) (transactions_in d)))
        (IsFirstIn no_counts (placed d) d)) }
    ensures err { IfErr result (λ stop. (d : Data) → IsKnown text.now notes.now d
        → setting_of declared.now ≡ setting_in d → stop ≡ Stop.NoMemory) }
{
    let mut scratch = Scratch::new(alloc);
    let mut reader = Reader::new(text, &mut scratch)?;
    pass_to_list(&mut reader, "transactions", notes.transactions_times)?;
    match each_transaction(alloc, &mut reader, declared, state)? {
        Ok(transactions) => Ok(Ok(transactions)),
        Err(inner) => {
            let misread = inner.below(alloc, "transactions")?;
            Ok(Err(misread))
        }
    }
}

/// The parts of the document of a text, or its first fault.
pub(crate) fn each_part(
    alloc: Global,
    text: &str,
    notes: &Notes,
    state: &mut ReaderState,
) -> Result<Result<Parts, Misread>, Stop>
    requires counts { state.old.counts ≡ no_counts }
    requires labels { scope_of state.old.labels.entries ≡ [] }
    ensures ok { IfOk result (λ answer. (d : Data) → IsKnown text.now notes.now d
        → MatchResult answer (λ parts. AreMet no_counts (placed d) state.new.counts
        × (setting_of parts.declared ≡ setting_in d)
        × (spelled parts.declared.objects (map block_view parts.transactions.items)
        (numbers_of state.new.numbering) ≡ parts_in (numbers_of state.old.numbering) d))
        (IsFirstIn no_counts (placed d) d)) }
    ensures err { IfErr result (λ stop. (d : Data) → IsKnown text.now notes.now d
        → stop ≡ Stop.NoMemory) }
{
    let declared = match objects_of(alloc, text, notes, state)? {
        Ok(declared) => declared,
        Err(misread) => return Ok(Err(misread)),
    };
    match transactions_of(alloc, text, notes, &declared, state)? {
        Ok(transactions) => Ok(Ok(Parts {
            declared,
            transactions,
        })),
        Err(misread) => Ok(Err(misread)),
    }
}
