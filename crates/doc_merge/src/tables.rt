//! Puts tables of texts together.
//!
//! Each text is first looked for in the tables before its own, each table in a thread. Then all have
//! their numbers by one pass, and none is hashed again.
ghost use Rattle.std.specs.Prelude.{◌≡◌, ◌≤◌, ◌<◌, ℕ, [], ◌∷◌, Ok, get_or, length, map, option_map, take, true, IfOk, OnOk};
ghost use Rattle.batch.specs.Names.{texts_of};
ghost use Rattle.doc_merge.specs.Renumbered.{merged, new_number, numbers_in};
ghost use Rattle.doc_merge.specs.Tables.{AreFound, AreNumbered, AreTextPlaces, IsNext, IsTextPlace, all_merged};
ghost use Rattle.doc_merge.specs.declared.tables.TheConstants.{MOST_TEXTS};

use doc_tree::hashing::TextSet;
use doc_tree::state::fit;
use serial::NoMemory;
use std::alloc::Global;
use std::thread::{Threads, for_each_mut};

/// How many texts have a number of their own.
pub(crate) const MOST_TEXTS: usize = 4_294_967_295;

/// How many texts there are at the least to look for them in threads.
const LEAST_AT_ONCE: usize = 2048;

/// Where a text is: in which of several tables, and at which place there.
#[derive(Clone, Copy, Debug, Drop)]
pub(crate) struct TextPlace {
    table: usize,
    place: usize,
}

/// Where each text of a table is in the tables before it, or that memory was refused.
type Found = Result<Vec<Option<TextPlace>>, NoMemory>;

/// Tables that were put together: their texts, each once, and the numbers that those of each table
/// have among them.
#[derive(Drop)]
pub(crate) struct MergedTables {
    pub(crate) texts: Vec<String>,
    pub(crate) numbers: Vec<Vec<u32>>,
}

/// Where a text is in one of these tables, if it is in one.
fn find_text(tables: &[TextSet], text: &str) -> Option<TextPlace>
    ensures { IsTextPlace (map (λ table. texts_of table.keys) tables.now) text.now result }
{
    for table in 0..tables.len() {
        if let Some(place) = tables[table].get_index_of(text) {
            return Some(TextPlace { table, place });
        }
    }
    None
}

/// Where each of these texts is in the tables.
fn find_texts(alloc: Global, tables: &[TextSet], texts: &TextSet) -> Found
    ensures { IfOk result (λ places. AreTextPlaces (map (λ table. texts_of table.keys) tables.now)
        (texts_of texts.now.keys) places.items) }
{
    let mut places = Vec::with_capacity(alloc, texts.len())?;
    for text in texts.as_slice() {
        places.push(find_text(tables, text.as_str()))?;
    }
    Ok(places)
}

/// What was found, where memory was refused nowhere.
fn gathered(alloc: Global, found: Vec<Found>) -> Result<Vec<Vec<Option<TextPlace>>>, NoMemory>
    ensures { IfOk result (λ places. map Ok places.items ≡ found.items) }
{
    let mut places = Vec::with_capacity(alloc, found.len())?;
    for one in found {
        places.push(one?)?;
    }
    Ok(places)
}

/// Where each text of each table is in the tables before it.
fn find_all<T: Threads + Sync>(
    threads: &T,
    alloc: Global,
    tables: &[TextSet],
) -> Result<Vec<Vec<Option<TextPlace>>>, NoMemory>
    ensures { IfOk result (λ found. AreFound [] (map (λ table. texts_of table.keys) tables.now)
        (map (λ places. places.items) found.items)) }
{
    let mut found = Vec::with_capacity(alloc, tables.len())?;
    let mut texts: usize = 0;
    for table in tables {
        found.push(Ok(Vec::new(alloc)))?;
        texts = texts.saturating_add(table.len());
    }
    let at_once = if texts < LEAST_AT_ONCE {
        1
    } else {
        tables.len()
    };
    let find = |number: usize, found: &mut Found|
        requires { number < length tables.now }
        ensures { IfOk found.new (λ places. AreTextPlaces
            (map (λ table. texts_of table.keys) (take number tables.entry.now))
            (get_or (map (λ table. texts_of table.keys) tables.entry.now) number [])
            places.items) }
    { *found = find_texts(alloc, &tables[..number], &tables[number]) };
    for_each_mut(threads, &mut found, at_once.max(1), &find);
    let places = gathered(alloc, found)?;
    Ok(places)
}

/// The number at a place of a table's numbers.
fn number_at(numbers: &[Vec<u32>], at: TextPlace) -> u32
    ensures { result ≡ get_or (get_or (map (λ one. one.items) numbers.now) at.table []) at.place 0 }
{
    let Some(numbers) = numbers.get(at.table) else {
        return 0;
    };
    match numbers.get(at.place) {
        Some(number) => *number,
        None => 0,
    }
}

/// Puts these texts after those of earlier tables, each once. Returns the number of each.
fn put_texts(
    alloc: Global,
    all: &mut Vec<String>,
    numbers: &[Vec<u32>],
    texts: TextSet,
    places: Vec<Option<TextPlace>>,
) -> Result<Vec<u32>, NoMemory>
    requires next { IsNext (texts_of all.old.items) (map (λ one. one.items) numbers.now)
        (texts_of texts.keys) places.items }
    ensures numbers { IfOk result (λ numbers. numbers.items
        ≡ numbers_in (texts_of all.new.items) (texts_of texts.keys)) }
    ensures texts { OnOk result (texts_of all.new.items
        ≡ merged (texts_of all.old.items) (texts_of texts.keys)) }
{
    let mut own = Vec::with_capacity(alloc, texts.len())?;
    let texts: Vec<String> = texts.into_iter().collect(alloc)?;
    let mut places = places.into_iter();
    for text in texts {
        let at = places.next().unwrap_or(None);
        let number = match at {
            Some(at) => {
                drop(text);
                number_at(numbers, at)
            }
            None => {
                let number = fit(all.len());
                all.push(text)?;
                number
            }
        };
        own.push(number)?;
    }
    Ok(own)
}

/// Whether each number is its own place.
fn are_places(numbers: &[u32]) -> bool
    ensures { result ≡ true → (n : ℕ) → new_number numbers.now n ≡ n }
{
    for place in 0..numbers.len() {
        if numbers[place] as usize != place {
            return false;
        }
    }
    true
}

/// The numbers, or none where each is its own place.
pub(crate) fn but_places(alloc: Global, numbers: Vec<u32>) -> Vec<u32>
    ensures { (n : ℕ) → new_number result.items n ≡ new_number numbers.items n }
{
    if are_places(&numbers) {
        Vec::new(alloc)
    } else {
        numbers
    }
}

/// Puts tables of texts together, one after the other.
///
/// Returns `NoMemory` where a request for memory was refused.
pub(crate) fn merge_tables<T: Threads + Sync>(
    threads: &T,
    alloc: Global,
    tables: Vec<TextSet>,
) -> Result<MergedTables, NoMemory>
    ensures texts { IfOk result (λ all. texts_of all.texts.items
        ≡ all_merged [] (map (λ table. texts_of table.keys) tables.items)) }
    ensures numbers { IfOk result (λ all. AreNumbered []
        (map (λ table. texts_of table.keys) tables.items)
        (map (λ one. one.items) all.numbers.items)) }
{
    let found = find_all(threads, alloc, &tables)?;
    let mut texts = Vec::new(alloc);
    let mut numbers = Vec::with_capacity(alloc, tables.len())?;
    let mut places = found.into_iter();
    for table in tables {
        let here = places.next().unwrap_or(Vec::new(alloc));
        let own = put_texts(alloc, &mut texts, &numbers, table, here)?;
        numbers.push(own)?;
    }
    Ok(MergedTables { texts, numbers })
}
