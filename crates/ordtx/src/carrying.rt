//! The documents that carry objects over, and why there is none.
ghost use Rattle.std.specs.Prelude.{◌≡◌, ◌≢◌, ◌<◌, ◌^◌, true, List, ℕ, IfErr, IfOk, Ok, length, map, string_bytes};
ghost use Rattle.batch.specs.Names.{texts_of};
ghost use Rattle.faults.specs.Faults.{is_of_reading, memory_fault, wrong_outside};
ghost use Rattle.carry.specs.Joined.{start_view};
ghost use Rattle.lang.specs.Reading.{document_of, reading};
ghost use Rattle.ordtx.specs.Answers.{IsCarriedIntoOf, IsCarriedOf, IsCarryFaultOf, IsCarryIntoFaultOf, fault_of, name_at, of_object, refusal_of, unfit_wrong, wrong_start};
ghost use Rattle.ordtx.specs.Texts.{GivesCarried};

use crate::texts::{batch_at_once, free};
use batch::Batch;
use carry::{
    NamedObjects, Start, Unfit, carried, carried_into, carried_version, first_clash, first_misfit,
    first_unfit, join, name_table, start_name,
};
use doc_rules::Limits;
use doc_tree::hashing::{NameHashing, TextSet};
use faults::{Code, Fault, Wrong};
use lang::read_at_once;
use objects::Objects;
use one_thread::plain;
use plan::Plan;
use report::object_name;
use serial::NoMemory;
use std::alloc::Global;
use std::thread::Threads;

/// Why no objects are carried.
#[derive(Debug, Drop)]
pub enum Uncarried {
    /// The fault of the document whose objects are carried, or one of memory, the input or the output.
    First(Fault),
    /// The fault of the next document, or one of memory or of its input.
    Next(Fault),
    /// The object of this name can't start as it ends.
    Object(Fault, String),
}

impl Uncarried {
    /// The fault alone.
    pub fn fault(&self) -> Fault
        ensures { result ≡ fault_of self.now }
    {
        match self {
            Uncarried::First(fault) | Uncarried::Next(fault) | Uncarried::Object(fault, _) =>
                *fault,
        }
    }
}

impl From<Fault> for Uncarried {
    ghost use Rattle.ordtx.specs.declared.carrying.Uncarried.TheVariants as uncarried;

    ghost from_gives = { λ fault result. result ≡ uncarried.First fault };

    fn from(fault: Fault) -> Uncarried {
        Uncarried::First(fault)
    }
}

impl From<NoMemory> for Uncarried {
    ghost use Rattle.faults.specs.Faults.{memory_fault};
    ghost use Rattle.ordtx.specs.declared.carrying.Uncarried.TheVariants as uncarried;

    ghost from_gives = { λ _ result. result ≡ uncarried.First memory_fault };

    fn from(_refused: NoMemory) -> Uncarried {
        Uncarried::First(Code::Memory.outside())
    }
}

// The document of the objects at the end.
pub(crate) fn carried_of<T: Threads + Sync>(
    threads: &T,
    alloc: Global,
    document: Vec<u8>,
    plan: Plan,
) -> Result<String, Uncarried>
    ensures { GivesCarried (IsCarriedOf document.items) (IsCarryFaultOf document.items) result }
{
    let batch = batch_at_once(threads, alloc, plan, document)?;
    let text = carried_of_batch(alloc, &batch)?;
    free(batch, plan);
    Ok(text)
}

// The document of the final objects of a batch that was read.
fn carried_of_batch(alloc: Global, batch: &Batch) -> Result<String, Uncarried>
    ensures text { IfOk result (λ text. (bytes : List ℕ)
        → reading bytes ≡ Ok (document_of batch.now)
        → IsCarriedOf bytes (string_bytes text)) }
    ensures fault { IfErr result (λ refused. fault_of refused ≢ memory_fault
        → (bytes : List ℕ) → reading bytes ≡ Ok (document_of batch.now)
        → IsCarryFaultOf bytes (refusal_of refused)) }
    ensures code { IfErr result (λ refused. is_of_reading (fault_of refused).code ≡ true) }
{
    let objects = plain(alloc, batch)?.objects;
    let version = carried_version(batch.version);
    if let Some(misfit) = first_unfit(version, &objects) {
        let name = object_name(&batch.names, misfit.place);
        return Err(object_refused(alloc, wrong_of(misfit.unfit), name));
    }
    let text = carried(alloc, version, &batch.names, &objects)?;
    Ok(text)
}

// That the object of a name is wrong so.
fn object_refused(alloc: Global, wrong: Wrong, name: &str) -> Uncarried
    ensures object { fault_of result ≢ memory_fault
        → refusal_of result ≡ of_object (wrong_outside wrong) name.now }
    ensures code { is_of_reading (fault_of result).code ≡ true }
{
    match String::from_str(alloc, name) {
        Ok(name) => Uncarried::Object(wrong.outside(), name),
        Err(_) => Uncarried::First(Code::Memory.outside()),
    }
}

// What is wrong with a document whose objects start so.
fn wrong_of(unfit: Unfit) -> Wrong
    ensures { result ≡ unfit_wrong unfit }
{
    match unfit {
        Unfit::Start => Wrong::Start,
        Unfit::TooMany => Wrong::TooMany,
    }
}

// The next document with the objects at the end of the first.
pub(crate) fn carried_into_of<T: Threads + Sync>(
    threads: &T,
    alloc: Global,
    first: Vec<u8>,
    next: Vec<u8>,
    plan: Plan,
) -> Result<String, Uncarried>
    ensures { GivesCarried (IsCarriedIntoOf first.items next.items)
        (IsCarryIntoFaultOf first.items next.items) result }
{
    let Plan { workers, keys, .. } = plan;
    let hashing = NameHashing::keyed(keys, first.as_slice());
    let batch = batch_at_once(threads, alloc, plan, first)?;
    let next_batch = match read_at_once(threads, alloc, workers, keys, next.as_slice()) {
        Ok(batch) => batch,
        Err(fault) => return Err(Uncarried::Next(fault)),
    };
    let names = name_table(alloc, &batch.names, batch.objects.len() as u32, hashing)?;
    let next_hashing = NameHashing::keyed(keys, next.as_slice());
    let next_names = name_table(
        alloc,
        &next_batch.names,
        next_batch.objects.len() as u32,
        next_hashing,
    )?;
    carried_into_batch(
        alloc,
        &batch,
        &names,
        &next_batch,
        &next_names,
        next.as_slice(),
    )
}

// The document of the final objects of a batch and the next one's transactions. Both batches were
// read, and the tables are of the names of their objects.
fn carried_into_batch(
    alloc: Global,
    first: &Batch,
    first_names: &TextSet,
    next: &Batch,
    next_names: &TextSet,
    bytes: &[u8],
) -> Result<String, Uncarried>
    requires first_named { texts_of first_names.now.keys ≡ first.now.names.objects }
    requires next_named { texts_of next_names.now.keys ≡ next.now.names.objects }
    ensures text { IfOk result (λ text. (before : List ℕ)
        → reading before ≡ Ok (document_of first.now)
        → reading bytes.now ≡ Ok (document_of next.now)
        → IsCarriedIntoOf before bytes.now (string_bytes text)) }
    ensures fault { IfErr result (λ refused. fault_of refused ≢ memory_fault
        → (before : List ℕ) → reading before ≡ Ok (document_of first.now)
        → reading bytes.now ≡ Ok (document_of next.now)
        → IsCarryIntoFaultOf before bytes.now (refusal_of refused)) }
    ensures code { IfErr result (λ refused. is_of_reading (fault_of refused).code ≡ true) }
{
    let end = plain(alloc, first)?.objects;
    let ended = NamedObjects {
        names: &first.names,
        objects: &end,
    };
    let started = NamedObjects {
        names: &next.names,
        objects: &next.objects,
    };
    let starts = join(alloc, ended, started, first_names, next_names)?;
    let version = carried_version(first.version.max(next.version));
    if let Some((wrong, place)) = wrong_start(version, &next.objects, starts.as_slice()) {
        return Err(object_refused(alloc, wrong, name_at(starts.as_slice(), place)));
    }
    let text = carried_into(alloc, version, starts.as_slice(), bytes)?;
    if text.len() > Limits::of(version).bytes {
        return Err(Uncarried::Next(Wrong::TooMany.outside()));
    }
    Ok(text)
}

// What is wrong with the starts of a document of this version with these objects, and at which place.
fn wrong_start(version: u8, objects: &Objects, starts: &[Start<'_>]) -> Option<(Wrong, u32)>
    requires objects { length objects.now < 2 ^ 32 }
    requires starts { length starts.now < 2 ^ 32 }
    ensures { result ≡ wrong_start version objects.now (map start_view starts.now) }
{
    if let Some(place) = first_clash(objects, starts) {
        return Some((Wrong::DuplicateObject, place));
    }
    let most = Limits::of(version).objects;
    if starts.len() > most {
        return Some((Wrong::TooMany, most as u32));
    }
    match first_misfit(version, starts) {
        Some(misfit) => Some((wrong_of(misfit.unfit), misfit.place)),
        None => None,
    }
}

// The name of the object at a place, or the empty name.
fn name_at<'a>(starts: &[Start<'a>], place: u32) -> &'a str
    ensures { result.now ≡ name_at (map start_view starts.now) place }
{
    match starts.get(place as usize) {
        Some(start) => start_name(start),
        None => "",
    }
}
