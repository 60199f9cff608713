//! Places by object, in pages.
ghost use Rattle.std.specs.Prelude.{◌≡◌, ◌<◌, ◌≤◌, ℕ, length, nat_eq, slice_get, Some, None, IsSome, OnOk, if◌then◌else◌};
ghost use Rattle.intentions.specs.Places.{place_in, IsReached};

use serial::NoMemory;
use std::alloc::Global;

/// How many objects have their places in a page.
const PAGE: usize = 4_096;

/// A place for each of some objects: the memory in which a view finds what it changed.
///
/// A page is as long as its objects ask for, and the pages before it may be empty. An object with a
/// high number takes little time and memory.
#[derive(Drop)]
pub struct PagedPlaces {
    pages: Vec<Vec<usize>>,
}

impl PagedPlaces {
    /// No places. This takes no memory.
    pub fn new(alloc: Global) -> PagedPlaces
        ensures { (object : ℕ) → place_in result object ≡ None }
    {
        PagedPlaces {
            pages: Vec::new(alloc),
        }
    }

    /// The place of the object, if it has one.
    pub fn get(&self, object: u32) -> Option<usize>
        ensures { result ≡ place_in self.now object }
    {
        match self.pages.get(object as usize / PAGE) {
            Some(page) => page.get(object as usize % PAGE).copied(),
            None => None,
        }
    }

    /// Makes sure that the object has a place. It gets this one where it has none, and so may others
    /// that have none.
    pub fn reach(&mut self, alloc: Global, object: u32, place: usize) -> Result<(), NoMemory>
        ensures reached { OnOk result (IsSome (place_in self.new object)) }
        ensures same { (q : ℕ) → IsReached place (place_in self.old q) (place_in self.new q) }
    {
        let number = object as usize / PAGE;
        self.add_pages(alloc, number + 1)?;
        lengthen(&mut self.pages[number], object as usize % PAGE, place)
    }

    // Adds empty pages until there are so many.
    fn add_pages(&mut self, alloc: Global, count: usize) -> Result<(), NoMemory>
        ensures all { OnOk result (count ≤ length self.new.pages.items) }
        ensures same { (q : ℕ) → place_in self.new q ≡ place_in self.old q }
    {
        self.pages.reserve(count.saturating_sub(self.pages.len()))?;
        'adding: while self.pages.len() < count {
            self.pages.push(Vec::new(alloc))?;
        }
        Ok(())
    }

    /// Gives the object, which has a place, this one.
    pub fn set(&mut self, object: u32, place: usize)
        requires { IsSome (place_in self.old object) }
        ensures { (q : ℕ) → place_in self.new q
            ≡ (if nat_eq object q then Some place else place_in self.old q) }
    {
        self.pages[object as usize / PAGE][object as usize % PAGE] = place;
    }
}

// Makes a page so long that it has an item at the offset. What it lacks becomes this place.
fn lengthen(page: &mut Vec<usize>, offset: usize, place: usize) -> Result<(), NoMemory>
    requires { offset < PAGE }
    ensures long { OnOk result (offset < length page.new.items) }
    ensures same { (i : ℕ)
        → IsReached place (slice_get page.old.items i) (slice_get page.new.items i) }
{
    if page.len() <= offset {
        page.resize(offset + 1, place)?;
    }
    Ok(())
}
