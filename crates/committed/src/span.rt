//! Between which objects some entries are.
ghost use Rattle.std.specs.Prelude.{◌+◌, ◌≤◌, ◌<◌, ◌⊎◌, ℕ, IsTrue};
ghost use Rattle.committed.specs.Spans.{IsIn};

/// The first and the last of some objects. Of none, the first is after the last.
#[derive(Clone, Copy, Debug)]
pub struct Span {
    first: u32,
    last: u32,
}

impl Span {
    /// The span of no objects.
    pub fn none() -> Span
        ensures { (object : ℕ) → ¬ IsIn result object }
    {
        Span {
            first: u32::MAX,
            last: 0,
        }
    }

    /// Makes the span wide enough for one more object.
    pub fn add(&mut self, object: u32)
        ensures own { IsIn self.new object }
        ensures others { (other : ℕ) → IsIn self.old other → IsIn self.new other }
    {
        self.first = self.first.min(object);
        self.last = self.last.max(object);
    }

    /// Whether one of so many objects, from `first` on, is in the span.
    pub fn meets(self, first: usize, count: usize) -> bool
        ensures { ¬ IsTrue result → (object : ℕ) → IsIn self object
            → (object < first) ⊎ (first + count ≤ object) }
    {
        first <= self.last as usize && (self.first as usize).saturating_sub(first) < count
    }
}
