//! What has been counted of the document so far.
ghost use Rattle.std.specs.Prelude.{◌≡◌, [], ◌∷◌, MatchResult, true, false};
ghost use Rattle.doc_tree.specs.Answer.{IsFirst, IsMet};
ghost use Rattle.doc_tree.specs.Demand.{broken_at, one_more_node, one_more_operation, one_more_start};

use doc_rules::{CountRule, Failure, Limits, Rule};

/// Where the reader is, and how much of what is limited it has met.
#[derive(Clone, Copy, Debug, Drop)]
pub struct Counts {
    /// The number of the transaction that is being read, or 0.
    pub transaction: u32,
    pub operations: u32,
    pub nodes: u32,
    pub starts: u32,
}

impl Counts {
    /// The failure of a rule that isn't kept at this place.
    pub fn broken(&self, rule: Rule) -> Failure
        ensures { result ≡ broken_at rule self.now }
    {
        Failure::Broken(rule, self.transaction)
    }

    /// That the test of a rule holds. Returns the failure of the rule at this place where it
    /// doesn't.
    pub fn demand(&self, holds: bool, rule: Rule) -> Result<(), Failure>
        ensures { MatchResult result (λ _. holds ≡ true)
            (λ failure. (holds ≡ false) × (failure ≡ broken_at rule self.now)) }
    {
        if holds {
            Ok(())
        } else {
            Err(self.broken(rule))
        }
    }

    /// Counts an operation of a document of a version. Returns the failure of `FewOperations` where
    /// the version has no more.
    pub fn one_more_operation(&mut self, version: u8) -> Result<(), Failure>
        ensures { MatchResult result (λ _. IsMet self.old (one_more_operation version
            ∷ []) self.new) (IsFirst self.old (one_more_operation version ∷ [])) }
    {
        if self.operations as usize >= Limits::of(version).operations {
            return Err(self.broken(Rule::Few(CountRule::Operations(version))));
        }
        self.operations += 1;
        Ok(())
    }

    /// Counts a step that is no operation, or a child, of a document of a version. Returns the
    /// failure of `FewNodes` where the version has no more.
    pub fn one_more_node(&mut self, version: u8) -> Result<(), Failure>
        ensures { MatchResult result (λ _. IsMet self.old (one_more_node version ∷ []) self.new)
            (IsFirst self.old (one_more_node version ∷ [])) }
    {
        if self.nodes as usize >= Limits::of(version).nodes {
            return Err(self.broken(Rule::Few(CountRule::Nodes(version))));
        }
        self.nodes += 1;
        Ok(())
    }

    /// Counts a starting entry of a document of a version. Returns the failure of `FewEntries`
    /// where the version has no more.
    pub fn one_more_start(&mut self, version: u8) -> Result<(), Failure>
        ensures { MatchResult result (λ _. IsMet self.old (one_more_start version ∷ []) self.new)
            (IsFirst self.old (one_more_start version ∷ [])) }
    {
        if self.starts as usize >= Limits::of(version).entries {
            return Err(self.broken(Rule::Few(CountRule::Entries(version))));
        }
        self.starts += 1;
        Ok(())
    }
}
