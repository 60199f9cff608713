//! The objects that a document declares, and with them its transactions.
ghost use Rattle.std.specs.Prelude.{◌≡◌, ◌≤◌, length, string_eq, IfOk};
ghost use Rattle.std.specs.List.{IsDistinct, IsDistinct-prop};
ghost use Rattle.objects.specs.Entries.{kinds};
ghost use Rattle.batch.specs.Names.{texts_of};
ghost use Rattle.doc_rules.specs.Limits.{limits_of};
ghost use Rattle.meaning.specs.declared.limits.TheConstants.{MAX_OBJECTS};
ghost use Rattle.doc_tree.specs.Digests.{AreRight};

use crate::digests::Digest;
use crate::hashing::TextSet;
use crate::hints::is_at;
use crate::outlines::Outlines;
use batch::Block;
use objects::{Kind, Objects};
use serial::NoMemory;
use std::alloc::Global;

/// The objects by place, with their names, and the version that says what words there are.
#[derive(Drop)]
pub struct Declared {
    pub version: u8,
    pub names: TextSet,
    pub objects: Objects,
    outlines: Outlines,
    ghost named: { length names.keys ≡ length objects },
    ghost few: { length objects ≤ MAX_OBJECTS },
    ghost apart: { IsDistinct string_eq names.keys } by { IsDistinct-prop string_eq names.keys },
    ghost outlined: { AreRight (texts_of names.keys) (kinds objects) outlines.slots.items },
}

impl Declared {
    ghost use Rattle.std.specs.Prelude.{IfSome, Some, slice_get};
    ghost use Rattle.doc_tree.specs.Scope.{place_of};

    /// The declared objects under these names.
    pub fn new(
        alloc: Global,
        version: u8,
        names: TextSet,
        objects: Objects,
    ) -> Result<Declared, NoMemory>
        requires named { length names.keys ≡ length objects }
        requires few { length objects ≤ (limits_of version).objects }
        ensures version { IfOk result (λ declared. declared.version ≡ version) }
        ensures names { IfOk result (λ declared. declared.names.keys ≡ names.keys) }
        ensures objects { IfOk result (λ declared. declared.objects ≡ objects) }
    {
        let outlines = Outlines::of(alloc, &names, &objects)?;
        Ok(Declared {
            version,
            names,
            objects,
            outlines,
        })
    }

    /// The place and the kind of the object of that name, if its outline is found. A name of at most
    /// 8 bytes isn't compared byte by byte.
    pub(crate) fn outlined(&self, name: &str) -> Option<(u32, Kind)>
        ensures place { IfSome result (λ found.
            place_of name.now (texts_of self.now.names.keys) ≡ Some found.0) }
        ensures kind { IfSome result (λ found.
            slice_get (kinds self.now.objects) found.0 ≡ Some found.1) }
    {
        let digest = Digest::of(name);
        let found = self.outlines.find(digest)?;
        if digest.is_whole() || is_at(&self.names, found.0 as usize, name) {
            Some(found)
        } else {
            None
        }
    }

    /// The kind of the object at this place.
    pub(crate) fn kind(&self, place: u32) -> Option<Kind>
        ensures { result ≡ slice_get (kinds self.now.objects) place }
    {
        let value = self.objects.value(place)?;
        Some(value.kind())
    }
}

/// The objects and the transactions of a document.
#[derive(Drop)]
pub struct Parts {
    pub declared: Declared,
    pub transactions: Vec<Block>,
}
