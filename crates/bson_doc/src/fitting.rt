ghost use Rattle.std.specs.Prelude.{◌≤◌, ◌↔◌, IsTrue};
ghost use Rattle.bson_doc.specs.Length.{document_length, document_levels};

use crate::depth::levels;
use crate::sizes::size_up_to;
use crate::{Bounds, Doc};

impl Doc {
    /// Whether the document, in BSON, is within the bounds. Counting stops where a bound is passed.
    pub fn fits(&self, bounds: Bounds) -> bool
        ensures { IsTrue result ↔ ((document_length self.now ≤ bounds.bytes)
            × (document_levels self.now ≤ bounds.levels)) }
    {
        let bytes = u64::from(bounds.bytes);
        let most = u64::from(bounds.levels);
        levels(self, most + 1) <= most && size_up_to(self, bytes + 1) <= bytes
    }
}
