/// How many bytes and levels a document may have. The document itself is level 1, and each document
/// or array inside is a level more.
#[derive(Clone, Copy, Debug, PartialEq, Eq)]
pub struct Bounds {
    /// The most bytes in BSON.
    pub bytes: u32,
    /// The most levels.
    pub levels: u32,
}

/// The bounds of a stored document: 262,144 bytes and 100 levels.
pub const DOCUMENT: Bounds = Bounds {
    bytes: 262_144,
    levels: 100,
};

/// The bounds of an oplog entry, which holds documents: 1,048,576 bytes and 103 levels.
pub const ENTRY: Bounds = Bounds {
    bytes: 1_048_576,
    levels: 103,
};
