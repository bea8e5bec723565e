// Where the last whole checkpoint is among the records of a file: only that one is read.
ghost use Rattle.std.specs.Prelude.{◌≡◌, ◌+◌, ◌^◌, ◌<◌, ◌≤◌, ◌++◌, ◌∷◌, [], List, All, length, map, slice_index, slice_range, take};
ghost use Rattle.record_file.specs.Records.{lists};
ghost use Rattle.checkpoint_store.specs.Checkpoint.{last_whole};
ghost use Rattle.checkpoint_store.specs.Layout.{Record as ARecord, record_bytes};
ghost use Rattle.checkpoint_store.specs.Marked.{Marks};
ghost use Rattle.checkpoint_store.specs.Spelled.{IsRecord};

// The places of the last whole checkpoint, and where an unfinished one begins after it.
#[derive(Clone, Copy)]
pub(crate) struct Marked {
    pub(crate) from: usize,
    pub(crate) to: usize,
    begun: Option<usize>,
}

impl Marked {
    // With the record at this place, by its kind.
    fn with(self, place: usize, kind: u8) -> Marked
        requires { place + 1 < 2 ^ 64 }
        ensures { (records : List ARecord) (item : ARecord) → kind ≡ slice_index (record_bytes item) 0
            → place < length records → take (place + 1) records ≡ take place records ++ item ∷ []
            → Marks records place self.from self.to self.begun
            → Marks records (place + 1) result.from result.to result.begun }
    {
        if kind == 1 {
            return Marked {
                from: self.from,
                to: self.to,
                begun: Some(place),
            };
        }
        if kind == 3 {
            return self.ended(place);
        }
        self
    }

    // With the record at this place, which ends a checkpoint if one has begun.
    fn ended(self, place: usize) -> Marked
        requires { place + 1 < 2 ^ 64 }
        ensures { (records : List ARecord) (item : ARecord) → 3 ≡ slice_index (record_bytes item) 0
            → place < length records → take (place + 1) records ≡ take place records ++ item ∷ []
            → Marks records place self.from self.to self.begun
            → Marks records (place + 1) result.from result.to result.begun }
    {
        match self.begun {
            Some(from) => Marked {
                from,
                to: place + 1,
                begun: None,
            },
            None => self,
        }
    }
}

// Finds the last whole checkpoint.
pub(crate) fn last_in(pieces: &[Vec<u8>]) -> Marked
    requires { (records : List ARecord) × All IsRecord records
        × (lists pieces.now ≡ map record_bytes records) }
    ensures within { (result.from ≤ result.to) × (result.to ≤ length pieces.now) }
    ensures last { (records : List ARecord) → All IsRecord records
        → lists pieces.now ≡ map record_bytes records
        → last_whole (slice_range records result.from result.to) ≡ last_whole records }
{
    let mut found = Marked {
        from: 0,
        to: 0,
        begun: None,
    };
    for (place, piece) in pieces.iter().enumerate() {
        found = found.with(place, piece[0]);
    }
    found
}
