// Which documents a read at one optime shows, so that the next read there visits no others: neither deleted
// ones nor later ones.
ghost use Rattle.std.specs.Prelude.{◌≡◌, Some, IfOk, IfSome, OnOk, map};
ghost use Rattle.version_store.specs.Listed.{HasPlaces, Lists, Notes};
ghost use Rattle.version_store.specs.Past.{shown};
ghost use Rattle.version_store.specs.Shards.{past_of};
ghost use Rattle.version_store.specs.Shown.{AddsShown, place_of};
ghost use Rattle.version_store.specs.declared.listing.Listing.{Listing as AListing};

use crate::collection::add_length;
use crate::shard_documents::ShardDocuments;
use crate::shown::Shown;
use bson_doc::{IdKey, Text};
use rs_optime::{Mem, OpTime};
use std::alloc::Global;
use std::collections::BTreeSet;

/// The places of the documents that a read at an optime shows, and possibly of others.
#[derive(Drop)]
pub(crate) struct Listing {
    pub(crate) at: OpTime,
    pub(crate) places: BTreeSet<(Text, IdKey)>,
}

impl Listing {
    pub(crate) fn len(&self) -> usize {
        self.places.len()
    }

    /// Takes note of a new version of a document. `stands` is false for a deletion.
    fn note(&mut self, place: &(Text, IdKey), at: OpTime, stands: bool) -> Mem<()>
        ensures { OnOk result (Notes self.old self.new place.now at stands) }
    {
        if self.at < at {
            return Ok(());
        }
        if stands {
            self.places.insert((place.0.copy()?, place.1.copy()?))?;
        } else {
            self.places.remove(place);
        }
        Ok(())
    }
}

/// Whether a listing is of this optime.
pub(crate) fn is_of(listing: &Option<Listing>, at: OpTime) -> bool {
    listed(listing, at).is_some()
}

/// The listing, where it is of this optime.
pub(crate) fn listed(listing: &Option<Listing>, at: OpTime) -> Option<&Listing>
    ensures { IfSome result (λ found. (found.now.at ≡ at) × (listing.now ≡ Some found.now)) }
{
    let found = listing.as_ref()?;
    if found.at != at {
        return None;
    }
    Some(found)
}

/// A listing that has taken note of a new version. None where memory runs out.
pub(crate) fn noted(
    listing: Option<Listing>,
    place: &(Text, IdKey),
    at: OpTime,
    stands: bool,
) -> Option<Listing>
    ensures { IfSome result (λ new. (old : AListing) × (listing ≡ Some old)
        × Notes old new place.now at stands) }
{
    let mut listing = listing?;
    listing.note(place, at, stands).ok()?;
    Some(listing)
}

/// What a read at an optime shows, listed.
pub(crate) fn listing_of(alloc: Global, documents: &ShardDocuments, at: OpTime) -> Mem<Listing>
    ensures { IfOk result (λ listing. Lists documents.now listing) }
{
    let mut shown = Vec::new(alloc);
    let mut lengths = Vec::new(alloc);
    documents.add_shown(at, &mut shown, &mut lengths)?;
    Ok(Listing {
        at,
        places: places_of(alloc, &shown)?,
    })
}

/// The places of some documents.
fn places_of(alloc: Global, documents: &[Shown<'_>]) -> Mem<BTreeSet<(Text, IdKey)>>
    ensures { IfOk result (λ places. HasPlaces places (map place_of documents.now)) }
{
    let mut places = BTreeSet::new(alloc);
    for shown in documents {
        let ns = Text::from_str(alloc, shown.ns)?;
        let id = shown.id.copy()?;
        places.insert((ns, id))?;
    }
    Ok(places)
}

/// Adds the listed documents that are shown, in one run, and the run's length.
pub(crate) fn add_listed<'a>(
    documents: &'a ShardDocuments,
    listing: &'a Listing,
    gathered: &mut Vec<Shown<'a>>,
    lengths: &mut Vec<usize>,
) -> Mem<()>
    requires { Lists documents.now listing.now }
    ensures { OnOk result (AddsShown gathered.old.items gathered.new.items (λ place.
        shown listing.now.at (past_of documents.now place).versions)) }
{
    let start = gathered.len();
    for place in &listing.places {
        if let Some(document) = documents.read_at(place.0.as_str(), &place.1, listing.at) {
            gathered.push(Shown {
                ns: place.0.as_str(),
                id: &place.1,
                document,
            })?;
        }
    }
    add_length(lengths, start, gathered.len())?;
    Ok(())
}
