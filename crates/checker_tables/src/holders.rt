// How the place of a document leads to the open writer that holds it. If two writers hold one document, which
// happens in no run, or memory runs out, nothing is known any more.
ghost use Rattle.std.specs.Prelude.{IfOk, IfSome};
ghost use Rattle.std.specs.BTreeMap.{IsEmpty};
ghost use Rattle.checker_tables.specs.Holding.{LeadAlso, LeadToOthers};

use bson_doc::{IdKey, Mem, Text};
use std::collections::BTreeMap;

/// Adds a place, which leads to a writer.
pub(crate) fn with(
    holders: Option<BTreeMap<(Text, IdKey), u32>>,
    place: Option<(Text, IdKey)>,
    number: u32,
) -> Mem<Option<BTreeMap<(Text, IdKey), u32>>>
    ensures { IfOk result (λ new. LeadAlso place number holders new) }
{
    let Some(place) = place else {
        return Ok(holders);
    };
    let Some(mut numbers) = holders else {
        return Ok(None);
    };
    if numbers.contains_key(&place) {
        return Ok(None);
    }
    numbers.insert(place, number)?;
    Ok(Some(numbers))
}

/// Removes a place, which led to a writer.
pub(crate) fn without(
    holders: Option<BTreeMap<(Text, IdKey), u32>>,
    place: Option<(Text, IdKey)>,
    number: u32,
) -> Option<BTreeMap<(Text, IdKey), u32>>
    ensures { LeadToOthers number holders result }
{
    let Some(place) = place else {
        return holders;
    };
    let Some(mut numbers) = holders else {
        return None;
    };
    let Some(led) = numbers.remove(&place) else {
        return Some(numbers);
    };
    if led != number {
        return None;
    }
    Some(numbers)
}

/// No place leads to a writer.
pub(crate) fn emptied(
    holders: Option<BTreeMap<(Text, IdKey), u32>>,
) -> Option<BTreeMap<(Text, IdKey), u32>>
    ensures { IfSome result IsEmpty }
{
    let Some(mut numbers) = holders else {
        return None;
    };
    numbers.clear();
    Some(numbers)
}
