// Laws of keys, for readers: each function's contract is the law, and its body does nothing.
ghost use Rattle.std.specs.Prelude.{◌≡◌, ℤ};
ghost use Rattle.std.specs.declared.cmp.Ordering.TheVariants.{Equal};
ghost use Rattle.std.specs.Cmp.{IsTotalOrder};
ghost use Rattle.bson_doc.specs.declared.key.IdKey.{IdKey};
ghost use Rattle.bson_doc.specs.Key.{key_of, key_cmp};
ghost use Rattle.bson_doc.specs.Place.{Place, place_cmp};
ghost use Rattle.bson_doc.specs.Tree.{int32, int64};

/// int32 5 and int64 5 are the same key, and so it is for every number.
pub fn numbers_share_keys()
    ensures { (n : ℤ) → key_of (int32 n) ≡ key_of (int64 n) }
{}

/// Keys are totally ordered, and only equal keys tie.
#[tactic(auto, using(crate::proofs::KeyLemmas::key_order))]
pub fn keys_are_ordered()
    ensures total { IsTotalOrder key_cmp }
    ensures only_equal { (x y : IdKey) → key_cmp x y ≡ Equal → x ≡ y }
{}

/// Places of documents, each a collection's name and a key, are totally ordered, and only equal places tie.
#[tactic(auto, using(crate::proofs::KeyLemmas::key_order))]
pub fn places_are_ordered()
    ensures total { IsTotalOrder place_cmp }
    ensures only_equal { (x y : Place) → place_cmp x y ≡ Equal → x ≡ y }
{}
