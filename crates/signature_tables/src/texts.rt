// Names with descriptors, in order.
ghost use Rattle.std.specs.Prelude.{◌≡◌, map, Contains, AllPairs, IsPermutation, IsSortedByKey, IfSome, IfNone, Some, slice_get};
ghost use Rattle.std.specs.List.{dedup};
ghost use Rattle.slicer_ids.specs.Sets.{IsOrderedListOf};
ghost use Rattle.hierarchy.specs.Places.{texts_cmp, texts_of};
ghost use Rattle.program_form.specs.Systems.{ForeignBefore};
ghost use Rattle.signature_tables.specs.TextPairs.{texts_in, pair_of, are_same};

use std::cmp::Ordering;

/// A name and a descriptor.
#[derive(Clone, Copy)]
pub struct Texts<'a> {
    pub name: &'a [u8],
    pub descriptor: &'a [u8],
}

// The order by name, then by descriptor.
fn compare(a: &Texts<'_>, b: &Texts<'_>) -> Ordering
    ensures { result ≡ texts_cmp (texts_in a.now) (texts_in b.now) }
{
    match a.name.cmp(b.name) {
        Ordering::Less => Ordering::Less,
        Ordering::Equal => a.descriptor.cmp(b.descriptor),
        Ordering::Greater => Ordering::Greater,
    }
}

// Whether two are the same.
fn is_same(a: &Texts<'_>, b: &Texts<'_>) -> bool
    ensures { result ≡ are_same a.now b.now }
{
    compare(a, b).is_eq()
}

// Puts texts in order.
fn sort(texts: &mut [Texts<'_>])
    ensures same { IsPermutation texts.old texts.new }
    ensures sorted { IsSortedByKey texts_in texts_cmp texts.new }
{
    texts.sort_unstable_by(|a, b| compare(a, b));
}

// The texts in order.
fn sorted(texts: Vec<Texts<'_>>) -> Vec<Texts<'_>>
    ensures same { IsPermutation texts.entry.items result.items }
    ensures sorted { IsSortedByKey texts_in texts_cmp result.items }
{
    let mut texts = texts;
    sort(texts.as_mut_slice());
    texts
}

// Keeps the first of those that are the same and stand side by side.
fn keep_first(texts: &mut Vec<Texts<'_>>)
    ensures { texts.new.items ≡ dedup are_same texts.old.items }
{
    texts.dedup_by(|a, b| is_same(a, b));
}

/// The same texts, in order, each once. Takes n log n comparisons.
pub fn in_order(texts: Vec<Texts<'_>>) -> Vec<Texts<'_>>
    ensures { IsOrderedListOf ForeignBefore (map pair_of result.items) (Contains (map pair_of texts.entry.items)) }
{
    let mut texts = sorted(texts);
    keep_first(&mut texts);
    texts
}

// The order of texts and others.
fn compare_to(texts: &Texts<'_>, name: &[u8], descriptor: &[u8]) -> Ordering
    ensures { result ≡ texts_cmp (texts_in texts.now) (texts_of name.now descriptor.now) }
{
    match texts.name.cmp(name) {
        Ordering::Less => Ordering::Less,
        Ordering::Equal => texts.descriptor.cmp(descriptor),
        Ordering::Greater => Ordering::Greater,
    }
}

/// The place of a name and descriptor among texts in order; none where they aren't there. Takes a logarithmic number of
/// comparisons.
pub fn place_of(texts: &[Texts<'_>], name: &[u8], descriptor: &[u8]) -> Option<usize>
    requires { AllPairs ForeignBefore (map pair_of texts.now) }
    ensures found { IfSome result (λ k. slice_get (map pair_of texts.now) k ≡ Some (name.now, descriptor.now)) }
    ensures missed { IfNone result (Contains (map pair_of texts.now) (name.now, descriptor.now) → ⊥) }
{
    match texts.binary_search_by(|other| compare_to(other, name, descriptor)) {
        Ok(place) => Some(place),
        Err(_) => None,
    }
}
