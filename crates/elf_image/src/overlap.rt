//! Which segments share an address. They are compared in the order of their addresses, and not each with each.

ghost use Rattle.std.specs.Prelude.{◌≡◌, ◌≤◌, ◌<◌, ◌&&◌, ℕ, All, AllPairs, IfOk, IfErr, MatchBool, IfNone, Some, None, length, nat_lt, slice_index_or};
ghost use Rattle.std.specs.List.Sorted.{IsNonDecreasingBy, IsPermutation};
ghost use Rattle.elf_image.specs.declared.segment.Segment.{Segment};
ghost use Rattle.elf_image.specs.Segments.{end};
ghost use Rattle.elf_image.specs.Overlaps.{shares, least_overlap};
ghost use Rattle.elf_image.specs.Image.{IsOverlapOf};
ghost use Rattle.elf_image.specs.Sweep.{TakesPart, IsGreatestEnd, IsLeastSharing, lesser, first_other};

use crate::fault::ImageFault;
use crate::segment::Segment;
use std::alloc::Global;

/// Whether there is a segment at that place, and it begins below an address.
fn begins_below(segments: &[Segment], place: usize, end: u128) -> bool
    ensures { (d : Segment) → result ≡ nat_lt place (length segments.now) && nat_lt (slice_index_or segments.now place d).addr end }
{
    match segments.get(place) {
        Some(segment) => u128::from(segment.addr) < end,
        None => false,
    }
}

/// Whether the segment at a place shares an address with another one, by the greatest end of those before it and by the
/// beginning of the next one.
fn takes_part(sorted: &[Segment], place: usize, greatest: u128) -> bool
    requires place { place < length sorted.now }
    requires rising { IsNonDecreasingBy (λ (s : Segment). s.addr) sorted.now }
    requires some { All (λ (s : Segment). 0 < s.size) sorted.now }
    requires greatest { IsGreatestEnd sorted.now place greatest }
    ensures { MatchBool result (TakesPart sorted.now place) (¬ TakesPart sorted.now place) }
{
    let segment = sorted[place];
    greatest > u128::from(segment.addr) || begins_below(sorted, place + 1, segment.end())
}

/// The one of the lesser number.
fn lesser(least: Option<Segment>, segment: Segment) -> Segment
    ensures { result ≡ lesser least segment }
{
    match least {
        Some(other) if other.number < segment.number => other,
        _ => segment,
    }
}

/// Of segments by rising addresses, the one of the least number that shares an address with another.
fn least_sharing(sorted: &[Segment]) -> Option<Segment>
    requires rising { IsNonDecreasingBy (λ (s : Segment). s.addr) sorted.now }
    requires some { All (λ (s : Segment). 0 < s.size) sorted.now }
    ensures { IsLeastSharing sorted.now (length sorted.now) result }
{
    let mut greatest = 0;
    let mut least = None;
    for place in 0..sorted.len() {
        if takes_part(sorted, place, greatest) {
            least = Some(lesser(least, sorted[place]));
        }
        greatest = greatest.max(sorted[place].end());
    }
    least
}

/// The first of the segments that has another number than this one and shares an address with it.
fn first_other(segments: &[Segment], segment: &Segment) -> Option<Segment>
    ensures { result ≡ first_other segment.now segments.now }
{
    for other in segments {
        if other.number != segment.number && segment.shares(other) {
            return Some(*other);
        }
    }
    None
}

/// The least pair of segments that shares an address, by the same segments in the order of their addresses.
fn least_overlap(segments: &[Segment], sorted: &[Segment]) -> Option<(Segment, Segment)>
    requires numbers { AllPairs (λ (s t : Segment). s.number < t.number) segments.now }
    requires some { All (λ (s : Segment). 0 < s.size) sorted.now }
    requires permutation { IsPermutation segments.now sorted.now }
    requires rising { IsNonDecreasingBy (λ (s : Segment). s.addr) sorted.now }
    ensures value { result ≡ least_overlap segments.now }
    ensures apart { IfNone result (AllPairs (λ (s t : Segment). end s ≤ t.addr) sorted.now) }
{
    let least = least_sharing(sorted)?;
    let other = first_other(segments, &least)?;
    Some((least, other))
}

/// The segments by rising addresses, or the least pair of them that shares an address.
pub fn sorted(alloc: Global, segments: &[Segment]) -> Result<Vec<Segment>, ImageFault>
    requires numbers { AllPairs (λ (s t : Segment). s.number < t.number) segments.now }
    requires some { All (λ (s : Segment). 0 < s.size) segments.now }
    ensures permutation { IfOk result (λ v. IsPermutation segments.now v.items) }
    ensures apart { IfOk result (λ v. AllPairs (λ (s t : Segment). end s ≤ t.addr) v.items) }
    ensures ok { IfOk result (λ _. least_overlap segments.now ≡ None) }
    ensures err { IfErr result (IsOverlapOf (least_overlap segments.now)) }
{
    let mut sorted = segments.to_vec(alloc)?;
    sorted.sort_by_key(|segment| segment.addr)?;
    match least_overlap(segments, &sorted) {
        Some((one, two)) => Err(ImageFault::Overlap {
            i: one.number,
            j: two.number,
        }),
        None => Ok(sorted),
    }
}
