//! The packed list: where one term stands in one document, as bytes.
ghost use Rattle.std.specs.Prelude.{◌≡◌, ◌↔◌, [], ◌∷◌, ◌++◌, ◌<◌, map, length, nat_lt, true, false, if◌then◌else◌, Some, None, IfOk, IfSome, IfNone, OnOk, MatchOption, IsTrue};
ghost use Rattle.std.specs.List.{flat_map};
ghost use Rattle.ft_rows.specs.Packed.{CanPack, PackedIsRead, PackedIsExact, OnlyPackedIsRead, packed, unpacked, leb128, numbers_after, is_spot, is_after};
ghost use Rattle.ft_rows.specs.Terms.{spot_of};
ghost use Rattle.ft_rows.specs.Unpacking.{spot_from, passes, read_after, BeginsWith, BeginsWithSpot, HasNoNumber, HasNoUpper};

use crate::terms::Posting;
use ft_values::Spot;
use std::alloc::{AllocError, Global};

/// A packed list is read as the places that it was made of, and no others have it.
pub fn packed_lists()
    ensures read { PackedIsRead }
    ensures exact { PackedIsExact }
    ensures only { OnlyPackedIsRead }
{}

const ORIGIN: Spot = Spot {
    column: 0,
    pos: 0,
    place: 0,
    size: 0,
};

// Where a number counts from: the last one in the same column, else 0.
#[inline]
fn kept(same: bool, number: u32) -> u32
    ensures { result ≡ (if same then number else 0) }
{
    if same { number } else { 0 }
}

// The four numbers of a place after the last one.
fn numbers(last: &Spot, spot: &Spot) -> [u32; 4]
    ensures { result ≡ numbers_after last.now (spot.now ∷ []) }
{
    let same = spot.column == last.column;
    [
        spot.column.saturating_sub(last.column),
        spot.pos.saturating_sub(kept(same, last.pos)),
        spot.place.saturating_sub(kept(same, last.place)),
        spot.size,
    ]
}

// ---- packing

fn push_number(bytes: &mut Vec<u8>, number: u32) -> Result<(), AllocError>
    ensures { OnOk result (bytes.new.items ≡ bytes.old.items ++ leb128 number) }
{
    let mut rest = number;
    while rest >= 128 {
        bytes.push((rest % 128 + 128) as u8)?;
        rest /= 128;
    }
    bytes.push(rest as u8)?;
    Ok(())
}

fn push_spot(bytes: &mut Vec<u8>, last: &Spot, spot: &Spot) -> Result<(), AllocError>
    ensures { OnOk result (bytes.new.items ≡ bytes.old.items ++ flat_map leb128
        (numbers_after last.now (spot.now ∷ []))) }
{
    for number in numbers(last, spot) {
        push_number(bytes, number)?;
    }
    Ok(())
}

/// The packed list of places that rise.
pub fn pack(alloc: Global, spots: &[Spot]) -> Result<Vec<u8>, AllocError>
    ensures { IfOk result (λ bytes. bytes.items ≡ packed spots.now) }
{
    let mut bytes = Vec::new(alloc);
    let mut last = ORIGIN;
    for spot in spots {
        push_spot(&mut bytes, &last, spot)?;
        last = *spot;
    }
    Ok(bytes)
}

// ---- which places can be packed

#[inline]
fn is_spot(spot: &Spot) -> bool
    ensures { result ≡ is_spot spot.now }
{
    spot.column <= 99
        && spot.pos < 1_000_000
        && spot.place < 1_000_000
        && 0 < spot.size
        && spot.size <= 1_000_000
}

#[inline]
fn is_after(last: &Spot, spot: &Spot) -> bool
    ensures { result ≡ is_after last.now spot.now }
{
    last.column < spot.column
        || (last.column == spot.column && last.pos < spot.pos && last.place < spot.place)
}

// Whether a posting may have a place, the first or one after the last.
#[inline]
fn passes(is_first: bool, last: &Spot, spot: &Spot) -> bool
    ensures { result ≡ passes is_first last.now spot.now }
{
    is_spot(spot) && (is_first || is_after(last, spot))
}

/// Whether places can be packed.
pub fn can_pack(spots: &[Spot]) -> bool
    ensures can { IsTrue result → CanPack spots.now }
    ensures cannot { CanPack spots.now → IsTrue result }
{
    let mut last = ORIGIN;
    for (at, spot) in spots.iter().enumerate() {
        if !passes(at == 0, &last, spot) {
            return false;
        }
        last = *spot;
    }
    !spots.is_empty()
}

// ---- unpacking

// The first byte, and what comes behind it.
#[inline]
fn first_byte(bytes: &[u8]) -> Option<(u32, &[u8])>
    ensures { MatchOption result (bytes.now ≡ []) (λ byte. (bytes.now ≡ byte.0 ∷ byte.1.now)
        × (byte.0 < 256)) }
{
    let (first, rest) = bytes.split_first()?;
    Some((u32::from(*first), rest))
}

// What a number has above its lowest seven bits, in at most two bytes. None where it is 0 or needs
// more: no number of a list does.
#[inline]
fn upper_part(bytes: &[u8]) -> Option<(u32, &[u8])>
    ensures found { IfSome result (λ part. (0 < part.0) × (part.0 < 16384)
        × BeginsWith bytes.now part.0 part.1.now) }
    ensures none { IfNone result (HasNoUpper bytes.now) }
{
    let (low, rest) = first_byte(bytes)?;
    if low == 0 {
        return None;
    }
    if low < 128 {
        return Some((low, rest));
    }
    let (high, rest) = first_byte(rest)?;
    if high == 0 || high >= 128 {
        return None;
    }
    Some((low - 128 + 128 * high, rest))
}

// The first number of bytes, and what comes behind it. None where no list has it.
#[inline(always)]
fn first_number(bytes: &[u8]) -> Option<(u32, &[u8])>
    ensures found { IfSome result (λ number. BeginsWith bytes.now number.0 number.1.now) }
    ensures none { IfNone result (HasNoNumber bytes.now) }
{
    let (low, rest) = first_byte(bytes)?;
    if low < 128 {
        return Some((low, rest));
    }
    let (upper, rest) = upper_part(rest)?;
    Some((low - 128 + 128 * upper, rest))
}

// The place that four numbers say after the last one, if a posting may have it.
#[inline(always)]
fn spot_at(last: &Spot, is_first: bool, c: u32, p: u32, l: u32, z: u32) -> Option<Spot>
    ensures found { IfSome result (λ spot. (passes is_first last.now
        (spot_from last.now c p l z) ≡ true)
        × (spot ≡ spot_from last.now c p l z)) }
    ensures none { IfNone result (passes is_first last.now
        (spot_from last.now c p l z) ≡ false) }
{
    let same = c == 0;
    let spot = Spot {
        column: last.column.saturating_add(c),
        pos: kept(same, last.pos).saturating_add(p),
        place: kept(same, last.place).saturating_add(l),
        size: z,
    };
    passes(is_first, last, &spot).then_some(spot)
}

// The first four bytes, if each of them is a number, and what comes behind them.
#[inline(always)]
fn small_numbers(bytes: &[u8]) -> Option<(u32, u32, u32, u32, &[u8])>
    ensures { IfSome result (λ n. (bytes.now ≡ n.0 ∷ n.1 ∷ n.2 ∷ n.3 ∷ n.4.now)
        × (n.0 < 128) × (n.1 < 128) × (n.2 < 128) × (n.3 < 128)) }
{
    let [c, p, l, z, rest @ ..] = bytes else {
        return None;
    };
    let (c, p, l, z) = (u32::from(*c), u32::from(*p), u32::from(*l), u32::from(*z));
    (c < 128 && p < 128 && l < 128 && z < 128).then_some((c, p, l, z, rest))
}

// The place that bytes begin with, after the last one, and what comes behind it; if a posting may
// have it. The numbers of most places have a byte each.
#[inline(always)]
fn first_spot<'a>(bytes: &'a [u8], last: &Spot, is_first: bool) -> Option<(Spot, &'a [u8])>
    ensures found { IfSome result (λ spot. BeginsWithSpot is_first last.now bytes.now
        spot.0 spot.1.now) }
    ensures none { IfNone result (IsTrue (nat_lt 0 (length bytes.now))
        → read_after is_first last.now bytes.now ≡ None) }
{
    if let Some((column, pos, place, size, rest)) = small_numbers(bytes) {
        let spot = spot_at(last, is_first, column, pos, place, size)?;
        return Some((spot, rest));
    }
    let (column, rest) = first_number(bytes)?;
    let (pos, rest) = first_number(rest)?;
    let (place, rest) = first_number(rest)?;
    let (size, rest) = first_number(rest)?;
    let spot = spot_at(last, is_first, column, pos, place, size)?;
    Some((spot, rest))
}

/// The places that a packed list stands for. None for any bytes that are no packed list.
pub fn unpack(alloc: Global, bytes: &[u8]) -> Result<Option<Vec<Spot>>, AllocError>
    ensures { IfOk result (λ o. MatchOption o (unpacked bytes.now ≡ None)
        (λ spots. unpacked bytes.now ≡ Some spots.items)) }
{
    if bytes.is_empty() {
        return Ok(None);
    }
    let mut spots = Vec::with_capacity(alloc, bytes.len() / 4)?;
    let mut is_first = true;
    let mut last = ORIGIN;
    let mut left = bytes;
    while !left.is_empty() {
        let Some((spot, rest)) = first_spot(left, &last, is_first) else {
            return Ok(None);
        };
        spots.push(spot)?;
        is_first = false;
        last = spot;
        left = rest;
    }
    Ok(Some(spots))
}

/// Whether bytes are the packed list of these postings' places: no other bytes stand for them.
pub fn is_list_of(bytes: &[u8], postings: &[Posting]) -> bool
    ensures { IsTrue result ↔ (unpacked bytes.now ≡ Some (map spot_of postings.now)) }
{
    let mut left = bytes;
    let mut last = ORIGIN;
    for (at, posting) in postings.iter().enumerate() {
        match first_spot(left, &last, at == 0) {
            Some((spot, rest)) if spot == posting.spot => left = rest,
            _ => return false,
        }
        last = posting.spot;
    }
    left.is_empty() && !postings.is_empty()
}
