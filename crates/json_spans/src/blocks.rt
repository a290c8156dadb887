// Bytes of a part that are passed over a block at a time.
ghost use Rattle.std.specs.Prelude.{◌≡◌, ◌≤◌, ◌+◌, ◌<◌, ◌^◌, ℕ, map, take, drop, length, false};
ghost use Rattle.std.specs.List.{prefix_len, count_by};
ghost use Rattle.std.specs.Simd.Lanes.{mask_l};
ghost use Rattle.json_spans.specs.Parts.{part_len, opens, closes};
ghost use Rattle.json_spans.specs.Blocks.{is_stop, is_calm, is_quote, is_unquoted, is_unclosed, is_odd, turned, is_escaped};

use crate::parts::Skip;
use std::simd::prelude::*;

const LANES: usize = 32;

/// Bytes that are passed over, and where they lead.
#[derive(Clone, Copy)]
pub(crate) struct Front {
    pub(crate) len: usize,
    pub(crate) skip: Skip,
    pub(crate) level: usize,
}

// The lanes with a bracket, a backslash or a bar: with the bit of small letters these are the three
// bytes from `{` on.
#[inline(always)]
fn stops(v: u8x32) -> u64
    ensures { result ≡ mask_l (map is_stop v) }
{
    ((v | u8x32::splat(0x20)) - u8x32::splat(b'{'))
        .simd_lt(u8x32::splat(3))
        .to_bitmask()
}

#[inline(always)]
fn quotes(v: u8x32) -> u64
    ensures { result ≡ mask_l (map is_quote v) }
{
    v.simd_eq(u8x32::splat(b'"')).to_bitmask()
}

fn is_escaped(skip: Skip) -> bool
    ensures { result ≡ is_escaped skip }
{
    match skip {
        Skip::Plain | Skip::Quoted => false,
        Skip::Escaped => true,
    }
}

// Where quotes lead that are not escaped, by whether they are an odd number.
#[inline(always)]
fn turned(skip: Skip, is_odd: bool) -> Skip
    ensures { result ≡ turned skip is_odd }
{
    match skip {
        Skip::Plain if is_odd => Skip::Quoted,
        Skip::Quoted if is_odd => Skip::Plain,
        _ => skip,
    }
}

// How many lanes come before the first stop.
#[inline(always)]
fn calm_lanes(v: u8x32) -> u32
    ensures { result ≡ prefix_len is_calm v }
{
    let mask = stops(v);
    if mask == 0 {
        LANES as u32
    } else {
        mask.trailing_zeros()
    }
}

// Whether the quotes among so many lanes are an odd number.
#[inline(always)]
fn are_odd(v: u8x32, len: u32) -> bool
    requires { len ≤ 32 }
    ensures { result ≡ is_odd (count_by is_quote (take len v)) }
{
    (quotes(v) % (1 << len)).count_ones() % 2 == 1
}

/// The bytes in front that are neither brackets nor backslashes, at most a block of them, where these
/// are passed over alike: inside brackets, and not after a backslash.
#[inline(always)]
fn calm_front(skip: Skip, level: usize, bytes: &[u8]) -> Front
    ensures same { (sep : ℕ) → part_len sep skip level bytes.now
        ≡ result.len + part_len sep result.skip level (drop result.len bytes.now) }
    ensures bound { result.len ≤ length bytes.now }
    ensures level { result.level ≡ level }
{
    if level == 0 || bytes.len() < LANES || is_escaped(skip) {
        return Front {
            len: 0,
            skip,
            level,
        };
    }
    let v = u8x32::from_slice(bytes);
    let len = calm_lanes(v);
    Front {
        len: len as usize,
        skip: turned(skip, are_odd(v, len)),
        level,
    }
}

#[inline(always)]
fn openings(v: u8x32) -> u64
    ensures { result ≡ mask_l (map opens v) }
{
    (v | u8x32::splat(0x20))
        .simd_eq(u8x32::splat(b'{'))
        .to_bitmask()
}

#[inline(always)]
fn closings(v: u8x32) -> u64
    ensures { result ≡ mask_l (map closes v) }
{
    (v | u8x32::splat(0x20))
        .simd_eq(u8x32::splat(b'}'))
        .to_bitmask()
}

// How many brackets open among so many lanes.
#[inline(always)]
fn opened(v: u8x32, len: u32) -> u32
    requires { len ≤ 32 }
    ensures { result ≡ count_by opens (take len v) }
{
    (openings(v) % (1 << len)).count_ones()
}

// How many brackets close among so many lanes.
#[inline(always)]
fn closed(v: u8x32, len: u32) -> u32
    requires { len ≤ 32 }
    ensures { result ≡ count_by closes (take len v) }
{
    (closings(v) % (1 << len)).count_ones()
}

// How many lanes come before the first quote.
#[inline(always)]
fn unquoted_lanes(v: u8x32) -> u32
    ensures { result ≡ prefix_len is_unquoted v }
{
    let mask = quotes(v);
    if mask == 0 {
        LANES as u32
    } else {
        mask.trailing_zeros()
    }
}

// How many lanes come before the first closing bracket.
#[inline(always)]
fn unclosed_lanes(v: u8x32) -> u32
    ensures { result ≡ prefix_len is_unclosed v }
{
    let mask = closings(v);
    if mask == 0 {
        LANES as u32
    } else {
        mask.trailing_zeros()
    }
}

// How many lanes come before the first quote, and before the closing bracket that is the last
// that there is room for, or the fourth.
#[inline(always)]
fn nested_lanes(v: u8x32, room: usize) -> u32
    ensures { result ≤ prefix_len is_unquoted v }
{
    let first = closings(v);
    let second = first & first.wrapping_sub(1);
    let third = second & second.wrapping_sub(1);
    let cut = match room {
        1 => first,
        2 => second,
        3 => third,
        _ => third & third.wrapping_sub(1),
    };
    unquoted_lanes(v).min(cut.trailing_zeros())
}

/// The bytes in front that are no quotes, at most a block of them, outside strings and inside
/// brackets: fewer close among them than are open where the first of them closes.
#[inline(always)]
fn nested_front(level: usize, bytes: &[u8]) -> Front
    requires { level + length bytes.now < 2 ^ 64 }
    ensures same { (sep : ℕ) → part_len sep Skip.Plain level bytes.now
        ≡ result.len + part_len sep result.skip result.level (drop result.len bytes.now) }
    ensures bound { result.len ≤ length bytes.now }
    ensures level { result.level ≤ level + result.len }
{
    let skip = Skip::Plain;
    if level == 0 || bytes.len() < LANES {
        return Front {
            len: 0,
            skip,
            level,
        };
    }
    let v = u8x32::from_slice(bytes);
    let lead = unclosed_lanes(v);
    let room = level + opened(v, lead) as usize;
    let len = nested_lanes(v, room);
    let closing = closed(v, len) as usize;
    if closing >= room {
        return Front {
            len: 0,
            skip,
            level,
        };
    }
    let opening = opened(v, len) as usize;
    Front {
        len: len as usize,
        skip,
        level: level + opening - closing,
    }
}

// Whether a block in front has a quote: then what follows is likely names and texts, in which brackets
// are few. No answer depends on it.
#[inline(always)]
fn has_quote(bytes: &[u8]) -> bool {
    bytes.len() >= LANES && quotes(u8x32::from_slice(bytes)) != 0
}

/// Bytes in front that are passed over together, and where they lead.
#[inline(always)]
pub(crate) fn block_front(skip: Skip, level: usize, bytes: &[u8]) -> Front
    requires { level + length bytes.now < 2 ^ 64 }
    ensures same { (sep : ℕ) → part_len sep skip level bytes.now
        ≡ result.len + part_len sep result.skip result.level (drop result.len bytes.now) }
    ensures bound { result.len ≤ length bytes.now }
    ensures level { result.level ≤ level + result.len }
{
    if let Skip::Plain = skip {
        if !has_quote(bytes) {
            return nested_front(level, bytes);
        }
    }
    calm_front(skip, level, bytes)
}
