//! The first line of a slice of bytes, and its parts.

ghost use Rattle.std.specs.Prelude.{◌≡◌, ◌&&◌, [], IfNone, IfSome, true};
ghost use Rattle.memchr.specs.Find.{IsFirstByte, is_byte};
ghost use Rattle.cse_case.specs.Cutting.{HasNoFeed, IsFirstLine};
ghost use Rattle.cse_case.specs.Line.{before_end, ending_of, has_mark, is_excessive, lines_in, without_mark};

use crate::line::Ending;
use memchr::memchr;
use std::simd::prelude::*;

/// The most bytes of a line, its end and the mark not counted.
pub const MOST_BYTES: usize = 262_144;

/// A line's bytes before its end, and its end.
pub fn split_end(line: &[u8]) -> (&[u8], Ending)
    ensures text { result.0.now ≡ before_end line.now }
    ensures ending { result.1 ≡ ending_of line.now }
{
    match line {
        [text @ .., b'\r', b'\n'] => (text, Ending::ReturnFeed),
        [text @ .., b'\n'] => (text, Ending::Feed),
        _ => (line, Ending::FileEnd),
    }
}

/// Whether bytes at the front of the file begin with the mark, and the bytes behind it.
pub fn split_mark(bytes: &[u8], front: bool) -> (bool, &[u8])
    ensures text { result.1.now ≡ without_mark front bytes.now }
    ensures mark { result.0 ≡ (front && has_mark bytes.now) }
{
    match bytes {
        [0xef, 0xbb, 0xbf, text @ ..] if front => (true, text),
        _ => (false, bytes),
    }
}

/// Whether bytes without a line feed are too long for a line, whatever follows.
fn is_excessive(bytes: &[u8], front: bool) -> bool
    ensures { result ≡ is_excessive (front, bytes.now) }
{
    let len = split_mark(bytes, front).1.len();
    match bytes {
        [.., b'\r'] => len.saturating_sub(1) > MOST_BYTES,
        _ => len > MOST_BYTES,
    }
}

/// The first line feed. Most lines are short, so the first bytes are looked at where it is called, all at once.
#[inline(always)]
fn find_feed(bytes: &[u8]) -> Option<usize>
    ensures { IsFirstByte (is_byte 10) bytes.now result }
{
    if bytes.len() >= 32 {
        let feeds = u8x32::from_slice(bytes).simd_eq(u8x32::splat(b'\n'));
        let at = feeds.to_bitmask().trailing_zeros() as usize;
        if at < 32 {
            return Some(at);
        }
    }
    memchr(b'\n', bytes)
}

/// The first line of the bytes, with its end, if there is one.
pub fn first_line(bytes: &[u8], front: bool, ended: bool) -> Option<&[u8]>
    ensures none { IfNone result ((lines_in front ended bytes.now ≡ []) × (ended ≡ true → bytes.now ≡ [])) }
    ensures unended { IfNone result (HasNoFeed bytes.now) }
    ensures some { IfSome result (λ line. IsFirstLine front ended bytes.now line.now) }
{
    if bytes.is_empty() {
        return None;
    }
    match find_feed(bytes) {
        Some(i) => Some(&bytes[..i + 1]),
        None if ended || is_excessive(bytes, front) => Some(bytes),
        None => None,
    }
}
