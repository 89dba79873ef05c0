//! The text of a message, its placeholders filled with arguments (CSPro Users Guide, Errmsg function; the
//! widths and their limits are own).

ghost use Rattle.std.specs.Prelude.{◌≡◌, ◌<◌, ◌-◌, ◌++◌, ◌∷◌, [], OnOk, IfOk, codes, length, map, replicate, reverse, drop, true};
ghost use Rattle.std.specs.Char.{encode_utf8};
ghost use Rattle.std.specs.Fmt.{signed_decimal};
ghost use Rattle.std.specs.Str.{IsUtf8, encode_utf8_all};
ghost use Rattle.cse_value.specs.Texts.{blanks};
ghost use Rattle.cse_value.specs.Field.{filled};
ghost use Rattle.cse_report.specs.MessageText.{aligned, number_text, visible, without_end, words_text, number_by, words_by, piece_text, arguments_after, message_text};
ghost use Rattle.cse_report.specs.Filling.{IsPlaced};

use crate::argument::Arg;
use cse_image_parts::placeholders::{Piece, Pieces};
use cse_value::{Num, show_num};
use itoa::Buffer;
use std::alloc::AllocError;

/// Puts a byte so many times.
fn put_repeated(out: &mut Vec<u8>, byte: u8, count: usize) -> Result<(), AllocError>
    ensures { OnOk result (out.new.items ≡ out.old.items ++ replicate count byte) }
{
    'bytes: for _again in 0..count {
        out.push(byte)?;
    }
    Ok(())
}

/// Puts a text in at least so many columns, with blanks in front.
fn put_aligned(out: &mut Vec<u8>, width: usize, text: &str) -> Result<(), AllocError>
    ensures bytes { OnOk result (out.new.items ≡ out.old.items ++ aligned width text.now) }
    ensures utf8 { OnOk result (IsUtf8 (aligned width text.now)) }
{
    put_repeated(out, b' ', width.saturating_sub(text.len()))?;
    out.extend_from_slice(text.as_bytes())
}

/// Puts a whole number in so many columns more, with zeros after its sign.
fn put_zero_filled(out: &mut Vec<u8>, room: usize, number: i64) -> Result<(), AllocError>
    ensures bytes { OnOk result (out.new.items ≡ out.old.items ++ filled room true number) }
    ensures utf8 { OnOk result (IsUtf8 (filled room true number)) }
{
    let mut buffer = Buffer::new();
    let text = buffer.format(number).as_bytes();
    if number < 0 {
        out.push(b'-')?;
        put_repeated(out, b'0', room)?;
        return out.extend_from_slice(&text[1..]);
    }
    put_repeated(out, b'0', room)?;
    out.extend_from_slice(text)
}

/// Puts a number in at least so many columns, with zeros after its sign or blanks in front; a special
/// value by its name, with blanks in front.
fn put_number(out: &mut Vec<u8>, width: usize, zeros: bool, value: Num) -> Result<(), AllocError>
    ensures bytes { OnOk result (out.new.items ≡ out.old.items ++ number_text width zeros value) }
    ensures utf8 { OnOk result (IsUtf8 (number_text width zeros value)) }
{
    let shown = show_num(value);
    match value {
        Num::Whole(number) if zeros => {
            put_zero_filled(out, width.saturating_sub(shown.len()), number)
        }
        Num::Whole(_) | Num::NotAppl | Num::Missing | Num::Undef => {
            put_aligned(out, width, shown.as_str())
        }
    }
}

/// Puts a character in UTF-8.
pub fn put_char(out: &mut Vec<u8>, character: char) -> Result<(), AllocError>
    ensures bytes { OnOk result (out.new.items ≡ out.old.items ++ encode_utf8 character) }
    ensures utf8 { OnOk result (IsUtf8 (encode_utf8 character)) }
{
    let code = character as u32;
    if code < 128 {
        out.push(code as u8)?;
        return Ok(());
    }
    let mut buffer = [0u8; 4];
    out.extend_from_slice(character.encode_utf8(&mut buffer).as_bytes())
}

/// A character below U+0020 shows as `?`.
fn visible(character: char) -> char
    ensures { result ≡ visible character }
{
    if character < ' ' { '?' } else { character }
}

/// The characters without the blanks at their end.
fn without_end(text: &[char]) -> &[char]
    ensures { result.now ≡ without_end text.now }
{
    let mut rest = text;
    'blanks: while let [more @ .., ' '] = rest {
        rest = more;
    }
    rest
}

/// Puts characters as they show.
fn put_visible(out: &mut Vec<u8>, text: &[char]) -> Result<(), AllocError>
    ensures bytes { OnOk result (out.new.items ≡ out.old.items ++ encode_utf8_all (map visible text.now)) }
    ensures utf8 { OnOk result (IsUtf8 (encode_utf8_all (map visible text.now))) }
{
    'characters: for character in text {
        put_char(out, visible(*character))?;
    }
    Ok(())
}

/// Puts a text without the blanks at its end.
#[tactic(auto, unfolding(crate::specs::MessageText::words_text))]
fn put_words(out: &mut Vec<u8>, text: &[char]) -> Result<(), AllocError>
    ensures bytes { OnOk result (out.new.items ≡ out.old.items ++ words_text text.now) }
    ensures utf8 { OnOk result (IsUtf8 (words_text text.now)) }
{
    put_visible(out, without_end(text))
}

/// Puts the number that comes next.
fn put_next_number(
    out: &mut Vec<u8>,
    width: usize,
    zeros: bool,
    args: &[Arg],
) -> Result<(), AllocError>
    ensures bytes { OnOk result (out.new.items ≡ out.old.items ++ number_by width zeros args.now) }
    ensures utf8 { OnOk result (IsUtf8 (number_by width zeros args.now)) }
{
    match args {
        [Arg::Number(value), ..] => put_number(out, width, zeros, *value),
        _ => Ok(()),
    }
}

/// Puts the text that comes next.
fn put_next_words(out: &mut Vec<u8>, args: &[Arg]) -> Result<(), AllocError>
    ensures bytes { OnOk result (out.new.items ≡ out.old.items ++ words_by args.now) }
    ensures utf8 { OnOk result (IsUtf8 (words_by args.now)) }
{
    match args {
        [Arg::Words(text), ..] => put_words(out, text.as_slice()),
        _ => Ok(()),
    }
}

/// The arguments after the next one.
fn after_next(args: &[Arg]) -> &[Arg]
    ensures { result.now ≡ drop 1 args.now }
{
    match args {
        [] => args,
        [_, rest @ ..] => rest,
    }
}

/// Puts what stands for a piece, and tells which arguments come after it.
fn put_piece<'a>(out: &mut Vec<u8>, piece: Piece, args: &'a [Arg]) -> Result<&'a [Arg], AllocError>
    ensures bytes { OnOk result (out.new.items ≡ out.old.items ++ piece_text piece args.now) }
    ensures rest { IfOk result (λ rest. rest.now ≡ arguments_after piece args.now) }
    ensures utf8 { OnOk result (IsPlaced piece args.now) }
{
    match piece {
        Piece::Plain(byte) => {
            out.push(byte)?;
            Ok(args)
        }
        Piece::Number { width, zeros } => {
            put_next_number(out, usize::from(width), zeros, args)?;
            Ok(after_next(args))
        }
        Piece::Text => {
            put_next_words(out, args)?;
            Ok(after_next(args))
        }
    }
}

/// Puts the text of a message with these arguments.
#[tactic(auto, unfolding(crate::specs::MessageText::message_text))]
pub fn put_message(out: &mut Vec<u8>, text: &str, args: &[Arg]) -> Result<(), AllocError>
    ensures bytes { OnOk result (out.new.items ≡ out.old.items ++ message_text text.now args.now) }
    ensures utf8 { OnOk result (IsUtf8 (message_text text.now args.now)) }
{
    let mut pieces = Pieces::new(text.as_bytes());
    let mut rest = args;
    'pieces: while let Some(piece) = pieces.next() {
        rest = put_piece(out, piece, rest)?;
    }
    Ok(())
}
