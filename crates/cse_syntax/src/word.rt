//! The words of a text: reserved, left out, or names.

ghost use Rattle.std.specs.Prelude.{◌≡◌, if◌then◌else◌, length, map, nat_le};
ghost use Rattle.std.specs.Str.{str_eq_ignore_ascii_case};
ghost use Rattle.cse_syntax_tree.specs.Leaf as spec;

use cse_syntax_tree::{Jump, Kind, Mark, Special};

/// How many characters a name may have.
const NAME_LEN: usize = 32;

/// The words that are no names, and what they are.
const WORDS: [(&[u8], Kind); 63] = [
    // What opens and names the parts of a source.
    (b"proc", Kind::Mark(Mark::Proc)),
    (b"global", Kind::Mark(Mark::Global)),
    (b"preproc", Kind::Mark(Mark::Preproc)),
    (b"postproc", Kind::Mark(Mark::Postproc)),
    (b"numeric", Kind::Mark(Mark::Numeric)),
    (b"alpha", Kind::Mark(Mark::Alpha)),
    (b"array", Kind::Mark(Mark::Array)),
    (b"save", Kind::Mark(Mark::Save)),
    (b"function", Kind::Mark(Mark::Function)),
    (b"end", Kind::Mark(Mark::End)),
    // Statements that hold others.
    (b"if", Kind::Mark(Mark::If)),
    (b"then", Kind::Mark(Mark::Then)),
    (b"elseif", Kind::Mark(Mark::ElseIf)),
    (b"else", Kind::Mark(Mark::Else)),
    (b"endif", Kind::Mark(Mark::EndIf)),
    (b"for", Kind::Mark(Mark::For)),
    (b"in", Kind::Mark(Mark::In)),
    (b"do", Kind::Mark(Mark::Do)),
    (b"enddo", Kind::Mark(Mark::EndDo)),
    (b"varying", Kind::Mark(Mark::Varying)),
    (b"until", Kind::Mark(Mark::Until)),
    (b"by", Kind::Mark(Mark::By)),
    // Other statements.
    (b"impute", Kind::Mark(Mark::Impute)),
    (b"putdeck", Kind::Mark(Mark::PutDeck)),
    (b"errmsg", Kind::Mark(Mark::ErrMsg)),
    (b"summary", Kind::Mark(Mark::Summary)),
    // Expressions.
    (b"and", Kind::Mark(Mark::And)),
    (b"or", Kind::Mark(Mark::Or)),
    (b"not", Kind::Mark(Mark::Not)),
    (b"getdeck", Kind::Mark(Mark::GetDeck)),
    (b"totocc", Kind::Mark(Mark::TotOcc)),
    (b"maxocc", Kind::Mark(Mark::MaxOcc)),
    (b"curocc", Kind::Mark(Mark::CurOcc)),
    (b"int", Kind::Mark(Mark::Int)),
    (b"special", Kind::Mark(Mark::Special)),
    (b"invalueset", Kind::Mark(Mark::InValueSet)),
    // The special values.
    (b"notappl", Kind::Special(Special::NotAppl)),
    (b"missing", Kind::Special(Special::Missing)),
    (b"default", Kind::Special(Special::Default)),
    // What leaves a turn, a loop or a routine.
    (b"break", Kind::Jump(Jump::Break)),
    (b"next", Kind::Jump(Jump::Next)),
    (b"exit", Kind::Jump(Jump::Exit)),
    // Words of CSPro's logic that are no part of this language.
    (b"while", Kind::LeftOut),
    (b"recode", Kind::LeftOut),
    (b"box", Kind::LeftOut),
    (b"endbox", Kind::LeftOut),
    (b"skip", Kind::LeftOut),
    (b"stop", Kind::LeftOut),
    (b"write", Kind::LeftOut),
    (b"noinput", Kind::LeftOut),
    (b"advance", Kind::LeftOut),
    (b"reenter", Kind::LeftOut),
    (b"denom", Kind::LeftOut),
    (b"stat", Kind::LeftOut),
    (b"insert", Kind::LeftOut),
    (b"delete", Kind::LeftOut),
    (b"sort", Kind::LeftOut),
    (b"file", Kind::LeftOut),
    (b"list", Kind::LeftOut),
    (b"onfocus", Kind::LeftOut),
    (b"killfocus", Kind::LeftOut),
    (b"onoccchange", Kind::LeftOut),
    (b"export", Kind::LeftOut),
];

fn is_word(text: &[u8], word: &[u8]) -> bool
    ensures { result ≡ str_eq_ignore_ascii_case text.now word.now }
{
    text.eq_ignore_ascii_case(word)
}

/// The word of a table that a text spells in either case.
fn looked_up(mut table: &[(&[u8], Kind)], text: &[u8]) -> Option<Kind>
    ensures { result ≡ spec.looked_up (map (λ k. (k.0.now, k.1)) table.entry.now) text.now }
{
    while let [entry, rest @ ..] = table {
        if is_word(text, entry.0) {
            return Some(entry.1);
        }
        table = rest;
    }
    None
}

/// A word that no table has: a name, unless it is too long for one.
fn unlisted(text: &[u8]) -> Kind
    ensures { result ≡ (if nat_le (length text.now) 32 then Kind.Name else Kind.LongWord) }
{
    if text.len() <= NAME_LEN {
        Kind::Name
    } else {
        Kind::LongWord
    }
}

/// What a word is.
pub fn word_kind(text: &[u8]) -> Kind
    ensures { result ≡ spec.word_kind text.now }
{
    match looked_up(&WORDS, text) {
        Some(kind) => kind,
        None => unlisted(text),
    }
}
