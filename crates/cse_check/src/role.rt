//! What words do in a text.

use crate::token::Role;

/// How many bytes a row of `WORDS` takes, its line's end included.
const ROW: usize = 13;

/// Where the letter of a row stands.
const LETTER: usize = 11;

/// The words of the language and those that are left out, a row each, with a letter for what they do.
const WORDS: &str = "proc       p
global     g
preproc    v
postproc   v
numeric    d
alpha      d
array      d
string     d
function   f
end        e
if         i
then       t
elseif     I
else       l
endif      x
for        F
in         n
do         D
enddo      E
while      w
until      u
and        j
or         j
not        j
by         j
recode     T
box        T
endrecode  X
endbox     X
impute     b
putdeck    b
errmsg     b
break      b
next       b
exit       b
notappl    s
missing    s
default    s
save       r
summary    r
varying    r
getdeck    r
totocc     r
maxocc     r
curocc     r
int        r
special    r
invalueset r
skip       o
stop       o
write      o
noinput    o
advance    o
reenter    o
denom      o
stat       o
insert     o
delete     o
sort       o
file       o
list       o
onfocus    o
killfocus  o
onoccchangeo
export     o
";

/// What the words of a letter do.
fn role_by(letter: u8) -> Role {
    match letter {
        b'p' => Role::Proc,
        b'g' => Role::Global,
        b'v' => Role::Event,
        b'd' => Role::Declares,
        b'f' => Role::Function,
        b'e' => Role::End,
        b'i' => Role::If,
        b't' => Role::Then,
        b'I' => Role::ElseIf,
        b'l' => Role::Else,
        b'x' => Role::EndIf,
        b'F' => Role::For,
        b'n' => Role::In,
        b'D' => Role::Do,
        b'E' => Role::EndDo,
        b'w' => Role::While,
        b'u' => Role::Until,
        b'j' => Role::Joins,
        b'T' => Role::Table,
        b'X' => Role::EndTable,
        b'b' => Role::Begins,
        b's' => Role::Special,
        b'r' => Role::Reserved,
        b'o' => Role::LeftOut,
        _ => Role::Other,
    }
}

/// Whether a row is that of a word.
fn is_row_of(row: &[u8], word: &[u8]) -> bool {
    match row.get(..word.len()) {
        Some(own) => {
            own.eq_ignore_ascii_case(word)
                && (word.len() == LETTER || row.get(word.len()) == Some(&b' '))
        }
        None => false,
    }
}

/// What a word does.
pub fn role_of(word: &[u8]) -> Role {
    if word.len() > LETTER {
        return Role::Other;
    }
    for row in WORDS.as_bytes().chunks_exact(ROW) {
        if is_row_of(row, word) {
            return match row.get(LETTER) {
                Some(letter) => role_by(*letter),
                None => Role::Other,
            };
        }
    }
    Role::Other
}
