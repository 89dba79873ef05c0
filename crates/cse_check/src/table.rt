//! What is said of faults and warnings, a row each: what the row is of, and behind a `~` each what is said. docs/FAULTS.md has
//! these tables too: `docs/hints` writes them.

/// By number: what stands behind the token, below it, and as help, where `@` is a name. A number has more rows for cases of it, with
/// a word behind the number.
pub const NUMBERS: &[u8] = b"10~the dictionary is not UTF-8~~save it as UTF-8, as CSPro does
11~the first section is not `[Dictionary]`~~hand in a `.dcf` file of CSPro 7
12~a key or a section lacks~a key has to stand in this section~add the key, or move the section behind what it belongs to
13~there is a second `[Level]`~~make a dictionary of each level
14~a number is unreadable, or out of its range~this value~correct the value
15~an item ends past its record~this item~correct Start, Len or RecordLen
16~a name comes twice~this name~rename one
17~there is too much of something, or a name is none~here~divide the dictionary, shorten the set, or rename it
18~a record type comes twice~~correct one
30~is no sign of logic~no token has it~take it out: logic has whole numbers, and no parts of texts
30-bytes~the line is not UTF-8~~save it as UTF-8
30-message~the line is no message, no comment and not empty~~write a number, blanks and the text; take `Language=` and other languages out
31~has no end~it begins here~close it: a text ends on its line and has no tab, comments in braces nest
32~can't stand here~another word or sign is expected~look at what stands before it: a `;`, a `then` or an `endif` lacks
32-end~can't stand here~another word or sign is expected~an `endif`, an `enddo`, an `end` or a `;` lacks
32-in~can't stand here~another word or sign is expected~write `X >= 15 and X <= 49`, or `invalueset(X, SET)`
32-kind~can't stand here~another word or sign is expected~take it out: arrays, functions and parameters are numbers alone
32-declared~can't stand here~another word or sign is expected~declare it in PROC GLOBAL; assign it where the procedure begins
32-record~can't stand here~another word or sign is expected~name a record, as in `curocc(PERSON)`
32-occurrence~can't stand here~another word or sign is expected~write `invalueset(X)` in a `for` over the record
32-message~can't stand here~another word or sign is expected~a message is a text in quotes, or a number of the message file
32-start~can't stand here~another word or sign is expected~take the start value out; assign it in the application's preproc
32-texts~can't stand here~another word or sign is expected~there are no arrays of texts: take it out
32-loop~can't stand here~another word or sign is expected~write `do varying i = 1 until i > LIMIT`: a number, `totocc(RECORD)` or `maxocc(RECORD)`
33~is left out of this language~CSPro has it, this language has not~guard by `if`, or end the event by `exit`
34~opens one block too many~64 parentheses, `if`, `for` and `do` are open~nest less, or close what is open
35~is out of its range~its place takes smaller numbers, or other ones~write another number
35-message~the number of a message is out of its range~it is not from 1 to 999999999~write another number
40~is not known~no item, record, set, variable, array or function has this name~correct the name, or declare it in PROC GLOBAL
40-left-out~is left out of this language~CSPro has it, this language has not~correct the name, or declare it in PROC GLOBAL
40-near~is not known~no item, record, set, variable, array or function has this name~did you mean `@`?
40-owner~is not known~no record and no item of the dictionary has this name~name the application as the dictionary: `@`
40-proc~can't have this PROC~it has one already, or it is a set~join the two procedures
40-declared~can't be declared~the dictionary, or a declaration before it, has this name~rename it
40-misplaced~can't stand here~it means something else than what stands here~look at what it is: an item, a set, a record, an array or a function
40-message~is the number of no message~no line of the message file has it~add it to the file of --messages
40-order~the line names no record, or one that an earlier line names~~write the name of a record, without blanks around it, once
41~can't be named~its columns are carried as they are~give the dictionary an item over these columns, without decimals and occurrences
42~can't be used~something on its `Value` lines is no number and no range~correct the set in the dictionary
43~can't be changed~an id item stays as it is~correct ids before the run
44~doesn't fit here~a number stands beside a text, or their count is another one~compare texts with texts, and write as many values as are declared
44-text~doesn't fit here~this is a text~compare texts with texts, and assign them to alpha items and variables
44-shown~doesn't fit here~its placeholder is of the other kind~correct the message: `%d` shows a number and `%s` a text
45~is used before its end~the function has not ended yet~move the function up; there is no recursion
46~can't stand here~`/` stands only as the last operator right inside `int`~write `int(a / b)`, and for `a / b > c` write `a > b * c`
47~is the variable of a loop~the loop itself moves it~take another variable
48~has another number of placeholders~the message shows more values, or fewer, than stand behind it~`%d` shows a number and `%s` a text; `%f` and `%10s` are no placeholders
49~can't be used here~this place has no occurrence, or no case, for it~move the edit to where there is an occurrence
49-loop~can't be used here~there is no loop around it~`exit` ends the event
49-id~can't be used here~an id item has no PROC~move the edit to the level's preproc
49-application~can't be used here~the application's events have no case~move it to the level's PROC
49-record~can't be used here~which occurrence it is isn't known here~write `(i)` behind it, or put it into a `for` over `@`
101~is assigned to itself~a field that is no number becomes `*`~take the statement out
102~doesn't fit its item~a number is written as `*` in each column, and a text is cut~write a value that fits, or `notappl`
103~is never used~nothing names it~take it out
103-message~no logic has the number of this message~nothing names it~take it out
104~is never reached~the statement before it ends the event, or the turn~take it out, or put it before
105~never turns~its limit is below its start~correct the start or the limit
106~may give 0~a cell that nothing filled is 0, and its item has no 0~give the array a starting list, or a file of decks
107~has no code for `missing`~`missing` is written as `*` in each column~give the item EditMissing in the dictionary
108~has a `%` that is no placeholder~it is shown as it is, and takes no value~write `%d` or `%5d` for a number, `%s` for a text, `%%` for the sign
109~has a row for blanks~a blank is in no set here, and picks no cell~write `X = notappl or invalueset(X)`, or make a set without this row
110~is false for a special value, and so is its opposite~`notappl`, `missing` and `default` are neither less nor greater~write `=` or `<>`, or ask `special(X)` first
111~names other occurrences alone~it runs once for each occurrence, and names none without a subscript~take `(i)` away for the occurrence of the event, or move it to the level's PROC
";

/// By words of CSPro that are left out: what to write.
pub const WORDS: &[u8] = b"while~write `do varying i = 1 until i > LIMIT`, and `break` where it ends
recode endrecode~write `if` and `elseif`
box endbox~write `if` and `elseif`, or a value set and an array of as many cells
skip advance reenter~put an `if` around what is skipped; at the end of an event write `exit`
noinput stop~take it out: it belongs to data entry, or ends a run early
write file export list~write `errmsg`, and take the lines out of LIST
denom stat~take the option out; `summary` only counts a message
insert delete sort~the lines of a case stay, in number and order: there is none
onfocus killfocus onoccchange~write `preproc` or `postproc`
endlevel endgroup endcase~guard by `if`, or write `exit`
universe ask move~write `if`, or `exit`
set freq~take it out; FREQ has what was imputed
where~put an `if` into the loop, around what it does
string~write `alpha (n)`, in PROC GLOBAL
noccurs soccurs~write `totocc(RECORD)`
count sum average seek~write a `for` over the record, with a variable
min max~write a `for` with a variable, or an `if`
display warning logtext~write `errmsg`
trace~write `errmsg`
true~write `1`
false~write `0`
strip length concat pos~compare and assign whole texts, or lay items over the columns
edit maketext tonumber~write the number itself; `%02d` in a message has zeros in front
sysdate systime sysparm~assign the date as a number, in the application's preproc
random seed~there are no random numbers: impute by a rule or a hot deck
sqrt exp log round~write it by `+`, `-`, `*`, `%` and `int(a / b)`
abs~write `if X < 0 then X = -X; endif;`
refused~take a number of your own
loadcase writecase selcase~other files of cases are left out: there is none
getvalue setvalueset getlabel~name the item and its set themselves
";

/// By signs of CSPro that are left out: what to write.
pub const SIGNS: &[u8] = b"$~write the item's name
&~write `and`
|~write `or`
!~write `not`
^~multiply: there are no powers
.~there are whole numbers alone: count in tenths or hundredths
[ ]~lay an item over these columns in the dictionary
:~write `X >= 15 and X <= 49` for `X in 15:49`
}~no comment is open: take it out
_~a name begins with a letter
";
