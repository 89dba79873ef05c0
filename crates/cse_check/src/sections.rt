//! What the tables of docs/FAULTS.md say of a number, as `explain` prints it. `docs/hints` writes this file.

/// A section of each number, with an empty line behind it.
pub const SECTIONS: &[u8] = b"10  Dictionary
- the dictionary isn't UTF-8; then nothing else counts
  told at: line 0
  what to do: save it as UTF-8, as CSPro does

11  Dictionary
- the first section isn't `[Dictionary]`, or there is no section; then nothing else counts
  told at: line 0
  what to do: hand in a `.dcf` file of CSPro 7; a dictionary in JSON, as of CSPro 8, is none

12  Dictionary
- a key is missing that has to stand, or there is no `[Level]`
  told at: the heading of its section; the line of `[Dictionary]`
  what to do: add it; FORMATS.md has which
- an item before `[IdItems]` and every record, or a value set before every item
  told at: its heading
  what to do: put it behind what it belongs to

13  Dictionary
- a second `[Level]`; nothing is read after it
  told at: its heading
  what to do: this profile has one level: make a dictionary of each

14  Dictionary
- a number is unreadable or out of its range, `EditMissing` doesn't fit its item, or `RecordTypeValue` is too long
  told at: the key
  what to do: correct the value; FORMATS.md has the ranges

15  Dictionary
- an item ends past its record
  told at: the item's heading
  what to do: correct Start, Len or RecordLen

16  Dictionary
- a name comes twice, in any letter case, over dictionary, level, records, items and sets
  told at: the later heading
  what to do: rename one

17  Dictionary
- too many of something (200 records, 50 id items, 10,000 items, 10,000 sets; 100,000 pairs in all, 65,534 rows a set)
  told at: the heading of the first too many; the `Value` key
  what to do: divide the dictionary, or shorten the set
- the text has more than 268,435,456 bytes
  told at: nothing
  what to do: name another file: this one may never end, as `/dev/zero`
- a name isn't a letter followed by letters, digits and `_`, at most 32
  told at: the key
  what to do: rename it

18  Dictionary
- a record type comes twice
  told at: the later heading
  what to do: correct one

20  Data
- a line of the data isn't UTF-8
  told at: the line
  what to do: save the file as UTF-8: an old file may be in the code page of the machine that wrote it

21  Data
- a line is above 262,144 bytes without its end, or above 65,536 columns
  told at: the line
  what to do: correct the file; perhaps its line ends are lost

22  Data
- more than 10,000 consecutive lines have the same id columns
  told at: the first line too many
  what to do: correct the file, or Start and Len of the id items

23  What a run read and wrote
- a line of OUT has none beside it in DATA, or the other way round; or one of another record or with other ids
  told at: the line
  what to do: hand in the file that the run read, and the one that it wrote

30  Logic, as text
- a character that no token has: `^`, `.`, `[`, `:`, `$`, `&`, `|`, `!`, `#`, a `_` at the front of a word, a letter beyond ASCII outside texts and comments, a `}` alone
  told at: line and column
  what to do: LOGIC.md has the characters; decimals and substrings are left out
- the bytes of logic aren't UTF-8
  told at: line 0 column 0
  what to do: save it as UTF-8
- a line of a message file is no message, comment or empty line
  told at: the line, column 1
  what to do: a number, blanks, the text; a line of blanks alone is no empty line

31  Logic, as text
- a comment without an end
  told at: its outermost `{`
  what to do: close it; comments in braces nest
- a text without an end on its line, above 255 characters, or with a control character (a tab is one)
  told at: its opening quote
  what to do: close or shorten it

32  Logic, as text
- a token that can't stand here; also a reserved word as a name, a word above 32 characters, another name at the end of a `do`
  told at: the token, or the end of the text
  what to do: look at the token before it: a `;` or an `endif` lacks

33  Logic, as text
- a word of CSPro's logic that is left out
  told at: the word
  what to do: LOGIC.md says what to write instead

34  Logic, as text
- more than 64 parentheses and `if`, `for`, `do` are open
  told at: the `(`, or the word, that is one too many
  what to do: nest less, or close what is open

35  Logic, as text
- a number out of its range: above 9223372036854775807; a length not 1 to 255; a dimension not 1 to 65535; a `do` beyond 999,999,999; a step not 1 to 999; a message's number in its file not 1 to 999,999,999
  told at: the number; of a message file the line, column 1
  what to do: write another

40  Names and kinds
- a line of an order file names no record, or one that an earlier line names; blanks around the name
  told at: the line, column 1
  what to do: correct the name, or take the line out
- a name is unknown, or means something else than what stands here
  told at: the name
  what to do: declare it in PROC GLOBAL; name dictionary items as the dictionary does; functions of CSPro that are left out are unknown names
- a name is declared twice, or bears the name of something in the dictionary
  told at: the later name
  what to do: rename the variable
- a PROC of a name that has one already; a message number that the message file lacks
  told at: the name; the number
  what to do: join them; add it
- an array in `getdeck` or `putdeck` that is no deck (a dimension is a number); `invalueset` of an item that has no set
  told at: the name
  what to do: declare it over value sets
- a name behind `--by` is no id item of the dictionary
  told at: nothing, and no file
  what to do: name id items, with commas between them

41  Names and kinds
- an opaque item (decimals, several occurrences, too long, or over the columns of ids and record type), or a set of one
  told at: the name
  what to do: its columns are carried, logic can't name it: give the dictionary an item without decimals over these columns

42  Names and kinds
- a partial value set: something on its `Value` lines is no pair
  told at: the name of the set
  what to do: correct the set

43  Names and kinds
- an id item is assigned or imputed, a number or a text
  told at: the name
  what to do: ids stay: correct them before the run

44  Names and kinds
- a text beside a number, or where only a number can stand; a number that is assigned to a text
  told at: the text, a literal or a name, also in parentheses
  what to do: compare texts with texts; take a numeric item, or compare and assign the text
- a value of `errmsg` of the other kind
  told at: its first token
  what to do: `%d` shows a number, `%s` a text
- an alpha item in `impute` or `invalueset`; a set of one as a dimension
  told at: the name
  what to do: take a numeric item
- another number of subscripts or arguments than declared; an id item, or a variable, with a subscript; an array without
  told at: the name, also before the `end` of the function, or where the declaration is at fault too
  what to do: write as many as are declared

45  Names and kinds
- a function is used before its `end`, also within itself
  told at: the name
  what to do: move it up; there is no recursion

46  Names and kinds
- `/` elsewhere than as the last operator right inside `int(..)`
  told at: the operator
  what to do: `int(a / b)`

47  Names and kinds
- the variable of an open loop is assigned, is that of an inner loop, or may be assigned by a function that is called there
  told at: the variable, or the function's name
  what to do: take another variable

48  Names and kinds
- a message has other placeholders than arguments, in number
  told at: the text or the message's number
  what to do: `%f` and `%10s` are no placeholders

49  Names and kinds
- `break` or `next` outside a loop
  told at: the word
  what to do: `exit` ends the event
- an item of a record whose occurrence isn't known here
  told at: the name
  what to do: `AGE(i)`, or a `for` over the record
- an item, a record, a hot deck or a function that needs a case, in the application's PROC
  told at: the name; of `curocc`, `getdeck` and `putdeck` the word, whatever is named
  what to do: move it to the level's PROC
- a PROC of an id item; a value set without rows as a dimension
  told at: the name
  what to do: move the edit to the level's PROC; give the set rows

50  Deck file
- a line is no heading, `ARRAY` or `END` line where one is due, or something follows `END`
  told at: the line
  what to do: the file was cut or changed (CRLF, a byte order mark): use a copy, or start without one

51  Deck file
- a value is unreadable or lacks
  told at: the line
  what to do: the same

52  Deck file
- an array has other sizes than the program's
  told at: the line
  what to do: value sets changed: start without the file, or edit it

53  Deck file
- an array is unknown, not saved, or comes twice
  told at: the line
  what to do: take it out of the file

54  What a run read and wrote
- a line of LIST has another form than a listing, or `END` lacks
  told at: the line
  what to do: hand in the listing of a run that came to its end

55  What a run read and wrote
- a line of FREQ has another form than frequencies, or `END` lacks
  told at: the line
  what to do: hand in the frequencies of such a run

60  Image
- the file's first bytes are not `CSEB`, or the version isn't 1 or 2
  told at: ` byte B`
  what to do: hand in an image of one of these versions

61  Image
- the image ends too early
  told at: ` byte B`, the length
  what to do: the file was cut

62  Image
- bytes are left over
  told at: ` byte B`, the first of them
  what to do: the file has something more than an image

63  Image
- a field has another form (IMAGE.md says which)
  told at: ` byte B`, the field's first

64  Image
- a count is over its limit
  told at: ` byte B`, the field's first
- logic, a message file or an order file has more than 268,435,456 bytes
  told at: nothing
  what to do: name another file: this one may never end
- logic is too large for an image: more than 4,096 arrays, 1,000,000 cells in all, three dimensions, a list longer than its array, 254 parameters, 16 placeholders, 65,536 messages or globals, 65,536 different constants, limits of loops or texts, 4,096 functions and events with logic, 1,000,000 instructions; logic of at most 60,000 tokens never has too many messages, globals, constants, limits, texts or instructions
  told at: nothing
  what to do: divide the logic, or the array; what was too much is not told

65  Verifier
- a jump or a bracket breaks its rules, or a routine doesn't end in Return
  told at: ` routine R place P`
  what to do: the image is damaged, or made by a faulty tool

66  Verifier
- no abstract stack fits a place: an operand of another kind, a stack that is too short, two stacks that differ, something left at a return, a table entry that isn't there
  told at: ` routine R place P`
  what to do: the same

67  Verifier
- a routine, or the events of a case together, may take above 1,000,000,000,000,000 steps
  told at: ` routine R place P`, the place at which the sum passes the limit; of `compile` and of a case nothing
  what to do: nest fewer loops, or loops with fewer turns; MaxRecords counts for each item event

68  Verifier
- the image was made for a dictionary of another shape (records, items or value sets differ); `try` was given one with any of these
  told at: nothing
  what to do: compile the logic with this dictionary again; `verify` it with its dictionary

69  Verifier
- a call leads to a routine that isn't smaller, or a routine of the whole run asks for a case; the edit order or an event doesn't fit
  told at: ` routine R place P`; nothing
  what to do: the image is damaged, or made by a faulty tool

70  Files, devices, memory
- a file can't be read, a folder for one (or 2^40 reads gave bytes)
  told at: nothing
  what to do: look at the file, its folder and the disk

71  Files, devices, memory
- an output can't be written
  told at: nothing
  what to do: look at the disk, or at the program that reads the pipe

72  Files, devices, memory
- a file can't be opened
  told at: nothing
  what to do: look at the path and the rights

90  Files, devices, memory
- there is not enough memory
  told at: nothing
  what to do: give the program more; what it holds of the data is one run of lines

101  Warnings
- it is assigned to itself: a field that is no number becomes `*`
  what to do: take the statement out

102  Warnings
- it doesn't fit its item: a number is written as `*` in each column, and a text is cut
  what to do: write a value that fits, or `notappl`

103  Warnings
- it is never used: nothing names it
  what to do: take it out

104  Warnings
- it is never reached: the statement before it ends the event, or the turn
  what to do: take it out, or put it before

105  Warnings
- it never turns: its limit is below its start
  what to do: correct the start or the limit

106  Warnings
- it may give 0: a cell that nothing filled is 0, and its item has no 0
  what to do: give the array a starting list, or a file of decks

107  Warnings
- it has no code for `missing`: `missing` is written as `*` in each column
  what to do: give the item EditMissing in the dictionary

108  Warnings
- it has a `%` that is no placeholder: it is shown as it is, and takes no value
  what to do: write `%d` or `%5d` for a number, `%s` for a text, `%%` for the sign

109  Warnings
- it has a row for blanks: a blank is in no set here, and picks no cell
  what to do: write `X = notappl or invalueset(X)`, or make a set without this row

110  Warnings
- it is false for a special value, and so is its opposite: `notappl`, `missing` and `default` are neither less nor greater
  what to do: write `=` or `<>`, or ask `special(X)` first

111  Warnings
- it names other occurrences alone: it runs once for each occurrence, and names none without a subscript
  what to do: take `(i)` away for the occurrence of the event, or move it to the level's PROC

";
