//! What the words of a command line ask for.

/// A command.
#[derive(Clone, Copy)]
pub(crate) enum Command {
    /// `diff DICT DATA OUT [--by ITEM[,ITEM]] [--cases F] [--html F] [--csv F]`
    Diff,
    /// `look DICT DATA`
    Look,
    /// `dict DICT`
    Dict,
    /// `report DICT LIST FREQ [--html F] [--csv F]`
    Report,
    /// `show IMAGE [DICT]`
    Show,
}

/// What the words of a command name: its paths, in their order, and its options.
#[derive(Clone, Copy)]
pub(crate) struct Asked<'a> {
    /// How many paths there are; the others are empty.
    pub count: usize,
    pub first: &'a str,
    pub second: &'a str,
    pub third: &'a str,
    /// The id items by which areas are told, with commas between them.
    pub by: Option<&'a str>,
    pub cases: Option<&'a str>,
    pub html: Option<&'a str>,
    pub csv: Option<&'a str>,
}

/// Which path of a command it is.
#[derive(Clone, Copy)]
pub(crate) enum Slot {
    First,
    Second,
    Third,
    /// The one behind `--cases`, `--html` or `--csv`.
    Cases,
    Page,
    Table,
}

impl<'a> Asked<'a> {
    /// The path, if it is named.
    pub(crate) fn path_if(&self, slot: Slot) -> Option<&'a str> {
        match slot {
            Slot::First => Some(self.first),
            Slot::Second => Some(self.second),
            Slot::Third => Some(self.third),
            Slot::Cases => self.cases,
            Slot::Page => self.html,
            Slot::Table => self.csv,
        }
    }

    /// The path; an empty one where it is not named.
    pub(crate) fn path(&self, slot: Slot) -> &'a str {
        self.path_if(slot).unwrap_or("")
    }
}

/// How many options there are.
const OPTIONS: usize = 4;

/// What the next word is.
#[derive(Clone, Copy)]
enum Next {
    Any,
    /// A path, whatever it begins with.
    Path,
    /// What stands behind the option of this number.
    Value(usize),
}

/// The words so far.
#[derive(Clone, Copy)]
struct Reader<'a> {
    paths: [&'a str; 3],
    count: usize,
    /// What stands behind `--by`, `--cases`, `--html` and `--csv`.
    options: [Option<&'a str>; OPTIONS],
    /// The first of these that the command has.
    first_option: usize,
    next: Next,
    /// Whether these are no words of the command.
    is_wrong: bool,
}

/// Whether a word can be no path, unless it stands behind `--`.
fn is_option(word: &str) -> bool {
    word.len() > 1 && word.starts_with('-')
}

/// The number of an option; of a word that is none the number behind the last.
fn option_of(word: &str) -> usize {
    match word {
        "--by" => 0,
        "--cases" => 1,
        "--html" => 2,
        "--csv" => 3,
        _ => OPTIONS,
    }
}

/// The fewest paths of a command, the most, and the first of the options that it has.
fn form_of(command: Command) -> (usize, usize, usize) {
    match command {
        Command::Diff => (3, 3, 0),
        Command::Look => (2, 2, 4),
        Command::Dict => (1, 1, 4),
        Command::Report => (3, 3, 2),
        Command::Show => (1, 2, 4),
    }
}

impl<'a> Reader<'a> {
    /// No words, of a command with the options from this one on.
    fn new(first_option: usize) -> Reader<'a> {
        Reader {
            paths: [""; 3],
            count: 0,
            options: [None; OPTIONS],
            first_option,
            next: Next::Any,
            is_wrong: false,
        }
    }

    /// A path.
    fn put_path(&mut self, path: &'a str) {
        let count = self.count;
        match self.paths.get_mut(count) {
            Some(place) => *place = path,
            None => self.is_wrong = true,
        }
        self.count = count.saturating_add(1);
    }

    /// What stands behind an option.
    fn put_value(&mut self, option: usize, value: &'a str) {
        if option < self.first_option || option >= OPTIONS || self.options[option].is_some() {
            self.is_wrong = true;
        } else {
            self.options[option] = Some(value);
        }
        self.next = Next::Any;
    }

    /// The next word.
    fn take(&mut self, word: &'a str) {
        match self.next {
            Next::Path => self.put_path(word),
            Next::Value(option) => {
                self.is_wrong |= is_option(word);
                self.put_value(option, word);
            }
            Next::Any if word == "--" => self.next = Next::Path,
            Next::Any if !is_option(word) => self.put_path(word),
            Next::Any => match word.split_once('=') {
                Some((option, value)) => self.put_value(option_of(option), value),
                None => self.next = Next::Value(option_of(word)),
            },
        }
    }

    /// Whether the words may end here: none of them is wrong, nothing is to stand behind the last, and there are as many paths as
    /// there may be.
    fn is_well(&self, least: usize, most: usize) -> bool {
        match self.next {
            Next::Value(_) => false,
            _ => !self.is_wrong && least <= self.count && self.count <= most,
        }
    }

    /// What the words name.
    fn asked(self) -> Asked<'a> {
        let [first, second, third] = self.paths;
        let [by, cases, html, csv] = self.options;
        Asked {
            count: self.count,
            first,
            second,
            third,
            by,
            cases,
            html,
            csv,
        }
    }
}

/// Reads words.
fn read_words<'a>(reader: &mut Reader<'a>, words: &'a [String]) {
    for word in words {
        reader.take(word.as_str());
    }
}

/// The command of a word, if it is one.
pub(crate) fn command_of(word: &str) -> Option<Command> {
    match word {
        "diff" => Some(Command::Diff),
        "look" => Some(Command::Look),
        "dict" => Some(Command::Dict),
        "report" => Some(Command::Report),
        "show" => Some(Command::Show),
        _ => None,
    }
}

/// What the words behind a command name; none where they are no words of it.
pub(crate) fn asked_of<'a>(command: Command, words: &'a [String]) -> Option<Asked<'a>> {
    let (least, most, first_option) = form_of(command);
    let mut reader = Reader::new(first_option);
    read_words(&mut reader, words);
    if reader.is_well(least, most) {
        Some(reader.asked())
    } else {
        None
    }
}
