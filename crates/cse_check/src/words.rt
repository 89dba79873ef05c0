//! The words of `check`.

/// What the words of `check` name.
#[derive(Clone, Copy)]
pub struct CheckWords<'a> {
    pub dict: &'a str,
    pub logic: &'a str,
    pub messages: Option<&'a str>,
    pub order: Option<&'a str>,
    pub is_json: bool,
    pub has_warnings: bool,
}

/// What the next word is.
#[derive(Clone, Copy)]
enum Next {
    Any,
    /// The path of the messages.
    Messages,
    /// The path of the order.
    Order,
    /// A path, whatever it begins with.
    Path,
}

/// The words so far.
#[derive(Clone, Copy)]
struct Reader<'a> {
    words: CheckWords<'a>,
    /// How many paths there are that have to be given.
    paths: usize,
    next: Next,
    /// Whether these are no words of `check`.
    is_wrong: bool,
}

/// Whether a word can be no path, unless it stands behind `--`.
fn is_option(word: &str) -> bool {
    word.len() > 1 && word.as_bytes().starts_with(b"-".as_slice())
}

impl<'a> Reader<'a> {
    /// A path of the two that have to be given.
    fn put_path(&mut self, path: &'a str) {
        match self.paths {
            0 => self.words.dict = path,
            1 => self.words.logic = path,
            _ => self.is_wrong = true,
        }
        self.paths = self.paths.saturating_add(1);
    }

    /// The path of the messages.
    fn put_messages(&mut self, path: &'a str) {
        self.is_wrong = self.is_wrong || self.words.messages.is_some();
        self.words.messages = Some(path);
        self.next = Next::Any;
    }

    /// The path of the order.
    fn put_order(&mut self, path: &'a str) {
        self.is_wrong = self.is_wrong || self.words.order.is_some();
        self.words.order = Some(path);
        self.next = Next::Any;
    }

    /// A word that may be an option.
    fn put_any(&mut self, word: &'a str) {
        match word {
            "--messages" => self.next = Next::Messages,
            "--order" => self.next = Next::Order,
            "--" => self.next = Next::Path,
            "--json" => {
                self.is_wrong = self.is_wrong || self.words.is_json;
                self.words.is_json = true;
            }
            "--warnings" => {
                self.is_wrong = self.is_wrong || self.words.has_warnings;
                self.words.has_warnings = true;
            }
            _ => self.put_other(word),
        }
    }

    /// A path, or an option with its path.
    fn put_other(&mut self, word: &'a str) {
        if let Some(path) = word.strip_prefix("--messages=") {
            self.put_messages(path);
        } else if let Some(path) = word.strip_prefix("--order=") {
            self.put_order(path);
        } else {
            self.is_wrong = self.is_wrong || is_option(word);
            self.put_path(word);
        }
    }

    /// The next word.
    fn take(&mut self, word: &'a str) {
        match self.next {
            Next::Any => self.put_any(word),
            Next::Path => self.put_path(word),
            Next::Messages | Next::Order if is_option(word) => self.is_wrong = true,
            Next::Messages => self.put_messages(word),
            Next::Order => self.put_order(word),
        }
    }

    /// What the words name; none where they are no words of `check`.
    fn finish(&self) -> Option<CheckWords<'a>> {
        let is_open = matches!(self.next, Next::Messages | Next::Order);
        if self.is_wrong || is_open || self.paths < 2 {
            return None;
        }
        Some(self.words)
    }
}

/// What the words behind `check` name; none where they are no words of it.
pub fn check_words(words: &[String]) -> Option<CheckWords<'_>> {
    let mut reader = Reader {
        words: CheckWords {
            dict: "",
            logic: "",
            messages: None,
            order: None,
            is_json: false,
            has_warnings: false,
        },
        paths: 0,
        next: Next::Any,
        is_wrong: false,
    };
    for word in words {
        reader.take(word.as_str());
    }
    reader.finish()
}
