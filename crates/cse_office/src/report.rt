//! What the outputs of a run tell: of a listing its totals, the unseen lines by kind, and how often each message was given; of
//! frequencies how often each item was imputed, and each value of it.

use cse_sections::number::whole_of;
use std::alloc::{AllocError, Global};
use std::io::{self, BufRead, Error, ErrorKind, Read};

/// The number of a line of a listing of another form, and of one of frequencies.
pub const NO_LISTING: u8 = 54;

pub const NO_FREQUENCIES: u8 = 55;

/// Why a file is not read: the number, and the line, from 1; 0 of a device and of memory.
#[derive(Clone, Copy)]
pub struct Trouble {
    pub number: u8,
    pub line: u64,
}

/// A message: its number, how often it was given, and the text of its first statement.
pub struct Given {
    pub number: u64,
    pub times: u64,
    pub text: String,
}

impl Drop for Given {
    fn drop(self) {
        let Given {
            number: _number,
            times: _times,
            text: _text,
        } = self;
    }
}

impl Given {
    /// Whether it is the message of a number and, without a number, of a text.
    fn is_message(&self, number: u64, text: &str) -> bool {
        self.number == number && (number > 0 || self.text.as_str() == text)
    }
}

/// The place of a message among those that were given; of one that was not the place behind the last.
fn message_place(messages: &[Given], number: u64, text: &str) -> usize {
    for place in 0..messages.len() {
        if messages[place].is_message(number, text) {
            return place;
        }
    }
    messages.len()
}

/// An item that was imputed: its name, how often, and its values with how often each, in order. A value is told by whether
/// it is special, by its number, and as it stands.
pub struct Imputed {
    pub name: String,
    pub times: u64,
    pub values: Vec<(bool, i64, String, u64)>,
}

impl Drop for Imputed {
    fn drop(self) {
        let Imputed {
            name: _name,
            times: _times,
            values: _values,
        } = self;
    }
}

/// Where in a file a line stands.
#[derive(Clone, Copy)]
enum Part {
    Heading,
    Body,
    Totals,
    FrequenciesHeading,
    Frequencies,
    Ended,
}

/// What a line between the heading and the summary is.
#[derive(Clone, Copy)]
enum Body {
    /// The heading of the summary.
    Summary,
    /// A line of no record.
    Unknown,
    /// A line past the most occurrences of its record.
    Extra,
    /// Another one that may stand there.
    Told,
    /// One that may not.
    Wrong,
}

/// What a line is that tells an unseen line.
fn unseen_of(line: &str) -> Body {
    if line.ends_with(" unknown") {
        Body::Unknown
    } else if line.ends_with(" extra") {
        Body::Extra
    } else {
        Body::Wrong
    }
}

/// What a line between the heading and the summary is.
fn body_of(line: &str) -> Body {
    match line {
        "SUMMARY" => Body::Summary,
        "RUN" => Body::Told,
        _ if line.starts_with("U ") => unseen_of(line),
        _ if line.starts_with("CASE [") || line.starts_with("M ") => Body::Told,
        _ => Body::Wrong,
    }
}

/// What was read so far.
pub struct Report {
    alloc: Global,
    part: Part,
    pub cases: u64,
    pub lines: u64,
    pub unknown: u64,
    pub extra: u64,
    pub messages: Vec<Given>,
    pub items: Vec<Imputed>,
    lacks_memory: bool,
}

// Written out, so that one who owns it calls this drop and does not prove one for each part.
impl Drop for Report {
    fn drop(self) {
        let Report {
            alloc: _alloc,
            part: _part,
            cases: _cases,
            lines: _lines,
            unknown: _unknown,
            extra: _extra,
            messages: _messages,
            items: _items,
            lacks_memory: _lacks_memory,
        } = self;
    }
}

/// A count: digits alone.
fn count_of(text: &str) -> Option<u64> {
    if text.starts_with('+') {
        return None;
    }
    text.parse::<u64>().ok()
}

/// A word, and a count behind a blank.
fn word_and_count(line: &str) -> Option<(&str, u64)> {
    let Some((word, times)) = line.split_once(' ') else {
        return None;
    };
    let Some(count) = count_of(times) else {
        return None;
    };
    Some((word, count))
}

/// A line can't be read: want of memory, bytes that are no text, or a device that failed.
fn trouble_of(error: &Error, form: u8, line: u64) -> Trouble {
    match error.kind() {
        ErrorKind::OutOfMemory => Trouble {
            number: 90,
            line: 0,
        },
        ErrorKind::InvalidData => Trouble { number: form, line },
        _ => Trouble {
            number: 70,
            line: 0,
        },
    }
}

impl Report {
    /// Nothing is read so far.
    pub fn new(alloc: Global) -> Report {
        Report {
            alloc,
            part: Part::Heading,
            cases: 0,
            lines: 0,
            unknown: 0,
            extra: 0,
            messages: Vec::new(alloc),
            items: Vec::new(alloc),
            lacks_memory: false,
        }
    }

    /// Reads a line between the heading and the summary. Tells whether it may stand there.
    fn read_body(&mut self, line: &str) -> bool {
        match body_of(line) {
            Body::Summary => self.part = Part::Totals,
            Body::Unknown => self.unknown = self.unknown.saturating_add(1),
            Body::Extra => self.extra = self.extra.saturating_add(1),
            Body::Told => {}
            Body::Wrong => return false,
        }
        true
    }

    /// Adds a message.
    fn add_message(&mut self, number: u64, times: u64, text: &str) -> Result<(), AllocError> {
        let text = String::from_str(self.alloc, text)?;
        self.messages.push(Given {
            number,
            times,
            text,
        })?;
        Ok(())
    }

    /// Counts a message: those of one number and, without a number, of one text are one.
    fn count_message(&mut self, number: u64, times: u64, text: &str) {
        let place = message_place(&self.messages, number, text);
        match self.messages.get_mut(place) {
            Some(given) => given.times = given.times.saturating_add(times),
            None => self.lacks_memory |= self.add_message(number, times, text).is_err(),
        }
    }

    /// Reads what stands behind the word `message`: a number, a count, and a text or none. Tells whether it does.
    fn read_message(&mut self, rest: &str) -> bool {
        let Some((number, rest)) = rest.split_once(' ') else {
            return false;
        };
        let (times, text) = rest.split_once(' ').unwrap_or((rest, ""));
        match (count_of(number), count_of(times)) {
            (Some(number), Some(times)) => {
                self.count_message(number, times, text);
                true
            }
            _ => false,
        }
    }

    /// Reads a total. Tells whether it is one.
    fn read_count(&mut self, line: &str) -> bool {
        match word_and_count(line) {
            Some((word, count)) => self.put_total(word, count),
            None => false,
        }
    }

    /// Takes a total. Tells whether it is one.
    fn put_total(&mut self, word: &str, count: u64) -> bool {
        match word {
            "cases" => self.cases = count,
            "lines" => self.lines = count,
            "unseen" => {}
            _ => return false,
        }
        true
    }

    /// Reads a line of the summary. Tells whether it may stand there.
    fn read_total(&mut self, line: &str) -> bool {
        match line.strip_prefix("message ") {
            Some(rest) => self.read_message(rest),
            None => self.read_count(line),
        }
    }

    /// Adds an item that was imputed.
    fn add_item(&mut self, name: &str, times: u64) -> Result<(), AllocError> {
        let name = String::from_str(self.alloc, name)?;
        self.items.push(Imputed {
            name,
            times,
            values: Vec::new(self.alloc),
        })?;
        Ok(())
    }

    /// Adds a value of the last item. Tells whether there is one.
    fn add_value(&mut self, value: &str, times: u64) -> bool {
        let Some(item) = self.items.last_mut() else {
            return false;
        };
        let number = whole_of(value.as_bytes());
        match String::from_str(self.alloc, value) {
            Ok(value) => {
                let value = (number.is_none(), number.unwrap_or(0), value, times);
                self.lacks_memory |= item.values.push(value).is_err();
            }
            Err(_) => self.lacks_memory = true,
        }
        true
    }

    /// Reads a line of frequencies. Tells whether it may stand there.
    fn read_frequency(&mut self, line: &str) -> bool {
        let item = line.strip_prefix("ITEM ");
        let Some((word, times)) = word_and_count(item.unwrap_or(line)) else {
            return false;
        };
        if item.is_none() {
            return self.add_value(word, times);
        }
        self.lacks_memory |= self.add_item(word, times).is_err();
        true
    }

    /// Reads a line. Tells whether it may stand there.
    fn read_line(&mut self, line: &str) -> bool {
        match self.part {
            Part::Heading => {
                self.part = Part::Body;
                line == "CSEB LISTING 1"
            }
            Part::Body => self.read_body(line),
            Part::Totals | Part::Frequencies if line == "END" => {
                self.part = Part::Ended;
                true
            }
            Part::Totals => self.read_total(line),
            Part::FrequenciesHeading => {
                self.part = Part::Frequencies;
                line == "CSEB FREQUENCIES 1"
            }
            Part::Frequencies => self.read_frequency(line),
            Part::Ended => false,
        }
    }

    /// Takes what was read of a line, by its number: one that may not stand there is refused.
    fn take(&mut self, line: io::Result<String>, form: u8, number: u64) -> Result<(), Trouble> {
        match line {
            Ok(line) if self.read_line(line.as_str()) => Ok(()),
            Ok(_) => Err(Trouble {
                number: form,
                line: number,
            }),
            Err(error) => Err(trouble_of(&error, form, number)),
        }
    }

    /// Takes all lines, and tells how many there are.
    fn take_all<B: BufRead + Read + Drop>(&mut self, input: B, form: u8) -> Result<u64, Trouble> {
        let mut number = 0u64;
        for line in input.lines(self.alloc) {
            number = number.saturating_add(1);
            if let Err(trouble) = self.take(line, form, number) {
                return Err(trouble);
            }
        }
        Ok(number)
    }

    /// Puts the values of each item in order.
    fn sort(&mut self) {
        for item in self.items.iter_mut() {
            self.lacks_memory |= item.values.sort().is_err();
        }
    }

    /// Reads a listing or frequencies, by the number of a line of another form, line by line.
    pub fn read<B: BufRead + Read + Drop>(&mut self, input: B, form: u8) -> Result<(), Trouble> {
        self.part = if form == NO_LISTING {
            Part::Heading
        } else {
            Part::FrequenciesHeading
        };
        let lines = self.take_all(input, form)?;
        self.sort();
        match self.part {
            _ if self.lacks_memory => Err(Trouble {
                number: 90,
                line: 0,
            }),
            Part::Ended => Ok(()),
            _ => Err(Trouble {
                number: form,
                line: lines.saturating_add(1),
            }),
        }
    }
}
