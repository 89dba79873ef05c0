//! What was changed in each area: the lines whose id items have the same values.

use crate::item::column_at;
use crate::names::Names;
use crate::spelled::text_of;
use crate::text::Text;
use cse_case::Columns;
use cse_value::shape::ItemShape;
use std::alloc::{AllocError, Global};
use std::collections::{BTreeMap, HashMap};

/// The most areas that are told apart. All others are the one of the place 0.
const MOST_AREAS: usize = 10_000;

/// What is counted of an area beside the changes of each item, which have its number: the seen lines of a record, from here on;
/// its lines; the lines with a changed item; how many items were changed in these.
pub const SEEN: usize = 65_536;

const LINES: usize = 131_072;

const CHANGED: usize = 131_073;

const CHANGES: usize = 131_074;

/// How many things are counted.
const THINGS: u64 = 262_144;

/// An area, as it is told.
pub struct Area {
    /// Its values with their labels.
    pub name: String,
    pub place: usize,
    pub lines: u64,
    pub changed: u64,
    pub changes: u64,
}

// Written out, so that one who owns it calls this drop and does not prove one for each part.
impl Drop for Area {
    fn drop(self) {
        let Area {
            name: _name,
            place: _place,
            lines: _lines,
            changed: _changed,
            changes: _changes,
        } = self;
    }
}

/// What was changed in each area.
pub struct Areas {
    alloc: Global,
    /// The id items, by number.
    pub items: Vec<usize>,
    /// The place of each area, from 1, by the values of its items, with a line feed behind each.
    places: BTreeMap<Vec<u8>, usize>,
    /// How often each thing is counted: the key is the area, `THINGS` times, and the thing.
    times: HashMap<u64, u64>,
    current: usize,
    /// The values of the area of the last run, and of the one before.
    values: Text,
    last: Text,
    lacks_memory: bool,
}

// Written out, so that one who owns it calls this drop and does not prove one for each part.
impl Drop for Areas {
    fn drop(self) {
        let Areas {
            alloc: _alloc,
            items: _items,
            places: _places,
            times: _times,
            current: _current,
            values: _values,
            last: _last,
            lacks_memory: _lacks_memory,
        } = self;
    }
}

/// Writes what stands in the columns of an item.
pub fn put_field(out: &mut Text, item: &ItemShape, columns: Columns<'_>) {
    let first = (item.start as usize).saturating_sub(1);
    for place in first..first.saturating_add(item.len as usize) {
        out.put_char(column_at(columns, place));
    }
}

/// Writes a value of an item, with its label.
fn put_told(out: &mut Text, names: &Names<'_>, item: usize, value: &str) {
    out.put(value);
    let label = names.value(item, value);
    out.put(if label.is_empty() { "" } else { " " });
    out.put(label);
}

/// The key of a thing that is counted of an area.
fn key_of(area: usize, thing: usize) -> u64 {
    (area as u64)
        .saturating_mul(THINGS)
        .saturating_add(thing as u64)
}

impl Areas {
    /// No areas but the one of all others, by id items.
    pub fn new(alloc: Global, items: Vec<usize>) -> Areas {
        Areas {
            alloc,
            items,
            places: BTreeMap::new(alloc),
            times: HashMap::new(alloc),
            current: 0,
            values: Text::new(alloc),
            last: Text::new(alloc),
            lacks_memory: false,
        }
    }

    /// The place of the area of the values that are held.
    fn place(&mut self) -> Result<usize, AllocError> {
        let values = self.values.as_str().as_bytes();
        if let Some(place) = self.places.get(values) {
            return Ok(*place);
        }
        let place = self.places.len().saturating_add(1);
        if place > MOST_AREAS {
            return Ok(0);
        }
        self.places
            .insert(Vec::from_slice(self.alloc, values)?, place)?;
        Ok(place)
    }

    /// Goes to the area of a line.
    pub fn enter(&mut self, shapes: &[ItemShape], columns: Columns<'_>) {
        self.values.clear();
        for item in &self.items {
            if let Some(shape) = shapes.get(*item) {
                put_field(&mut self.values, shape, columns);
                self.values.put("\n");
            }
        }
        if self.values.as_str() == self.last.as_str() {
            return;
        }
        match self.place() {
            Ok(place) => self.current = place,
            Err(_) => self.lacks_memory = true,
        }
        self.last.clear();
        self.last.put(self.values.as_str());
    }

    /// Counts a thing of the area.
    fn add(&mut self, thing: usize, count: u64) {
        let key = key_of(self.current, thing);
        match self.times.get_mut(&key) {
            Some(times) => *times = times.saturating_add(count),
            None => self.lacks_memory |= self.times.insert(key, count).is_err(),
        }
    }

    /// Counts so many lines.
    pub fn count_lines(&mut self, lines: u64) {
        if !self.items.is_empty() {
            self.add(LINES, lines);
        }
    }

    /// Counts so many seen lines of a record.
    pub fn count_seen(&mut self, record: usize, lines: u64) {
        if !self.items.is_empty() && lines > 0 {
            self.add(SEEN.saturating_add(record), lines);
        }
    }

    /// Counts a changed item.
    pub fn count_change(&mut self, item: usize) {
        if !self.items.is_empty() {
            self.add(item, 1);
        }
    }

    /// Counts a line with so many changed items.
    pub fn count_changed(&mut self, changes: u64) {
        if !self.items.is_empty() {
            self.add(CHANGED, 1);
            self.add(CHANGES, changes);
        }
    }

    /// How often a thing is counted of an area.
    pub fn times(&self, area: usize, thing: usize) -> u64 {
        match self.times.get(&key_of(area, thing)) {
            Some(times) => *times,
            None => 0,
        }
    }

    /// Whether memory lacked.
    pub fn lacks_memory(&self) -> bool {
        self.lacks_memory || self.values.has_given_up() || self.last.has_given_up()
    }

    /// Writes what an area is called: its values, with their labels.
    fn put_name(&self, out: &mut Text, names: &Names<'_>, values: &str) {
        let mut rest = values;
        let mut blank = "";
        for item in &self.items {
            let (value, behind) = rest.split_once('\n').unwrap_or((rest, ""));
            out.put(blank);
            put_told(out, names, *item, value);
            rest = behind;
            blank = " ";
        }
    }

    /// An area, as it is told.
    fn area(&self, name: &str, place: usize) -> Result<Area, AllocError> {
        Ok(Area {
            name: String::from_str(self.alloc, name)?,
            place,
            lines: self.times(place, LINES),
            changed: self.times(place, CHANGED),
            changes: self.times(place, CHANGES),
        })
    }

    /// Adds an area, as it is told. Answers whether memory lacks.
    fn add_told(&self, told: &mut Vec<Area>, name: &str, place: usize) -> bool {
        match self.area(name, place) {
            Ok(area) => told.push(area).is_err(),
            Err(_) => true,
        }
    }

    /// Adds the areas that are told apart, whose names are written one after the other. Answers whether memory lacks.
    fn add_all(&self, told: &mut Vec<Area>, name: &mut Text, names: &Names<'_>) -> bool {
        for (values, place) in self.places.iter() {
            name.clear();
            self.put_name(name, names, text_of(values));
            if self.add_told(told, name.as_str(), *place) {
                return true;
            }
        }
        name.has_given_up()
    }

    /// All areas that have lines, by their values; the one of all others is the first.
    pub fn told(&self, names: &Names<'_>) -> Result<Vec<Area>, AllocError> {
        let mut told = Vec::new(self.alloc);
        let mut lacks_memory = false;
        if self.times(0, LINES) > 0 {
            lacks_memory = self.add_told(&mut told, "all others", 0);
        }
        let mut name = Text::new(self.alloc);
        if lacks_memory || self.add_all(&mut told, &mut name, names) {
            return Err(AllocError);
        }
        Ok(told)
    }
}
