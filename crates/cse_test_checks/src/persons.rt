//! The persons of a household.

use cse_dict::{DictError, Dictionary};
use std::alloc::Global;

/// A household of at most 30 persons, with sex, relation, age and a weight.
const PERSONS: &str = "[Dictionary]\nName=SAMPLE_DICT\nRecordTypeStart=1\nRecordTypeLen=1\n\
[Level]\nName=QUEST\n[IdItems]\n[Item]\nName=HH\nStart=2\nLen=3\nZeroFill=Yes\n\
[Record]\nName=PERSON\nRecordTypeValue='P'\nRecordLen=12\nMaxRecords=30\n\
[Item]\nName=SEX\nStart=5\nLen=1\n[ValueSet]\nName=SEX_VS\nValue=1;Male\nValue=2;Female\n\
[Item]\nName=REL\nStart=6\nLen=1\n\
[ValueSet]\nName=REL_VS\nValue=1;Head\nValue=2;Spouse\nValue=3:8;Other\n\
[Item]\nName=AGE\nStart=7\nLen=3\n[Item]\nName=WEIGHT\nStart=10\nLen=3\nDecimal=1\n";

/// Their dictionary.
pub(crate) fn persons(alloc: Global) -> Result<Dictionary, DictError> {
    Dictionary::read(alloc, PERSONS.as_bytes())
}
