//! Rows of cse_dict: `Dictionary::read`, but for want of memory, and what a dictionary is asked.

ghost use Rattle.cse_test_checks.specs.DictionaryFaults.{DictionaryFaultsAreWorked};
ghost use Rattle.cse_test_checks.specs.Dictionaries.{DictionariesAreWorked};

/// Law: the first fault of texts that are no dictionaries, and that others have none.
pub fn worked_dictionary_faults()
    ensures { DictionaryFaultsAreWorked }
{}

/// Law: the kinds of items and the rows of value sets, by what stands in a text; what a sample is, and what is found in it.
pub fn worked_dictionaries()
    ensures { DictionariesAreWorked }
{}
