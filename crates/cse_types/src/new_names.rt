//! The faults of names that are declared: of two that are one, the later is at fault.

ghost use Rattle.std.specs.Prelude.{◌≡◌, ◌++◌, [], map, drop, OnOk};
ghost use Rattle.cse_dict.specs.Keys.{kept_name};
ghost use Rattle.cse_syntax_tree.specs.Tree as syntax;
ghost use Rattle.cse_syntax_tree.specs.Tree.{written};
ghost use Rattle.cse_types.specs.NameFaults as spec;

use crate::fresh::is_free;
use cse_dict::Dictionary;
use cse_fault_numbers::UNKNOWN_NAME;
use cse_logic_faults::found::Found;
use cse_logic_names::names::{Parameters, kept};
use cse_syntax_tree::{Declaration, Lexeme, Parameter};
use std::alloc::{AllocError, Global};

/// One name more, unless it is there.
pub fn add(names: &mut Parameters, kept: Vec<u8>) -> Result<(), AllocError>
    ensures { OnOk result (names.new ≡ spec.and_name names.old kept.items) }
{
    if names.has(&kept) {
        return Ok(());
    }
    names.add(kept)
}

/// Whether neither the dictionary nor one of these bears the name, which stands here in upper case too.
fn is_untaken(
    dictionary: &Dictionary,
    mine: &Parameters,
    others: &Parameters,
    name: &str,
    kept: &[u8],
) -> bool
    requires { kept.now ≡ kept_name name.now }
    ensures { result ≡ spec.is_untaken dictionary.now mine.now others.now kept.now }
{
    is_free(dictionary, name, kept) && !(mine.has(kept) || others.has(kept))
}

/// A name, which is one more of the first ones.
fn new_name(
    alloc: Global,
    dictionary: &Dictionary,
    found: &mut Found,
    mine: &mut Parameters,
    others: &Parameters,
    x: &Lexeme<'_>,
) -> Result<(), AllocError>
    ensures found { OnOk result (found.new ≡ found.old ++ spec.name_faults dictionary.now mine.old others.now (written x.now)) }
    ensures mine { OnOk result (mine.new ≡ spec.and_name mine.old (kept_name x.now.text.now)) }
{
    let kept = kept(alloc, x.text)?;
    let is_untaken = is_untaken(dictionary, mine, others, x.text, &kept);
    found.unless(is_untaken, UNKNOWN_NAME, x.token)?;
    add(mine, kept)
}

/// Names, each of which is one more of the first ones.
fn new_names(
    alloc: Global,
    dictionary: &Dictionary,
    found: &mut Found,
    mine: &mut Parameters,
    others: &Parameters,
    all: &Vec<Lexeme<'_>>,
) -> Result<(), AllocError>
    ensures found { OnOk result (found.new ≡ found.old ++ spec.new_names_faults dictionary.now mine.old others.now (map written all.now.items)) }
    ensures mine { OnOk result (mine.new ≡ spec.and_names mine.old (spec.kept_names (map written all.now.items))) }
{
    'all: for x in all {
        new_name(alloc, dictionary, found, mine, others, x)?;
    }
    Ok(())
}

/// A parameter: one more of its function's, and of all.
fn new_parameter(
    alloc: Global,
    dictionary: &Dictionary,
    found: &mut Found,
    own: &mut Parameters,
    names: &Parameters,
    parameters: &mut Parameters,
    x: &Parameter<'_>,
) -> Result<(), AllocError>
    ensures found { OnOk result (found.new ≡ found.old ++ spec.name_faults dictionary.now own.old names.now (written x.now.name)) }
    ensures own { OnOk result (own.new ≡ spec.and_name own.old (kept_name x.now.name.text.now)) }
    ensures parameters { OnOk result (parameters.new ≡ spec.and_name parameters.old (kept_name x.now.name.text.now)) }
{
    new_name(alloc, dictionary, found, own, names, &x.name)?;
    add(parameters, kept(alloc, x.name.text)?)
}

/// The parameters of a function, behind these names.
fn new_parameters(
    alloc: Global,
    dictionary: &Dictionary,
    found: &mut Found,
    names: &Parameters,
    parameters: &mut Parameters,
    all: &Vec<Parameter<'_>>,
) -> Result<(), AllocError>
    ensures found { OnOk result (found.new ≡ found.old ++ spec.new_names_faults dictionary.now [] names.now (spec.spelled (map syntax.parameter all.now.items))) }
    ensures parameters { OnOk result (parameters.new ≡ spec.and_names parameters.old (spec.kept_names (spec.spelled (map syntax.parameter all.now.items)))) }
{
    let mut own = Parameters::new(alloc);
    'all: for x in all {
        new_parameter(alloc, dictionary, found, &mut own, names, parameters, x)?;
    }
    Ok(())
}

/// The names of a declaration and of its parameters.
#[tactic(auto, using(cse_logic_faults::proofs::Lists::behind))]
fn declared(
    alloc: Global,
    dictionary: &Dictionary,
    found: &mut Found,
    names: &mut Parameters,
    parameters: &mut Parameters,
    x: &Declaration<'_>,
) -> Result<(), AllocError>
    ensures found { OnOk result (found.new ≡ found.old ++ spec.declared_faults dictionary.now names.old parameters.old (syntax.declaration x.now)) }
    ensures names { OnOk result (names.new ≡ spec.names_behind names.old (syntax.declaration x.now)) }
    ensures parameters { OnOk result (parameters.new ≡ spec.parameters_behind parameters.old (syntax.declaration x.now)) }
{
    match x {
        Declaration::Numeric(all) => new_names(alloc, dictionary, found, names, parameters, all),
        Declaration::Alpha(_, all) => new_names(alloc, dictionary, found, names, parameters, all),
        Declaration::Array(x) => new_name(alloc, dictionary, found, names, parameters, &x.name),
        Declaration::Function(name, all, _) => {
            new_name(alloc, dictionary, found, names, parameters, name)?;
            new_parameters(alloc, dictionary, found, names, parameters, all)
        }
    }
}

/// The names of all declarations and of their parameters.
pub fn all_names(
    alloc: Global,
    dictionary: &Dictionary,
    found: &mut Found,
    all: &Vec<Declaration<'_>>,
) -> Result<(), AllocError>
    ensures { OnOk result (found.new ≡ found.old ++ spec.names_faults dictionary.now [] [] (map syntax.declaration all.now.items)) }
{
    let mut names = Parameters::new(alloc);
    let mut parameters = Parameters::new(alloc);
    'all: for x in all {
        declared(alloc, dictionary, found, &mut names, &mut parameters, x)?;
    }
    Ok(())
}
