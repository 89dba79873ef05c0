//! The names of the declarations.

ghost use Rattle.std.specs.Prelude.{◌≡◌, ◌+◌, not, map, Some, None, OnOk, IfOk, true};
ghost use Rattle.cse_dict.specs.Keys.{kept_name};
ghost use Rattle.cse_syntax_tree.specs.Tree as syntax;
ghost use Rattle.cse_syntax_tree.specs.Tree.{written};
ghost use Rattle.cse_types.specs.Fresh.{all_after};
ghost use Rattle.cse_types.specs.Table as spec;

use crate::fresh::is_new;
use cse_dict::Dictionary;
use cse_logic_names::meaning::Meaning;
use cse_logic_names::names::{Names, kept};
use cse_logic_tree::Variable;
use cse_syntax_tree::{Declaration, Lexeme};
use std::alloc::{AllocError, Global};

/// The names that are declared, in upper case, whether each was new, and how many globals, arrays and functions there are.
#[derive(Drop)]
pub struct Table {
    pub names: Names,
    pub is_sound: bool,
    pub globals: usize,
    pub arrays: usize,
    pub functions: usize,
}

impl Table {
    /// No declarations.
    pub fn new(alloc: Global) -> Table
        ensures { result ≡ spec.no_table }
    {
        Table {
            names: Names::new(alloc),
            is_sound: true,
            globals: 0,
            arrays: 0,
            functions: 0,
        }
    }
}

/// The next number. More than fit were never in memory.
fn next(number: usize) -> Result<usize, AllocError>
    ensures { IfOk result (λ n. n ≡ number + 1) }
{
    match number.checked_add(1) {
        None => Err(AllocError),
        Some(next) => Ok(next),
    }
}

/// One name more, if nothing else bears it.
#[tactic(auto, using(crate::proofs::TableLaws::new_gone))]
fn declare(
    alloc: Global,
    dictionary: &Dictionary,
    table: &mut Table,
    name: Lexeme<'_>,
    meaning: Meaning,
) -> Result<(), AllocError>
    ensures { OnOk result (table.new ≡ spec.with_name dictionary.now table.old (kept_name name.entry.text.now) meaning) }
{
    let kept = kept(alloc, name.text)?;
    if is_new(dictionary, &table.names, name.text, &kept) {
        table.names.add(kept, meaning)
    } else {
        table.is_sound = false;
        Ok(())
    }
}

fn global_meaning(is_text: bool, number: usize) -> Meaning
    ensures { result ≡ spec.global_meaning is_text number }
{
    if is_text {
        Meaning::Text(number)
    } else {
        Meaning::Variable(Variable::Global(number))
    }
}

/// The name of a global.
fn global(
    alloc: Global,
    dictionary: &Dictionary,
    table: &mut Table,
    is_text: bool,
    name: &Lexeme<'_>,
) -> Result<(), AllocError>
    ensures { OnOk result (table.new ≡ spec.with_global dictionary.now is_text table.old (written name.now)) }
{
    let meaning = global_meaning(is_text, table.globals);
    table.globals = next(table.globals)?;
    declare(alloc, dictionary, table, *name, meaning)
}

/// The names of globals.
fn globals(
    alloc: Global,
    dictionary: &Dictionary,
    table: &mut Table,
    is_text: bool,
    names: &Vec<Lexeme<'_>>,
) -> Result<(), AllocError>
    ensures { OnOk result (table.new ≡ all_after (spec.with_global dictionary.now is_text) table.old (map written names.now.items)) }
{
    'all: for x in names {
        global(alloc, dictionary, table, is_text, x)?;
    }
    Ok(())
}

/// The names of a declaration.
fn declaration(
    alloc: Global,
    dictionary: &Dictionary,
    table: &mut Table,
    x: &Declaration<'_>,
) -> Result<(), AllocError>
    ensures { OnOk result (table.new ≡ spec.with_declaration dictionary.now table.old (syntax.declaration x.now)) }
{
    match x {
        Declaration::Numeric(names) => { globals(alloc, dictionary, table, false, names) }
        Declaration::Alpha(_, names) => globals(alloc, dictionary, table, true, names),
        Declaration::Array(x) => {
            let meaning = Meaning::Array(table.arrays);
            table.arrays = next(table.arrays)?;
            declare(alloc, dictionary, table, x.name, meaning)
        }
        Declaration::Function(name, _, _) => {
            let meaning = Meaning::Function(table.functions);
            table.functions = next(table.functions)?;
            declare(alloc, dictionary, table, *name, meaning)
        }
    }
}

/// The names of all declarations.
pub fn table_of(
    alloc: Global,
    dictionary: &Dictionary,
    all: &Vec<Declaration<'_>>,
) -> Result<Table, AllocError>
    ensures { IfOk result (λ t. t ≡ spec.table_of dictionary.now (map syntax.declaration all.now.items)) }
{
    let mut table = Table::new(alloc);
    'all: for x in all {
        declaration(alloc, dictionary, &mut table, x)?;
    }
    Ok(table)
}
