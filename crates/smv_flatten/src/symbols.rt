//! The symbols of a model by number.

ghost use Rattle.std.specs.Prelude.{◌≡◌, [], OnOk, IfOk, fold};
ghost use Rattle.smv_meaning.specs.Items.{item_view};
ghost use Rattle.smv_meaning.specs.Symbols as symbols_spec;
ghost use Rattle.smv_flatten.specs.Names as spec;

use indexmap::IndexSet;
use smv_ast::{Declared, List, NoMemory, Program, SmvType, Text};
use smv_meaning::items::{Item, program_items};
use std::alloc::Global;

#[tactic(auto, using(crate::proofs::SymbolLemmas::symbols_inserted))]
fn insert_symbol<'a>(symbols: &mut IndexSet<&'a str>, name: &'a Text) -> Result<(), NoMemory>
    ensures { OnOk result (spec.symbol_names symbols.new
        ≡ spec.with_symbol (spec.symbol_names symbols.old) name.now) }
{
    symbols.insert(name.as_str())?;
    Ok(())
}

fn insert_type<'a>(symbols: &mut IndexSet<&'a str>, type_: &'a SmvType) -> Result<(), NoMemory>
    ensures { OnOk result (spec.symbol_names symbols.new
        ≡ fold spec.with_symbol (spec.symbol_names symbols.old)
        (symbols_spec.type_symbols type_.now)) }
{
    let SmvType::Symbols(names) = type_ else {
        return Ok(());
    };
    for name in names.as_slice() {
        insert_symbol(symbols, name)?;
    }
    Ok(())
}

fn insert_item<'a>(symbols: &mut IndexSet<&'a str>, item: Item<'a>) -> Result<(), NoMemory>
    ensures { OnOk result (spec.symbol_names symbols.new
        ≡ fold spec.with_symbol (spec.symbol_names symbols.old)
        (symbols_spec.item_symbols (item_view item.entry))) }
{
    match item {
        Item::Declaration(declaration) => match &declaration.what {
            Declared::Plain(type_) => insert_type(symbols, type_),
            Declared::Instance { .. } => Ok(()),
        },
        _ => Ok(()),
    }
}

/// The symbols of a program in the order in which they first stand in its types.
#[tactic(auto, using(crate::proofs::SymbolLemmas::symbols_appended))]
pub fn numbered_symbols<'a>(
    alloc: Global,
    program: &'a Program,
) -> Result<IndexSet<&'a str>, NoMemory>
    ensures { IfOk result (λ symbols. spec.symbol_names symbols
        ≡ fold spec.with_symbol [] (symbols_spec.symbols program.now)) }
{
    let items = program_items(alloc, program)?;
    let mut symbols = IndexSet::new(alloc);
    for item in items.as_slice() {
        insert_item(&mut symbols, *item)?;
    }
    Ok(symbols)
}

/// The texts of the symbols.
pub fn symbol_texts(alloc: Global, symbols: &IndexSet<&str>) -> Result<List<Text>, NoMemory>
    ensures { IfOk result (λ texts. texts ≡ spec.symbol_names symbols.now) }
{
    let mut texts = List::new(alloc);
    for symbol in symbols.as_slice() {
        texts.push(Text::from_str(alloc, symbol)?)?;
    }
    Ok(texts)
}
