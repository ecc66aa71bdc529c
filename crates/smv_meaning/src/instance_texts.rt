//! The texts of the paths of instances.

ghost use Rattle.std.specs.Prelude.{◌≡◌, ◌<◌, ◌++◌, ◌∷◌, [], length, IfOk, IfSome, Some, slice_get, slice_index_or, codes};
ghost use Rattle.smv_meaning.specs.Checking.{instance_at};
ghost use Rattle.smv_meaning.specs.Instances as instances;
ghost use Rattle.smv_meaning.specs.RunCheck.{text_of_instance};
ghost use Rattle.smv_meaning.specs.Valuation as valuation;

use crate::table::{InstanceTable, Link, Row};
use smv_ast::{List, NoMemory, Text};
use sqlite_items::at;
use std::alloc::Global;

/// The text of a name of an instance with this link and text. Below `main` it is the name alone.
pub fn text_below(
    alloc: Global,
    link: Option<Link>,
    text: &str,
    name: &str,
) -> Result<Text, NoMemory>
    ensures { IfOk result (λ t. t ≡ valuation.text_below link.entry text.now name.now) }
{
    if link.is_none() {
        return Text::from_str(alloc, name);
    }
    let mut path = String::from_str(alloc, text)?;
    path.push_str(".")?;
    path.push_str(name)?;
    Text::from_str(alloc, path.as_str())
}

/// The text of an instance with this link, given the texts of the instances before it.
fn text_of_link(alloc: Global, rows: &[Row], texts: &[Text], link: Link) -> Result<Text, NoMemory>
    requires rows { link.outer < length rows.now }
    requires texts { link.outer < length texts.now }
    ensures { IfOk result (λ t. t ≡ valuation.link_text rows.now texts.now link.entry) }
{
    let outer = rows[link.outer].link;
    let text = texts[link.outer].as_str();
    text_below(alloc, outer, text, link.name.as_str())
}

/// The text of an instance with this link, given the texts of the instances before it; empty for
/// `main`.
fn row_text(
    alloc: Global,
    rows: &[Row],
    texts: &[Text],
    link: Option<Link>,
) -> Result<Text, NoMemory>
    requires rows { IfSome link (λ l. l.outer < length rows.now) }
    requires texts { IfSome link (λ l. l.outer < length texts.now) }
    ensures { IfOk result (λ t. t ≡ valuation.row_text rows.now texts.now link.entry) }
{
    match link {
        Some(link) => text_of_link(alloc, rows, texts, link),
        None => Text::from_str(alloc, ""),
    }
}

/// The texts of the paths of the instances.
pub fn path_texts(alloc: Global, rows: &[Row]) -> Result<List<Text>, NoMemory>
    requires { valuation.AreLinked rows.now }
    ensures names { IfOk result (λ texts. valuation.SpellsNames rows.now texts) }
    ensures paths { IfOk result (λ texts. valuation.ArePathTexts rows.now texts) }
{
    let mut texts = List::new(alloc);
    for row in rows {
        let text = row_text(alloc, rows, texts.as_slice(), row.link)?;
        texts.push(text)?;
    }
    Ok(texts)
}

/// The text of the path of a name, if there is such an instance.
pub fn name_text(
    alloc: Global,
    table: &InstanceTable,
    texts: &[Text],
    row: usize,
    name: &str,
) -> Result<Option<Text>, NoMemory>
    requires { valuation.SpellsNames table.now.rows texts.now }
    ensures { IfOk result (λ t. t
        ≡ valuation.name_text table.now (record { instance = row; name = name.now })) }
{
    let Some(found) = at(table.rows.as_slice(), row).copied() else {
        return Ok(None);
    };
    match at(texts, row) {
        Some(text) => Ok(Some(text_below(alloc, found.link, text.as_str(), name)?)),
        None => Ok(None),
    }
}

/// The text of an instance with this link, given the text of its path.
fn linked_text(alloc: Global, link: Option<Link>, path: &str) -> Result<Text, NoMemory>
    ensures { IfOk result (λ t. t ≡ text_of_instance link.entry path.now) }
{
    if link.is_none() {
        return Text::from_str(alloc, "main");
    }
    let mut text = String::from_str(alloc, "main")?;
    text.push_str(".")?;
    text.push_str(path)?;
    Text::from_str(alloc, text.as_str())
}

/// The text of the instance of a row.
pub fn instance_text(
    alloc: Global,
    table: &InstanceTable,
    texts: &[Text],
    row: usize,
) -> Result<Text, NoMemory>
    requires row { row < length table.now.rows }
    requires linked { valuation.AreLinked table.now.rows }
    requires texts { valuation.ArePathTexts table.now.rows texts.now }
    ensures { IfOk result (λ t. t ≡ instances.instance_text (instance_at table.now row)) }
{
    let rows = table.rows.as_slice();
    let link = rows[row].link;
    let path = texts[row].as_str();
    linked_text(alloc, link, path)
}
