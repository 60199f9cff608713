//! The document of carried objects with the transactions of a next one.
ghost use Rattle.std.specs.Prelude.{◌≡◌, ◌++◌, IfOk, OnOk, Some, codes, map, option_and_then, option_map, string_bytes};
ghost use Rattle.json.specs.Find.{as_array, get};
ghost use Rattle.json.specs.Tree.{HasNumbers, ItemsHaveNumbers};
ghost use Rattle.json.specs.Value.{items_view, value_view};
ghost use Rattle.meaning.specs.Words.{joined_by};
ghost use Rattle.carry.specs.Joined.{start_view};
ghost use Rattle.carry.specs.Transactions.{item_texts, joined_text, transaction_texts, transactions_of};

use crate::document::write_head;
use crate::starts::{Start, write_starts};
use json::{Error, Scratch, Value, to_vec};
use serial::NoMemory;
use std::alloc::Global;

/// The document of this version and of these starts, with the transactions of the document that the
/// bytes are. It has a line for each object and each transaction.
///
/// The transactions are written without spaces. Their numbers, names and members stay as they are.
/// Returns `NoMemory` where a request for memory was refused.
pub fn carried_into(
    alloc: Global,
    version: u8,
    starts: &[Start<'_>],
    document: &[u8],
) -> Result<String, NoMemory>
    ensures { IfOk result (λ t. string_bytes t ≡ joined_text version (map start_view starts.now)
        document.now) }
{
    let mut out = String::new(alloc);
    write_head(&mut out, version)?;
    write_starts(&mut out, starts)?;
    write!(&mut out, "\n],\n\"transactions\": [\n")?;
    write_transactions(alloc, &mut out, document)?;
    write!(&mut out, "\n]}}\n")?;
    Ok(out)
}

// Writes the transactions of a document, one a line.
fn write_transactions(alloc: Global, out: &mut String, document: &[u8]) -> Result<(), NoMemory>
    ensures { OnOk result (string_bytes out.new ≡ string_bytes out.old
        ++ joined_by (codes ",\n") (transaction_texts document.now)) }
{
    let mut scratch = Scratch::new(alloc);
    match Value::from_slice(alloc, document, &mut scratch) {
        Ok(tree) => write_transactions_of(alloc, out, &tree),
        // The bytes are no JSON.
        Err(Error::Invalid) => Ok(()),
        Err(_) => Err(NoMemory),
    }
}

// Writes the transactions of the document that a value is.
fn write_transactions_of(alloc: Global, out: &mut String, tree: &Value<'_>) -> Result<(), NoMemory>
    requires { HasNumbers (value_view tree.now) }
    ensures { OnOk result (string_bytes out.new ≡ string_bytes out.old
        ++ joined_by (codes ",\n") (item_texts (transactions_of (Some (value_view tree.now))))) }
{
    match transactions_of(tree) {
        Some(transactions) => write_items(alloc, out, transactions),
        None => Ok(()),
    }
}

// The transactions of the document that a value is.
fn transactions_of<'t, 'a>(tree: &'t Value<'a>) -> Option<&'t Vec<Value<'a>>>
    ensures { option_map (λ list. items_view list.now.items) result
        ≡ option_and_then as_array (get (codes "transactions") (value_view tree.now)) }
{
    match tree.get("transactions") {
        Some(Value::Array(transactions)) => Some(transactions),
        _ => None,
    }
}

fn write_items(alloc: Global, out: &mut String, items: &Vec<Value<'_>>) -> Result<(), NoMemory>
    requires { ItemsHaveNumbers (items_view items.now.items) }
    ensures { OnOk result (string_bytes out.new ≡ string_bytes out.old
        ++ joined_by (codes ",\n") (item_texts (items_view items.now.items))) }
{
    let mut between = "";
    for item in items {
        let text = String::from_utf8(to_vec(alloc, item)?);
        let Ok(text) = text else {
            return Ok(());
        };
        write!(out, "{between}{text}")?;
        between = ",\n";
    }
    Ok(())
}
