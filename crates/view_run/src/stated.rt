//! What a list of words states.

ghost use Rattle.std.specs.Prelude.{◌≡◌, ◌≤◌, map, IfOk, IsErrOf, None, Some, string_bytes};
ghost use Rattle.lvs_words.specs.Items.{AreValues};
ghost use Rattle.lvs_words.specs.Seen.{seen_all};
ghost use Rattle.view_run.specs.Stated.{asked, asked_by, asked_of};

use lvs_words::{
    Flag, Item, WordFault, fits, given_path, path, read_items, shared_path, top, workers,
};
use net_names::Name;
use std::alloc::Global;

/// The files that the words name, the name of the layout's top, the number of workers, and the path
/// of the database, where it is an input too.
#[derive(Debug)]
pub struct Task {
    pub layout: String,
    pub rules: String,
    pub schematic: String,
    pub database: String,
    pub page: Option<String>,
    pub top: Option<Name>,
    pub workers: usize,
    pub shared: Option<String>,
}

// Written out, so that its owners drop it by one call.
impl Drop for Task {
    fn drop(self) {
        let Task {
            layout: _,
            rules: _,
            schematic: _,
            database: _,
            page: _,
            top: _,
            workers: _,
            shared: _,
        } = self;
    }
}

// What these options ask for.
fn task_of(alloc: Global, items: &[Item<'_>]) -> Result<Task, WordFault>
    requires { AreValues (seen_all items.now) }
    ensures found { IfOk result (λ t. asked_by (seen_all items.now) ≡ Some (asked_of t)) }
    ensures refused { IsErrOf result WordFault.Refused → asked_by (seen_all items.now) ≡ None }
    ensures workers { IfOk result (λ t. (1 ≤ t.workers) × (t.workers ≤ 64)) }
{
    let needed = [Flag::Layout, Flag::Rules, Flag::Schematic, Flag::Database];
    let free = [Flag::Page, Flag::Top, Flag::Workers];
    if !fits(&needed, &free, items) {
        return Err(WordFault::Refused);
    }
    let Some(workers) = workers(items) else {
        return Err(WordFault::Refused);
    };
    Ok(Task {
        layout: path(alloc, items, Flag::Layout)?,
        rules: path(alloc, items, Flag::Rules)?,
        schematic: path(alloc, items, Flag::Schematic)?,
        database: path(alloc, items, Flag::Database)?,
        page: given_path(alloc, items, Flag::Page)?,
        top: top(alloc, items)?,
        workers,
        shared: shared_path(alloc, items)?,
    })
}

/// What the words ask for: each of them is `--name=value`, or `--name` with its value behind it.
/// `Refused` where they ask for nothing. Takes memory for the options and the paths, and no more
/// than a few times the words.
pub fn read_task(alloc: Global, words: &[String]) -> Result<Task, WordFault>
    ensures found { IfOk result (λ t. asked (map string_bytes words.now) ≡ Some (asked_of t)) }
    ensures refused { IsErrOf result WordFault.Refused → asked (map string_bytes words.now)
        ≡ None }
    ensures workers { IfOk result (λ t. (1 ≤ t.workers) × (t.workers ≤ 64)) }
{
    let items = read_items(alloc, words)?;
    task_of(alloc, items.as_slice())
}
