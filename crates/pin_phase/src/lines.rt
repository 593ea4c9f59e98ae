//! What the rules say of texts: which conductors they name, and the names of globals.
ghost use Rattle.std.specs.Prelude.{◌≡◌, ◌++◌, map, IfOk, OnOk};
ghost use Rattle.rule_layers.specs.Meaning.{globals_of, labels_by, labels_of, texts_of};
ghost use Rattle.rule_text.specs.Seen.{rules_seen};
ghost use Rattle.pin_phase.specs.Lines.{label, names_of};

use geo_base::LayerKey;
use rule_text::{LayerForm, RuleSet};
use std::alloc::{AllocError, Global};
use text_table::TextTable;

/// A line that connects a layer of texts to a conductor.
#[derive(Clone, Copy, Debug)]
pub struct TextLine {
    pub key: LayerKey,
    pub conductor: u32,
}

// Adds the line of a labels name to a conductor.
fn push_label(
    rules: &RuleSet,
    name: u32,
    conductor: u32,
    lines: &mut Vec<TextLine>,
) -> Result<(), AllocError>
    ensures { OnOk result (map label lines.new.items ≡ map label lines.old.items
        ++ labels_by conductor (texts_of (rules_seen rules.now) name)) }
{
    if let Some(rule) = rules.names.get(name as usize) {
        if let LayerForm::Labels(key) = rule.form {
            lines.push(TextLine { key, conductor })?;
        }
    }
    Ok(())
}

/// The lines that connect texts to conductors, in the order of the rules. Linear.
pub fn text_lines(alloc: Global, rules: &RuleSet) -> Result<Vec<TextLine>, AllocError>
    ensures { IfOk result (λ v. map label v.items ≡ labels_of (rules_seen rules.now)) }
{
    let mut lines = Vec::new(alloc);
    for line in &rules.connects {
        push_label(rules, line.0, line.1, &mut lines)?;
        push_label(rules, line.1, line.0, &mut lines)?;
    }
    Ok(lines)
}

/// The different globals, by their first lines. A look-up by hash for each line.
pub fn global_names(alloc: Global, rules: &RuleSet) -> Result<Vec<Vec<u8>>, AllocError>
    ensures { IfOk result (λ v. names_of v.items ≡ globals_of (rules_seen rules.now)) }
{
    let mut names = TextTable::new(alloc);
    for line in &rules.globals {
        names.number(alloc, line.1.bytes())?;
    }
    names.into_texts(alloc)
}
