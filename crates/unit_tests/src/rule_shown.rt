//! A rule set and a fault as text, so that a test compares whole answers.

use geo_base::Op;
use net_names::Name;
use rule_text::{
    Ask, LayerForm, LayerRule, MoreRule, MosRule, Output, RuleFault, RuleSet, SelectRule,
    read_rules,
};
use std::alloc::{AllocError, Global};
use std::process::Abort;
use std::str;

fn text_of(bytes: &[u8]) -> &str {
    str::from_utf8(bytes).unwrap_or("?")
}

fn sign_of(op: Op) -> &'static str {
    match op {
        Op::And => "&",
        Op::Or => "|",
        Op::Not => "-",
        Op::Xor => "^",
    }
}

fn more_shown(alloc: Global, rule: &MoreRule) -> Result<String, AllocError> {
    match rule {
        MoreRule::Resistor {
            class,
            r,
            c,
            w,
            ta,
            tw,
        } => format!(in alloc;
            "{} r {r} c {c} w {w} ta {ta} tw {tw}\n",
            text_of(class.bytes())
        ),
        MoreRule::Diode {
            class,
            p,
            n,
            ta,
            tc,
        } => format!(in alloc; "{} p {p} n {n} ta {ta} tc {tc}\n", text_of(class.bytes())),
    }
}

fn add(out: &mut String, line: Result<String, AllocError>) -> Result<(), AllocError> {
    out.push_str(&line?)
}

fn add_names(alloc: Global, out: &mut String, names: &[LayerRule]) -> Result<(), AllocError> {
    for rule in names {
        add(out, name_shown(alloc, rule))?;
    }
    Ok(())
}

fn name_shown(alloc: Global, rule: &LayerRule) -> Result<String, AllocError> {
    let name = text_of(rule.name.bytes());
    match rule.form {
        LayerForm::Input(key) => format!(in alloc; "{name} input {}/{}\n", key.layer, key.datatype),
        LayerForm::Labels(key) => {
            format!(in alloc; "{name} labels {}/{}\n", key.layer, key.datatype)
        }
        LayerForm::Empty => format!(in alloc; "{name} empty\n"),
        LayerForm::Sized(a, by) => format!(in alloc; "{name} {a} sized {by}\n"),
        LayerForm::Binary(op, a, b) => format!(in alloc; "{name} {a}{}{b}\n", sign_of(op)),
    }
}

fn ask_shown(alloc: Global, ask: Ask) -> Result<String, AllocError> {
    match ask {
        Ask::Interacting => format!(in alloc; "interacting"),
        Ask::Overlapping => format!(in alloc; "overlapping"),
        Ask::Inside => format!(in alloc; "inside"),
        Ask::Outside => format!(in alloc; "outside"),
        Ask::WithArea { low, high: None } => format!(in alloc; "from {low}"),
        Ask::WithArea {
            low,
            high: Some(high),
        } => format!(in alloc; "from {low} below {high}"),
    }
}

fn add_selects(alloc: Global, out: &mut String, selects: &[SelectRule]) -> Result<(), AllocError> {
    for s in selects {
        let ask = ask_shown(alloc, s.ask)?;
        let others = word_if(s.others, "not ");
        let (name, region, other) = (s.name, s.region, s.other);
        add(
            out,
            format!(in alloc; "select {name} {region} {others}{ask} {other}\n"),
        )?;
    }
    Ok(())
}

fn add_outputs(alloc: Global, out: &mut String, outputs: &[Output]) -> Result<(), AllocError> {
    for o in outputs {
        let (layer, key) = (o.layer, o.key);
        let line = format!(in alloc; "output {layer} {}/{}\n", key.layer, key.datatype);
        add(out, line)?;
    }
    Ok(())
}

fn add_connects(
    alloc: Global,
    out: &mut String,
    connects: &[(u32, u32)],
) -> Result<(), AllocError> {
    for (a, b) in connects {
        add(out, format!(in alloc; "connect {a} {b}\n"))?;
    }
    Ok(())
}

fn add_globals(alloc: Global, out: &mut String, nets: &[(u32, Name)]) -> Result<(), AllocError> {
    for (layer, net) in nets {
        let net = text_of(net.bytes());
        add(out, format!(in alloc; "global {layer} {net}\n"))?;
    }
    Ok(())
}

fn add_devices(alloc: Global, out: &mut String, devices: &[MosRule]) -> Result<(), AllocError> {
    for d in devices {
        add(out, device_shown(alloc, d))?;
    }
    Ok(())
}

fn add_more(alloc: Global, out: &mut String, more: &[MoreRule]) -> Result<(), AllocError> {
    for d in more {
        add(out, more_shown(alloc, d))?;
    }
    Ok(())
}

fn device_shown(alloc: Global, d: &MosRule) -> Result<String, AllocError> {
    let class = text_of(d.class.bytes());
    format!(in alloc;
        "{class} sd {} g {} w {} ts {} tg {} tb {}\n",
        d.sd, d.g, d.w, d.ts, d.tg, d.tb
    )
}

fn add_same(alloc: Global, out: &mut String, same: &[(Name, Name)]) -> Result<(), AllocError> {
    for (a, b) in same {
        let (a, b) = (text_of(a.bytes()), text_of(b.bytes()));
        add(out, format!(in alloc; "same {a} {b}\n"))?;
    }
    Ok(())
}

fn add_flat(alloc: Global, out: &mut String, side: &str, names: &[Name]) -> Result<(), AllocError> {
    for name in names {
        let name = text_of(name.bytes());
        add(out, format!(in alloc; "flat {side} {name}\n"))?;
    }
    Ok(())
}

fn word_if(is_so: bool, word: &'static str) -> &'static str {
    if is_so { word } else { "" }
}

fn add_lists(alloc: Global, out: &mut String, rules: &RuleSet) -> Result<(), AllocError> {
    add_names(alloc, out, &rules.names)?;
    add_selects(alloc, out, &rules.selects)?;
    add_outputs(alloc, out, &rules.outputs)?;
    add_connects(alloc, out, &rules.connects)?;
    add_globals(alloc, out, &rules.globals)?;
    add_devices(alloc, out, &rules.devices)?;
    add_more(alloc, out, &rules.more)?;
    add_same(alloc, out, &rules.same)?;
    add_flat(alloc, out, "layout", &rules.flat_layouts)?;
    add_flat(alloc, out, "schematic", &rules.flat_schematics)
}

/// A line for each entry, list after list, with layers as numbers.
fn shown(alloc: Global, rules: &RuleSet) -> Result<String, AllocError> {
    let mut out = String::new(alloc);
    add_lists(alloc, &mut out, rules)?;
    let flattens = word_if(rules.flattens_unmatched, "flattens unmatched\n");
    let tells = word_if(rules.tells_pins, "tells pins\n");
    let combine = word_if(rules.combine, "combine\n");
    let guesses = rules.max_guesses;
    let last = format!(in alloc; "{flattens}{tells}{combine}guesses {guesses}\n");
    add(&mut out, last)?;
    Ok(out)
}

// The shown rules of a file, or its fault as number and line or offset.
fn answer(alloc: Global, text: &[u8]) -> Result<String, AllocError> {
    match read_rules(alloc, text) {
        Ok(rules) => shown(alloc, &rules),
        Err(fault) => {
            let (number, place) = told(fault);
            format!(in alloc; "{number} {place}")
        }
    }
}

// A fault's number as summary lines print it, and its line or offset.
fn told(fault: RuleFault) -> (u8, u64) {
    match fault {
        RuleFault::UnknownStatement(at) => (30, at),
        RuleFault::BadForm(at) => (31, at),
        RuleFault::UnknownName(at) => (32, at),
        RuleFault::NameTwice(at) => (33, at),
        RuleFault::NotConductor(at) => (34, at),
        RuleFault::TooManyLayers(at) => (35, at),
        RuleFault::NotText(at) => (36, at),
        RuleFault::NoMemory => (0, 0),
    }
}

// The answer of two texts, one behind the other, as one file.
fn joined_answer(alloc: Global, before: &str, text: &str) -> Result<String, AllocError> {
    let file = format!(in alloc; "{before}{text}")?;
    answer(alloc, file.as_bytes())
}

/// Each file of a text and one of these behind it has this answer.
pub fn all_answer<R: Abort>(
    rt: &R,
    alloc: Global,
    before: &str,
    rows: &[(&str, &str)],
) -> Result<(), AllocError> {
    for (text, want) in rows {
        let found = joined_answer(alloc, before, text)?;
        assert_eq!(rt; found.as_str(), *want, "at {text:?}");
    }
    Ok(())
}
