//! The blocks of pairs of circuits.
ghost use Rattle.std.specs.Prelude.{◌≡◌, ◌++◌, ◌∷◌, [], OnOk, codes, map, slice_get};
ghost use Rattle.match_report.specs.Pairs.{answer_text, end_word, guess_line, guess_lines};
ghost use Rattle.match_report.specs.Pairs.{match_lines, name_of, net_lines, pair_text};
ghost use Rattle.match_report.specs.Pairs.{count_words, node_words, nets_of, pair_texts};
ghost use Rattle.match_report.specs.Pairs.{place_lines};
ghost use Rattle.match_report.specs.Pairs.{round_line};
ghost use Rattle.match_report.specs.Words.{name_word};
ghost use Rattle.match_types.specs.Plain.{plain_answer, plain_end, plain_node};
ghost use Rattle.match_types.specs.Plain.{plain_pairing, row_of};
ghost use Rattle.net_model.specs.Rows.{plain_circuit};

use crate::words::{push_kind, push_name, push_name_at, push_number, push_place, push_side};
use job_graph::{Reads, Results};
use list_base::number;
use match_types::{Answer, Evidence, Guess, GuessEnd, Node, Pairing};
use net_model::Circuit;
use net_names::Name;
use std::alloc::{AllocError, Global};

fn push_nets(
    alloc: Global,
    out: &mut Vec<u8>,
    left: &[Name],
    right: &[Name],
    nets: &[u32],
) -> Result<(), AllocError>
    ensures { OnOk result (out.new.items
        ≡ out.old.items ++ net_lines left.now right.now 0 nets.now) }
{
    let mut k = 0;
    let mut rest = nets;
    'nets: while let [n, more @ ..] = rest {
        out.extend_from_slice(b"net")?;
        push_name_at(alloc, out, left, k)?;
        push_name_at(alloc, out, right, *n as usize)?;
        out.push(b'\n')?;
        k += 1;
        rest = more;
    }
    Ok(())
}

fn push_places(
    alloc: Global,
    out: &mut Vec<u8>,
    kind: &[u8],
    places: &[u32],
) -> Result<(), AllocError>
    ensures { OnOk result (out.new.items ≡ out.old.items ++ place_lines kind.now 0 places.now) }
{
    let mut k = 0;
    let mut rest = places;
    'places: while let [n, more @ ..] = rest {
        out.extend_from_slice(kind)?;
        push_place(alloc, out, k)?;
        push_place(alloc, out, *n as usize)?;
        out.push(b'\n')?;
        k += 1;
        rest = more;
    }
    Ok(())
}

fn push_match(
    alloc: Global,
    out: &mut Vec<u8>,
    left: &[Name],
    right: &[Name],
    f: &Pairing,
) -> Result<(), AllocError>
    ensures { OnOk result (out.new.items
        ≡ out.old.items ++ match_lines left.now right.now (plain_pairing f.now)) }
{
    push_nets(alloc, out, left, right, &f.nets)?;
    push_places(alloc, out, b"device", &f.devices)?;
    push_places(alloc, out, b"call", &f.calls)
}

fn push_node(alloc: Global, out: &mut Vec<u8>, node: &Node) -> Result<(), AllocError>
    ensures { OnOk result (out.new.items ≡ out.old.items ++ node_words (plain_node node.now)) }
{
    push_side(out, node.side)?;
    push_kind(out, node.kind)?;
    push_place(alloc, out, node.number as usize)
}

fn push_counts(alloc: Global, out: &mut Vec<u8>, left: u64, right: u64) -> Result<(), AllocError>
    ensures { OnOk result (out.new.items ≡ out.old.items ++ count_words left right) }
{
    out.extend_from_slice(b" layout")?;
    push_number(alloc, out, left)?;
    out.extend_from_slice(b" schematic")?;
    push_number(alloc, out, right)
}

fn push_round(
    alloc: Global,
    out: &mut Vec<u8>,
    round: u32,
    node: &Node,
    left: u64,
    right: u64,
) -> Result<(), AllocError>
    ensures { OnOk result (out.new.items
        ≡ out.old.items ++ round_line round (plain_node node.now) left right) }
{
    out.extend_from_slice(b"round")?;
    push_number(alloc, out, u64::from(round))?;
    out.extend_from_slice(b" of")?;
    push_node(alloc, out, node)?;
    push_counts(alloc, out, left, right)?;
    out.push(b'\n')?;
    Ok(())
}

fn push_end(alloc: Global, out: &mut Vec<u8>, end: GuessEnd) -> Result<(), AllocError>
    ensures { OnOk result (out.new.items ≡ out.old.items ++ end_word (plain_end end)) }
{
    match end {
        GuessEnd::Refuted(round) => push_number(alloc, out, u64::from(round)),
        GuessEnd::Below => out.extend_from_slice(b" below"),
        GuessEnd::Open => out.extend_from_slice(b" open"),
    }
}

fn push_guess(alloc: Global, out: &mut Vec<u8>, guess: &Guess) -> Result<(), AllocError>
    ensures { OnOk result (out.new.items ≡ out.old.items ++ guess_line (row_of guess.now)) }
{
    out.extend_from_slice(b"guess")?;
    push_number(alloc, out, u64::from(guess.depth))?;
    push_kind(out, guess.kind)?;
    push_place(alloc, out, guess.left as usize)?;
    push_place(alloc, out, guess.right as usize)?;
    push_end(alloc, out, guess.end)?;
    out.push(b'\n')?;
    Ok(())
}

fn push_guesses(alloc: Global, out: &mut Vec<u8>, guesses: &[Guess]) -> Result<(), AllocError>
    ensures { OnOk result (out.new.items
        ≡ out.old.items ++ guess_lines (map row_of guesses.now)) }
{
    let mut rest = guesses;
    'guesses: while let [guess, more @ ..] = rest {
        push_guess(alloc, out, guess)?;
        rest = more;
    }
    Ok(())
}

/// The name of the circuit of a number; nothing past the last.
pub fn push_circuit(
    alloc: Global,
    out: &mut Vec<u8>,
    circuits: &[Circuit],
    k: usize,
) -> Result<(), AllocError>
    ensures { OnOk result (out.new.items ≡ out.old.items
        ++ name_word (name_of (slice_get (map plain_circuit circuits.now) k))) }
{
    match circuits.get(k) {
        Some(circuit) => push_name(alloc, out, &circuit.name),
        None => {
            out.push(b' ')?;
            Ok(())
        }
    }
}

fn push_skipped(
    alloc: Global,
    out: &mut Vec<u8>,
    lefts: &[Circuit],
    pair: u32,
) -> Result<(), AllocError>
    ensures { OnOk result (out.new.items ≡ out.old.items ++ (codes " skipped"
        ++ (name_word (name_of (slice_get (map plain_circuit lefts.now) pair)) ++ 10 ∷ []))) }
{
    out.extend_from_slice(b" skipped")?;
    push_circuit(alloc, out, lefts, pair as usize)?;
    out.push(b'\n')?;
    Ok(())
}

/// What stands behind the names of two circuits with these nets.
pub fn push_answer(
    alloc: Global,
    out: &mut Vec<u8>,
    lefts: &[Circuit],
    left: &[Name],
    right: &[Name],
    answer: &Answer,
) -> Result<(), AllocError>
    ensures { OnOk result (out.new.items ≡ out.old.items
        ++ answer_text (map plain_circuit lefts.now) left.now right.now
        (plain_answer answer.now)) }
{
    match answer {
        Answer::Match(f) => {
            out.extend_from_slice(b" match\n")?;
            push_match(alloc, out, left, right, f)
        }
        Answer::Differs(
            Evidence::Round {
                round,
                node,
                left,
                right,
            },
        ) => {
            out.extend_from_slice(b" differs\n")?;
            push_round(alloc, out, *round, node, *left, *right)
        }
        Answer::Differs(Evidence::Tree(guesses)) => {
            out.extend_from_slice(b" differs\n")?;
            push_guesses(alloc, out, guesses)
        }
        Answer::Undecided(guesses) => {
            out.extend_from_slice(b" undecided\n")?;
            push_guesses(alloc, out, guesses)
        }
        Answer::Skipped(pair) => push_skipped(alloc, out, lefts, *pair),
    }
}

// The names of the nets of the circuit of a number; none past the last.
fn nets_at(circuits: &[Circuit], k: usize) -> &[Name]
    ensures { result.now ≡ nets_of (slice_get (map plain_circuit circuits.now) k) }
{
    match circuits.get(k) {
        Some(circuit) => circuit.nets.as_slice(),
        None => &[],
    }
}

fn push_pair(
    alloc: Global,
    out: &mut Vec<u8>,
    lefts: &[Circuit],
    rights: &[Circuit],
    k: usize,
    answer: &Answer,
) -> Result<(), AllocError>
    ensures { OnOk result (out.new.items ≡ out.old.items
        ++ pair_text (map plain_circuit lefts.now) (slice_get (map plain_circuit lefts.now) k)
        (slice_get (map plain_circuit rights.now) k) (plain_answer answer.now)) }
{
    out.extend_from_slice(b"pair")?;
    push_circuit(alloc, out, lefts, k)?;
    push_circuit(alloc, out, rights, k)?;
    push_answer(
        alloc,
        out,
        lefts,
        nets_at(lefts, k),
        nets_at(rights, k),
        answer,
    )
}

/// The block of each pair, in order.
pub fn push_pairs(
    alloc: Global,
    out: &mut Vec<u8>,
    lefts: &[Circuit],
    rights: &[Circuit],
    answers: &Results<Answer>,
) -> Result<(), AllocError>
    ensures { OnOk result (out.new.items ≡ out.old.items
        ++ pair_texts (map plain_circuit lefts.now) (map plain_circuit rights.now) 0
        (map plain_answer answers.now)) }
{
    let count = number(answers.len())?;
    'pairs: for k in 0..count {
        push_pair(alloc, out, lefts, rights, k as usize, answers.get(k))?;
    }
    Ok(())
}
