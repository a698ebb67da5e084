// A tuple turned into least form.
#![tactic(auto)]

mod tables;

ghost use Rattle.std.specs.Prelude.{◌≡◌, cond, [], ◌*◌, ◌/◌, ◌≤◌, length};
ghost use Rattle.base.specs.Lists.{keep, last_or};
ghost use Rattle.templates.specs.Kinds.{template};
ghost use Rattle.templates.specs.between.Eight.{eight};
ghost use Rattle.templates.specs.between.Flat.{table_rows, pairs};
ghost use Rattle.least.specs.Least.{rises_at};
ghost use Rattle.turning.specs.Form.{form_by, least_form};
ghost use Rattle.turning.specs.between.Turns.{turns_by};

use least::{all_rise, less_of};
use tables::{HEX_TURNS, PRISM_TURNS, PYRAMID_TURNS};
use templates::{Kind, all_distinct, turned};

// x where it rises, and what was found before where it does not.
fn better(best: [u16; 8], x: [u16; 8], less: &[u8]) -> [u16; 8]
    ensures { result ≡ cond (rises_at (pairs less.now) x) x best }
{
    if all_rise(&x, less) { x } else { best }
}

// Of the n turns by a table of k corners a row, the one that rises.
fn least_turn(c: &[u16], k: usize, n: usize, turns: &[u8], less: &[u8]) -> [u16; 8]
    requires { k * n ≤ length turns.now }
    ensures { result ≡ last_or (eight []) (keep (rises_at (pairs less.now)) (turns_by k n turns.now c.now)) }
{
    let mut best = [0u16; 8];
    for i in 0..n {
        let from = k * i;
        let to = from + k;
        let x = turned(c, &turns[from..to]);
        let y = better(best, x, less);
        best = y;
    }
    best
}

// The rotations of a kind.
fn turns_of(kind: Kind) -> &'static [u8]
    ensures { table_rows (template kind).corners (length result.now / (template kind).corners) result.now ≡ (template kind).turns }
{
    match kind {
        Kind::Hexahedron => &HEX_TURNS,
        Kind::Prism => &PRISM_TURNS,
        Kind::Pyramid => &PYRAMID_TURNS,
    }
}

fn least_by(kind: Kind, c: &[u16]) -> Option<[u16; 8]>
    ensures { result ≡ form_by (template kind).turns (template kind).less c.now }
{
    if !all_distinct(c) {
        return None;
    }
    let k = kind.corners();
    let turns = turns_of(kind);
    Some(least_turn(c, k, turns.len() / k, turns, less_of(kind)))
}

// The least form of the first of eight numbers, as many as the kind has corners.
fn least_of(kind: u16, corners: &[u16]) -> Option<[u16; 8]>
    requires { 8 ≤ length corners.now }
    ensures { result ≡ least_form kind corners.now }
{
    let kind = Kind::named(kind)?;
    least_by(kind, &corners[..kind.corners()])
}

// The least form of a tuple of a kind: its eight numbers, 0 where the kind has no corner; nothing where it is refused.
// Numbers past the kind's corners do not count.
pub fn least_form(kind: u16, corners: [u16; 8]) -> Option<[u16; 8]>
    ensures { result ≡ least_form kind corners }
{
    least_of(kind, &corners)
}
