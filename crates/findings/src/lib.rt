// What is found of a tuple of a mesh in arrays: that it is a cell, or the first condition that fails and where. The same
// by numbers.
#![tactic(auto)]

ghost use Rattle.std.specs.Prelude.{◌≡◌, true, ◌≤◌, length};
ghost use Rattle.base.specs.Lists.{distinct};
ghost use Rattle.space.specs.Arrays.{mesh_of};
ghost use Rattle.templates.specs.Tables.{template_of, tuple_of, is_kind};
ghost use Rattle.reasons.specs.Reason.{cell_by, turned_by, found_cell, finding_at, finding_of};
ghost use Rattle.reasons.specs.Numbers.{entries_of};
ghost use Rattle.judging.specs.between.Last.{number};
ghost use Rattle.findings.specs.between.Numbers.{form_numbers, number_behind, entries_behind};

use failing::{first_box, first_corner, first_edge, first_face};
use least::is_least;
use open_triples::open_at;
use reasons::Finding;
use tets_around::Mesh;
use turning::least_form;
use verdict::{Condition, judge};

// ---- a cell

// The eight numbers of a least form; a refusal has none.
fn numbers(form: Option<[u16; 8]>) -> [u16; 8]
    ensures { result ≡ form_numbers form }
{
    form.unwrap_or([0; 8])
}

fn cell(x: [u16; 8]) -> Finding
    ensures { result ≡ cell_by x }
{
    Finding::Cell(x[0], x[1], x[2], x[3], x[4], x[5], x[6], x[7])
}

// As `cell`, with another variant: a variant of eight numbers is no parameter that is plainer.
fn turned(x: [u16; 8]) -> Finding
    ensures { result ≡ turned_by x }
{
    Finding::Turned(x[0], x[1], x[2], x[3], x[4], x[5], x[6], x[7])
}

// A cell, with its least form: in it, or turned.
fn found_cell(kind: u16, tuple: &[u16; 8]) -> Finding
    requires { (is_kind kind ≡ true) × (distinct (tuple_of kind tuple.now) ≡ true) }
    ensures { result ≡ found_cell (template_of kind) (tuple_of kind tuple.now) }
{
    let asked = *tuple;
    let form = numbers(least_form(kind, asked));
    if is_least(kind, tuple) {
        return cell(form);
    }
    turned(form)
}

// ---- a condition that fails

// Where this condition is the first that fails.
fn found_at(mesh: &Mesh<'_>, kind: u16, tuple: &[u16], failing: Condition) -> Finding
    requires { 8 ≤ length tuple.now }
    ensures { result ≡ finding_at (mesh_of mesh.now.coords.now mesh.now.index.labels.now mesh.now.parts.now)
        (template_of kind) (tuple_of kind tuple.now) (number failing) }
{
    match failing {
        Condition::Corners => Finding::BadCorner(first_corner(mesh.index.n, kind, tuple)),
        Condition::Edges => Finding::NoEdge(first_edge(&mesh.index, kind, tuple)),
        Condition::Faces => Finding::NoFace(first_face(&mesh.index, kind, tuple)),
        Condition::Boxes => Finding::BadBox(first_box(mesh.coords, kind, tuple)),
        Condition::Filled => open_at(mesh.index.labels, kind, tuple),
        Condition::OnePart => Finding::TwoParts,
    }
}

// ---- either

// What is found of a tuple of a kind. Numbers past the kind's corners do not count.
pub fn finding(mesh: &Mesh<'_>, kind: u16, tuple: &[u16; 8]) -> Finding
    requires { is_kind kind ≡ true }
    ensures { result ≡ finding_of (mesh_of mesh.now.coords.now mesh.now.index.labels.now mesh.now.parts.now) kind tuple.now }
{
    match judge(mesh, kind, tuple) {
        Ok(()) => found_cell(kind, tuple),
        Err(failing) => found_at(mesh, kind, tuple, failing),
    }
}

// ---- by numbers

// What was found, in the ten entries.
fn put_entries(found: Finding, answer: &mut [u16; 10])
    ensures { answer.new ≡ entries_of found }
{
    match found {
        Finding::Cell(a, b, c, d, e, f, g, h) => {
            *answer = [0, a, b, c, d, e, f, g, h, 0];
        }
        Finding::Turned(a, b, c, d, e, f, g, h) => {
            *answer = [7, a, b, c, d, e, f, g, h, 0];
        }
        Finding::BadCorner(i) => {
            *answer = [1, i, 0, 0, 0, 0, 0, 0, 0, 0];
        }
        Finding::NoEdge(i) => {
            *answer = [2, i, 0, 0, 0, 0, 0, 0, 0, 0];
        }
        Finding::NoFace(i) => {
            *answer = [3, i, 0, 0, 0, 0, 0, 0, 0, 0];
        }
        Finding::BadBox(i) => {
            *answer = [4, i, 0, 0, 0, 0, 0, 0, 0, 0];
        }
        Finding::OpenFace(i) => {
            *answer = [5, 0, i, 0, 0, 0, 0, 0, 0, 0];
        }
        Finding::OpenTriple(u, v, w) => {
            *answer = [5, 1, u, v, w, 0, 0, 0, 0, 0];
        }
        Finding::TwoParts => {
            *answer = [6, 0, 0, 0, 0, 0, 0, 0, 0, 0];
        }
    }
}

// A refusal's number, whichever it is, and the entries as they were; or 0, and in the ten entries what was found.
pub fn hand_out(found: Result<Finding, u8>, answer: &mut [u16; 10]) -> u8
    ensures number { result ≡ number_behind found }
    ensures answer { answer.new ≡ entries_behind found answer.old }
{
    match found {
        Ok(found) => {
            put_entries(found, answer);
            0
        }
        Err(number) => number,
    }
}
