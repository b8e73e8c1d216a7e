// The pattern of the asked key, drawn node after node: from the root to u, on to t, and a branch for each key path.
#![tactic(auto)]

ghost use Rattle.std.specs.Prelude.{◌≡◌, true, ◌&&◌, ◌||◌, ◌+◌, ◌*◌, ◌<◌, length};
ghost use Rattle.meaning.specs.Records.{key_in};
ghost use Rattle.meaning.specs.Pattern.{drawn as drawn_as};
ghost use Rattle.read_record.specs.Classes.{class_by};
ghost use Rattle.write_pattern.specs.Sketch.{Room, Shown, dressed, Entered, Sizes, Sketchable, nothing, sketch};
ghost use Rattle.write_pattern.specs.Sketch.{add_to, draw_run, draw_branches, draw_trunk, draw_below};

use read_record::classes::is_element;
use read_record::keys::{context, count, holds_empty, path, target};

// The labels that no profile declares: "201 is a filler element, 202 a filler attribute, 203 the root"; "Symbol 0 in a path is the any-path"
const ANY_PATH: u8 = 0;

const FILLER_ELEMENT: u8 = 201;

const FILLER_ATTRIBUTE: u8 = 202;

const ROOT_LABEL: u8 = 203;

// A node of the drawing: the number that it hangs under, its label and whether it is marked.
#[derive(Clone, Copy, Debug, PartialEq, Eq)]
pub struct Entry {
    pub parent: u8,
    pub label: u8,
    pub mark: bool,
}

// The nodes that the tree has before it is doubled: at most 98, 2 for each of the pattern's 49. `above` is the number of the node that the
// next one hangs under.
// Stays: so many entries with their number beside them, because nothing here stands on the heap.
#[derive(Clone, Copy)]
pub struct Drawing {
    pub entries: [Entry; 128],
    pub size: usize,
    pub above: u8,
}

fn blank() -> Drawing
    ensures { Shown result nothing 0 }
{
    let entry = Entry {
        parent: 0,
        label: 0,
        mark: false,
    };
    Drawing {
        entries: [entry; 128],
        size: 0,
        above: 0,
    }
}

// One number more.
fn put(drawing: Drawing, entry: Entry, above: u8) -> Drawing
    requires { Room drawing 1 }
    ensures { Entered drawing result (dressed entry) above }
{
    let mut d = drawing;
    d.entries[d.size] = entry;
    d.size += 1;
    d.above = above;
    d
}

// A node, "followed at once by a filler attribute" if it is an element. The next one hangs under it.
fn add(drawing: Drawing, classes: &[u8; 256], label: u8, mark: bool) -> Drawing
    requires { Room drawing 2 }
    ensures { Shown result (add_to (class_by classes.now) (sketch drawing) label mark) (drawing.size + 2) }
{
    let at = drawing.size as u8;
    let parent = drawing.above;
    let entry = Entry {
        parent,
        label,
        mark,
    };
    let own = put(drawing, entry, at);
    if !is_element(classes, usize::from(label)) {
        return own;
    }
    let filler = Entry {
        parent: at,
        label: FILLER_ATTRIBUTE,
        ..entry
    };
    put(own, filler, at)
}

// "each any-path drawn as one filler element"
fn drawn(symbol: u8) -> u8
    ensures { result ≡ drawn_as symbol }
{
    if symbol == ANY_PATH {
        return FILLER_ELEMENT;
    }
    symbol
}

fn is_marked(every: bool, last: bool, ends: bool) -> bool
    ensures { result ≡ (every || (last && ends)) }
{
    every || (last && ends)
}

// A path downwards. `every`: all its nodes are marked; `last`: its last one is.
fn draw_run(drawing: Drawing, classes: &[u8; 256], run: &[u8], every: bool, last: bool) -> Drawing
    requires { Room drawing (2 * length run.now) }
    ensures { Shown result (draw_run (class_by classes.now) every last (sketch drawing) run.now) (drawing.size + 2 * length run.now) }
{
    let mut d = drawing;
    for (i, &symbol) in run.iter().enumerate() {
        let mark = is_marked(every, last, i + 1 == run.len());
        d = add(d, classes, drawn(symbol), mark);
    }
    d
}

// "from t one separate branch for each key path, in order"
fn draw_branches(drawing: Drawing, asked: &[u8], classes: &[u8; 256], whole: bool) -> Drawing
    requires { Sizes asked.now × Room drawing 64 }
    ensures { Shown result (draw_branches (class_by classes.now) whole drawing.above (sketch drawing) (key_in asked.now).paths) (drawing.size + 64) }
{
    let t = drawing.above;
    let mut d = drawing;
    for i in 0..count(asked) {
        d.above = t;
        let key_path = path(asked, i);
        d = draw_run(d, classes, key_path, whole, true);
    }
    d
}

// "the pattern's nodes from root to u"
pub fn draw_trunk(asked: &[u8], classes: &[u8; 256], u: usize) -> Drawing
    requires { Sketchable asked.now u }
    ensures { Shown result (draw_trunk (class_by classes.now) (key_in asked.now) u) 34 }
{
    let root = add(blank(), classes, ROOT_LABEL, false);
    let to_q = context(asked);
    let q = draw_run(root, classes, to_q, false, false);
    let to_t = target(asked);
    let to_u = u - to_q.len();
    draw_run(q, classes, &to_t[0..to_u], false, false)
}

// "then all the others in order (downwards, branch after branch)"
pub fn draw_below(trunk: Drawing, asked: &[u8], classes: &[u8; 256], u: usize) -> Drawing
    requires { Sketchable asked.now u × Room trunk 80 }
    ensures { Shown result (draw_below (class_by classes.now) (key_in asked.now) u (sketch trunk)) 128 }
{
    let whole = holds_empty(asked);
    let to_q = context(asked);
    let to_t = target(asked);
    let to_u = u - to_q.len();
    let t = draw_run(trunk, classes, &to_t[to_u..], false, whole);
    draw_branches(t, asked, classes, whole)
}
