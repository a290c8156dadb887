//! An example: a map is edited from code, without a script. Two squares have a side in common. The
//! upper corner that both have is moved; a move that would lead one border across another is refused;
//! the first move is taken back; and the map is printed as TopoJSON, the common side once.
#![tactic(auto)]

ghost use Rattle.std.specs.Prelude.{IfSome};
ghost use Rattle.edit_records.specs.Commands.{IsSound};

use arc_store::{EditFault, Map};
use device_io::ToWriter;
use grid_geometry::Pos;
use segment_index::TreeIndex;
use std::alloc::Global;
use std::hash::RandomState;
use std::process::ExitCode;
use topo_reader::read;
use topo_writer::write;
use undo_ring::{Answer, Command, Editor};

const SQUARES: &str =
    "{\"type\":\"Topology\",\"objects\":{\"land\":{\"type\":\"GeometryCollection\",\
\"geometries\":[{\"type\":\"Polygon\",\"id\":\"A\",\"arcs\":[[0,1]]},\
{\"type\":\"Polygon\",\"id\":\"B\",\"arcs\":[[-1,2]]}]}},\"arcs\":[[[10,0],[10,10]],\
[[10,10],[0,10],[0,0],[10,0]],[[10,0],[20,0],[20,10],[10,10]]]}";

/// How many changes can be taken back.
const DEPTH: usize = 10;

/// An editor whose map is found through a tree, in the memory of the program.
type MapEditor<'a> = Editor<'a, TreeIndex<Global>, Global>;

/// An editor of the map of a text, whose positions are hashed by a seed; `None` where the map does not
/// open.
fn opened(alloc: Global, seed: RandomState, text: &[u8]) -> Option<MapEditor<'_>> {
    let Ok(raw) = read(alloc, alloc, seed, text) else {
        return None;
    };
    let index = TreeIndex::new(alloc, raw.extent());
    let map = Map::build(alloc, alloc, seed, raw, index).ok()?;
    Editor::new(alloc, map, DEPTH).ok()
}

/// The command that moves a vertex; `None` where a coordinate is out of range.
fn moving(from: (i64, i64), to: (i64, i64)) -> Option<Command>
    ensures { IfSome result IsSound }
{
    Some(Command::Move(Pos::new(from.0, from.1)?, Pos::new(to.0, to.1)?))
}

/// Prints what an editor says of a command; `None` where nothing can be printed.
fn tell(rt: &HostRuntime, said: &Result<Answer, EditFault>) -> Option<()> {
    let word = match said {
        Ok(Answer::Area(twice)) => return println!(rt; "twice the area is {twice}").ok(),
        Ok(_) => "done",
        Err(EditFault::Conflict { .. }) => "refused: two borders would meet",
        Err(_) => "refused",
    };
    println!(rt; "{word}").ok()
}

/// Gives an editor a command, and prints what it says; `None` where that fails.
fn give(rt: &HostRuntime, editor: &mut MapEditor<'_>, command: Command) -> Option<()>
    requires { IsSound command }
{
    tell(rt, &editor.apply(command))
}

/// Prints the map as TopoJSON; `None` where that fails.
fn show(rt: &HostRuntime, editor: &MapEditor<'_>) -> Option<()> {
    let mut out = ToWriter::new(rt.stdout());
    write(rt.alloc(), editor.map(), &mut out).ok()?;
    println!(rt; "").ok()
}

/// Edits a map, takes an edit back, and prints the map; `None` where memory is wanting or nothing can
/// be printed.
fn edit(rt: &HostRuntime, editor: &mut MapEditor<'_>) -> Option<()> {
    give(rt, editor, Command::Area(0))?;
    give(rt, editor, moving((10, 10), (12, 12))?)?;
    give(rt, editor, Command::Area(0))?;
    give(rt, editor, moving((0, 0), (15, 5))?)?;
    if editor.undo().is_ok() {
        println!(rt; "taken back").ok()?;
    }
    show(rt, editor)
}

/// Runs the example; `None` where that fails.
fn run(rt: &HostRuntime) -> Option<()> {
    let seed = RandomState::new(rt).ok()?;
    edit(rt, &mut opened(rt.alloc(), seed, SQUARES.as_bytes())?)
}

fn main(rt: HostRuntime) -> ExitCode {
    match run(&rt) {
        Some(()) => ExitCode::from(0),
        None => ExitCode::from(1),
    }
}
