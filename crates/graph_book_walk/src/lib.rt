// The textbook's search for a cycle: `open` opens a node and `edges` goes through its edges, each calling the other. A node is white till it is
// opened, gray while its edges are gone through, and black from then on. There is a cycle exactly where an edge leads to a gray node.
#![tactic(auto)]

ghost use Rattle.std.specs.Prelude.{◌≡◌, ℕ, ◌<◌, length};
ghost use Rattle.graphs.specs.Lists.{below};
ghost use Rattle.graphs.specs.Walk.{cyclic};
ghost use Rattle.graph_neighbours.specs.Followed.{followed};
ghost use Rattle.graph_neighbours.specs.Lists.{edge, Graph};
ghost use Rattle.graph_book_walk.specs.Book.{CanOpen, Opened, CanGo, Gone};

use graph_colours::State;
use graph_neighbours::{Direction, Neighbours};

// Opens the white node x: tells whether a gray node was met.
#[cycle(edges_open)]
fn open(graph: &Neighbours, colour: &mut [State], x: usize) -> bool
    requires { CanOpen graph.now.starts.now (followed graph.now) (length colour.old) colour.old x }
    ensures { Opened graph.now.starts.now (followed graph.now) (length colour.old) colour.old x colour.new result }
{
    colour[x] = State::Gray;
    let met = edges(graph, colour, x);
    colour[x] = State::Black;
    met
}

// Goes through the edges of the gray node x: tells whether a gray node was met.
#[cycle(edges_open)]
fn edges(graph: &Neighbours, colour: &mut [State], x: usize) -> bool
    requires { CanGo graph.now.starts.now (followed graph.now) (length colour.old) colour.old x }
    ensures { Gone graph.now.starts.now (followed graph.now) (length colour.old) colour.old x colour.new result }
{
    let neighbours = graph.of(x);
    for &y in neighbours {
        match colour[y as usize] {
            // a closed walk is met
            State::Gray => return true,
            // it is passed by
            State::Black => {}
            // it is opened
            State::White => {
                if open(graph, colour, y as usize) {
                    return true;
                }
            }
        }
    }
    false
}

// Whether the graph has a cycle; it has a node for each colour.
pub fn has_cycle(heads: &[u32], list: &[u32], colour: &mut [State]) -> bool
    requires { Graph heads.now list.now (length colour.old) }
    ensures { result ≡ cyclic (edge heads.now list.now (length colour.old)) (below (length colour.old)) }
{
    let graph = Neighbours {
        direction: Direction::Dependencies,
        starts: heads,
        dependencies: list,
        dependents: list,
    };
    colour.fill(State::White);
    for x in 0..colour.len() {
        if colour[x] == State::White && open(&graph, colour, x) {
            return true;
        }
    }
    false
}
