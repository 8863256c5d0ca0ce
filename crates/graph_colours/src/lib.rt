// The three states of a node in a depth-first search, as in the book, and the numbers by which a list of colours can hold them.
#![tactic(auto)]

ghost use Rattle.std.specs.Prelude.{◌≡◌, ◌<◌, ◌^◌};
ghost use Rattle.graph_colours.specs.Colours.{next_state, colour_of, number_of};

// A node's state, as in the book: white till it is discovered, gray while its edges are gone through, black from then on.
#[derive(Clone, Copy, PartialEq, Eq, Debug)]
pub enum State {
    White,
    Gray,
    Black,
}

impl State {
    // The node's next state.
    // stays: a step and no conversion; the match is the book's table, and no other form is plainer.
    pub fn next(self) -> State
        ensures { result ≡ next_state self }
    {
        match self {
            // it is discovered
            State::White => State::Gray,
            // all its edges are gone through
            State::Gray => State::Black,
            // to the end
            State::Black => State::Black,
        }
    }

    // The state's number, once `finished` nodes have finished.
    pub fn number(self, finished: usize) -> u32
        requires { finished < 2 ^ 31 }
        ensures { result ≡ number_of self finished }
    {
        match self {
            State::White => 0,
            State::Gray => 1,
            State::Black => finished as u32 + 2,
        }
    }
}

// The state that a number stands for.
impl From<u32> for State {
    ghost from_gives = { λ c state. state ≡ colour_of c };

    fn from(c: u32) -> State {
        match c {
            0 => State::White,
            1 => State::Gray,
            _ => State::Black,
        }
    }
}
