// The walk counter: a small struct with the mark of the latest walk, lent by `&mut` to the start of a reachability walk.
#![tactic(auto)]

ghost use Rattle.std.specs.Prelude.{◌≡◌};
ghost use Rattle.move_area.specs.Calls.{next};
ghost use Rattle.move_counter.specs.Marks.{unmarked, started};

#[derive(Clone, Copy, PartialEq, Eq, Debug)]
pub struct WalkCounter {
    pub mark: u32,
}

impl WalkCounter {
    // A walk's start: the counter is lent, and raised here. After the last mark all marks are cleared, and it starts again.
    #[tactic(auto, unfolding(move_area::specs::Calls::next, crate::specs::Marks::unmarked))]
    fn start(&mut self, marks: &mut [u32])
        ensures counter { self.new ≡ started self.old }
        ensures cleared { marks.new ≡ unmarked self.old.mark marks.old }
    {
        if self.mark == u32::MAX {
            marks.fill(0);
            self.mark = 1;
        } else {
            self.mark += 1;
        }
    }
}

// The same for a counter that is kept as a number: its next value.
pub fn begin(mark: u32, marks: &mut [u32]) -> u32
    ensures { (result ≡ next mark) × (marks.new ≡ unmarked mark marks.old) }
{
    let mut counter = WalkCounter { mark };
    counter.start(marks);
    counter.mark
}
