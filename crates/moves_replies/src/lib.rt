// The lines of replies, written into a list of bytes one behind the other.
#![tactic(auto)]

ghost use Rattle.std.specs.Prelude.{◌≡◌, ◌∷◌, ◌++◌, ◌+◌, ◌-◌, ◌≤◌, length};
ghost use Rattle.move_ledger.specs.Answer.{refused, number};
ghost use Rattle.refusals.specs.Rows.{row};
ghost use Rattle.moves_replies.specs.Decimal.{decimal};
ghost use Rattle.moves_replies.specs.Words.{reply, line, space};
ghost use Rattle.moves_replies.specs.Wrote.{HasRoom, Wrote};

use refusals::Refusal;

// The list that is written into, and the place behind what is written already.
// stays: `HasRoom` is asked text by text. Room shrinks with each text that is written, so that it is no fact of the type; a type for each room would be no plainer
#[derive(Drop)]
pub struct Replies<'o> {
    pub out: &'o mut [u8],
    pub at: usize,
}

// stays: numbers, rows, edges and sets are printed by hand, here and in moves_answers. A `Display` states its bytes, yet promises them only where the writer answers Ok;
// here room is asked beforehand and each text is promised byte for byte. A writer over the lent list, and at each text a proof that it can't fail, would be no plainer
impl<'o> Replies<'o> {
    // How many bytes still fit.
    pub fn room(&self) -> usize
        requires { HasRoom 0 self.now }
        ensures { result ≡ length self.now.out.now - self.now.at }
    {
        self.out.len() - self.at
    }

    pub fn put(&mut self, text: &[u8])
        requires { HasRoom (length text.now) self.old }
        ensures { Wrote text.now self.old self.new }
    {
        let end = self.at + text.len();
        self.out[self.at..end].copy_from_slice(text);
        self.at = end;
    }

    // A number in base ten.
    pub fn put_number(&mut self, n: u64)
        requires { HasRoom 20 self.old }
        ensures put { Wrote (decimal n) self.old self.new }
        ensures upper_bound { self.new.at ≤ self.old.at + 20 }
    {
        // stays: memory is fixed, nothing is on the heap
        let mut text = [0u8; 20];
        let k = io::decimal(n, &mut text);
        self.put(&text[..k]);
    }

    // A number in base ten as a line.
    pub fn put_set(&mut self, n: u64)
        requires { HasRoom 21 self.old }
        ensures { Wrote (line (decimal n)) self.old self.new }
    {
        self.put_number(n);
        self.put(b"\n");
    }

    pub fn put_refused(&mut self, refusal: Refusal)
        requires { HasRoom 64 self.old }
        ensures { Wrote (reply (refused (row refusal))) self.old self.new }
    {
        self.put(b"refused ");
        self.put_set(u64::from(refusal.row()));
    }

    // The count of distinct edges as a line.
    pub fn put_edges(&mut self, n: u64)
        requires { HasRoom 64 self.old }
        ensures { Wrote (reply (number n)) self.old self.new }
    {
        self.put(b"edges ");
        self.put_set(n);
    }

    // An edge as a line.
    pub fn put_edge(&mut self, from: u64, to: u64, multiplicity: u64)
        requires { HasRoom 64 self.old }
        ensures { Wrote (line (decimal from ++ space ∷ decimal to ++ space ∷ decimal multiplicity)) self.old self.new }
    {
        self.put_number(from);
        self.put(b" ");
        self.put_number(to);
        self.put(b" ");
        self.put_number(multiplicity);
        self.put(b"\n");
    }
}
