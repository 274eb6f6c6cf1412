// A text that grows in a lent buffer: its numbers and words.
ghost use Rattle.std.specs.Prelude.{◌≡◌, length};
ghost use Rattle.basis.specs.Figure.{Is};
ghost use Rattle.report.specs.Digits.{digits};
ghost use Rattle.report.specs.Report.{number_then};
ghost use Rattle.report.specs.Put.{Room, Put};

// The buffer, and where in it the next byte goes.
#[derive(Drop)]
pub(crate) struct Text<'a> {
    pub out: &'a mut [u8],
    pub at: usize,
}

// How many digits a number has.
#[tactic(auto, using(crate::proofs::Digits::digits_counted, crate::proofs::Digits::one_length))]
pub(crate) fn digit_count(n: u64) -> usize
    ensures { Is result (length (digits n)) 20 }
{
    if n < 10 {
        return 1;
    }
    // By `as`: the library has no From out of usize, nor into it from 32 bits or more.
    n.ilog10() as usize + 1
}

// What is asked of each method that writes is the room for what it writes itself, and so one clause for each.
impl<'a> Text<'a> {
    // A text with nothing in it yet.
    pub(crate) fn new(out: &'a mut [u8]) -> Text<'a>
        ensures lent { result.out.ghost_name ≡ out.entry.ghost_name }
        ensures begin { result.at ≡ 0 }
        ensures same { result.out.now ≡ out.old }
    {
        Text { out, at: 0 }
    }

    #[tactic(auto, using(crate::proofs::Stores::part_stored))]
    pub(crate) fn word(&mut self, word: &[u8])
        requires { Room word.now self.old }
        ensures { Put word.now self.old self.new }
    {
        let end = self.at + word.len();
        self.out[self.at..end].copy_from_slice(word);
        self.at = end;
    }

    // A number, its last digit first, and the byte after it. The library's itoa does the same with a table of 200 bytes, which a unit would burn; and what is left of the number ends the loop, not a place.
    #[tactic(auto, using(crate::proofs::Digits::more_length, crate::proofs::Numbers::number_then_length, crate::proofs::Numbers::number_then_stored))]
    pub(crate) fn number(&mut self, n: u64, after: u8)
        requires { Room (number_then n after) self.old }
        ensures { Put (number_then n after) self.old self.new }
    {
        let end = self.at + digit_count(n);
        let mut place = end;
        let mut rest = n;
        while 10 <= rest {
            place -= 1;
            // A digit: nothing is cut off.
            self.out[place] = b'0' + (rest % 10) as u8;
            rest /= 10;
        }
        self.out[self.at] = b'0' + rest as u8;
        self.out[end] = after;
        self.at = end + 1;
    }
}
