// The lines of a report, added to a text.
ghost use Rattle.report.specs.Report.{check_line, check_lines, pair, height_line, column_line, report};
ghost use Rattle.report.specs.Put.{Room, Put};

use crate::text::Text;
use section5::{CHECKS, Heights, Judgement};

// Each asks for the room of what it writes itself.
impl Text<'_> {
    #[tactic(auto, using(crate::proofs::Put::room_first), unfolding(crate::specs::Report::check_line))]
    fn check(&mut self, check: u64, verdict: u64, figure: u64)
        requires { Room (check_line check verdict figure) self.old }
        ensures { Put (check_line check verdict figure) self.old self.new }
    {
        self.number(check, b' ');
        self.number(verdict, b' ');
        self.number(figure, b'\n');
    }

    #[tactic(auto, using(crate::proofs::CheckLines::no_verdict, crate::proofs::CheckLines::no_figure, crate::proofs::Put::unfinished_end))]
    pub(crate) fn checks(&mut self, verdicts: [u8; CHECKS], figures: [u64; CHECKS])
        requires { Room (check_lines 1 verdicts figures) self.old }
        ensures { Put (check_lines 1 verdicts figures) self.old self.new }
    {
        for (check, (verdict, figure)) in (1..).zip(verdicts.iter().zip(&figures)) {
            self.check(check, u64::from(*verdict), *figure);
        }
    }

    // Two numbers, with which a line ends. The word before them is its caller's, so that its bytes are stored without a loop.
    #[tactic(auto, using(crate::proofs::Put::room_first, crate::proofs::Put::room_then), unfolding(crate::specs::Report::pair))]
    pub(crate) fn pair(&mut self, first: u64, second: u64)
        requires { Room (pair first second) self.old }
        ensures { Put (pair first second) self.old self.new }
    {
        self.number(first, b' ');
        self.number(second, b'\n');
    }

    #[tactic(auto, using(crate::proofs::Put::room_first, crate::proofs::Put::room_then, crate::proofs::Put::put_then), unfolding(crate::specs::Report::height_line, crate::specs::Report::pair_line))]
    pub(crate) fn heights(&mut self, heights: Heights)
        requires { Room (height_line heights) self.old }
        ensures { Put (height_line heights) self.old self.new }
    {
        match heights {
            Heights::NoLine => {}
            Heights::Nowhere => self.word(b"height none\n"),
            Heights::Both(stability, permitted) => {
                self.word(b"height ");
                self.pair(stability, permitted);
            }
        }
    }

    #[tactic(auto, using(crate::proofs::Put::room_first, crate::proofs::Put::room_then, crate::proofs::Put::put_then), unfolding(crate::specs::Report::column_line))]
    pub(crate) fn column(&mut self, z: u64)
        requires { Room (column_line z) self.old }
        ensures { Put (column_line z) self.old self.new }
    {
        self.word(b"column ");
        self.number(z, b'\n');
    }

    pub(crate) fn report(&mut self, g: Judgement)
        requires { Room (report g) self.old }
        ensures { Put (report g) self.old self.new }
    {
        self.checks(g.verdicts, g.figures);
        self.heights(g.heights);
        self.word(b"wind ");
        self.pair(g.wk, g.mw);
        self.column(g.z);
    }
}
