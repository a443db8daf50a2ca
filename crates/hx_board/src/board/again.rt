// A board that is used again, and an end that is filled.

ghost use Rattle.std.specs.Prelude.{◌≡◌, ◌≢◌, false, None, IsOk, IfOk, IfErr, IsTrue, ◌↔◌};
ghost use Rattle.hx_word.specs.Entry.{EntryFits};
ghost use Rattle.hx_word.specs.Rooms.{HasEndRoom};
ghost use Rattle.hx_board.specs.Again.{reopened};
ghost use Rattle.hx_board.specs.Ends.{IsFor, EndsAs, EndsPlainly};

use super::Board;
use crate::effect::first_counts;
use crate::job::Job;
use hx_word::entry::{Entry, RegionEnd, opened_by};
use hx_word::opened::words_behind;
use hx_word::room::{refill_text, refill_words};

impl<'c> Board<'c> {
    /// A board on which nothing has run, for another job and entry, as `new` gives it with the workers and the capacities that it has. It
    /// takes no memory. Err gives the board back exactly where the job's code says something else.
    pub fn reuse(self, job: Job<'c>, entry: &Entry) -> Result<Board<'c>, Board<'c>>
        requires { EntryFits job.code.now job.region entry.now }
        ensures exact { IsOk result ↔ (self.entry.setup.code ≡ job.entry.code.now) }
        ensures again { IfOk result (λ b. b ≡ reopened self.entry job.entry.region entry.now) }
        ensures back { IfErr result (λ b. b ≡ self.entry) }
    {
        let mut board = self;
        if !board.job.code.is_same(job.code) {
            return Err(board);
        }
        board.reuse_own(job.region, entry);
        Ok(board)
    }

    /// What `reuse` does with a region of this board's code, which it doesn't compare.
    pub fn reuse_own(&mut self, region: u32, entry: &Entry)
        requires { EntryFits self.old.setup.code region entry.now }
        ensures { self.new ≡ reopened self.old region entry.now }
    {
        let code = self.job.code;
        let opened = opened_by(code, region, entry);
        let counts = first_counts();
        self.job.region = region;
        self.opened = opened;
        self.entry.store.copy_from_slice(&entry.store);
        refill_words(&mut self.entry.locals, &entry.locals);
        self.entry.depth = entry.depth;
        self.entry.text_len = entry.text_len;
        self.store.copy_from_slice(&entry.store);
        self.text.clear();
        self.slots.drop_all();
        self.head = 0;
        self.exit = None;
        self.is_out = false;
        self.is_spent = false;
        self.counts = counts;
    }

    /// The region's end, as `finish` gives it, in place of another. False exactly where the region hasn't ended, or the job or the entry
    /// is none of this board's; the other end stays then. It takes no memory: the other has room for each end of the code.
    pub fn end_into(&self, job: &Job<'_>, entry: &Entry, end: &mut RegionEnd) -> bool
        requires { HasEndRoom job.now.code.now end.old }
        ensures exact { IsTrue result ↔ (IsFor self.now.setup job.now.code.now job.now.region entry.now × (self.now.exit ≢ None)) }
        ensures end { IsTrue result → EndsAs self.now end.new }
        ensures plain { IsTrue result → EndsPlainly job.now.code.now job.now.region entry.now end.new }
        ensures back { result ≡ false → end.new ≡ end.old }
        ensures room { HasEndRoom job.now.code.now end.new }
    {
        let Some(exit) = self.exit else {
            return false;
        };
        if !self.is_for(job, entry) {
            return false;
        }
        let code = self.job.code;
        code.known();
        let words = words_behind(code, &self.opened, exit, self.head, &self.store);
        let count = self.entry.locals.len();
        refill_words(&mut end.store, &self.store);
        refill_words(&mut end.locals, &words[..count]);
        refill_text(&mut end.text, &self.text);
        end.exit = exit;
        end.counts = self.counts;
        true
    }
}
