// Reading a stored job: the refusals 1 to 10, in their order.
ghost use Rattle.std.specs.Prelude.{◌≡◌, ◌^◌, ◌<◌};
ghost use Rattle.stored.specs.Reading.{length_ok, sum_ok, number_ok, header_ok, count_ok, block_ok, rest_byte_ok, rest_ok, read_answer, stated_read};
ghost use Rattle.jobs.specs.Steps.{sizes_read};

use blocks::layout::{Layout, limits_ok};
use blocks::numbers::{block_sum, byte_at, u16_at};
use blocks::rules::{Listed, rules_kept};
use scans::each;
use stored::{Reason, Refusal};

#[tactic(auto, unfolding(stored::specs::Reading::length_ok))]
fn length_ok(n: usize) -> bool
    ensures { result ≡ length_ok n }
{
    1 <= n && n <= 16896 && n % 512 == 0
}

#[tactic(auto, unfolding(stored::specs::Reading::header_ok))]
fn header_ok(s: &[u8]) -> bool
    ensures { result ≡ header_ok s.now }
{
    byte_at(s, 2) == 1
        && byte_at(s, 3) == 1
        && byte_at(s, 4) == 1
        && limits_ok(Layout::of_header(s).size)
}

#[tactic(auto, unfolding(stored::specs::Reading::count_ok))]
fn count_ok(s: &[u8], n: usize) -> bool
    ensures { result ≡ count_ok s.now n }
{
    n == Layout::of_header(s).block_count()
}

// A block where it stands in a job.
#[derive(Clone, Copy)]
struct Block<'a> {
    job: &'a [u8],
    number: usize,
    ghost near: { number < 2 ^ 54 },
}

impl<'a> Block<'a> {
    fn of(job: &'a [u8], number: usize) -> Block<'a>
        requires { number < 2 ^ 54 }
        ensures within { result.job.now ≡ job.now }
        ensures at { result.number ≡ number }
    {
        Block { job, number }
    }

    #[tactic(auto, unfolding(stored::specs::Reading::sum_ok))]
    fn sum_ok(self) -> bool
        ensures { result ≡ sum_ok self.entry.job.now self.entry.number }
    {
        block_sum(self.job, self.number) == u32::MAX
    }

    #[tactic(auto, unfolding(stored::specs::Reading::number_ok))]
    fn number_ok(self) -> bool
        ensures { result ≡ number_ok self.entry.job.now self.entry.number }
    {
        usize::from(u16_at(self.job, 512 * self.number)) == self.number
    }

    #[tactic(auto, unfolding(stored::specs::Reading::block_ok))]
    fn kind_and_used_ok(self) -> bool
        ensures { result ≡ block_ok self.entry.job.now self.entry.number }
    {
        let layout = Layout::of_header(self.job);
        let at = 512 * self.number;
        byte_at(self.job, at + 2) == layout.block_kind(self.number).number()
            && byte_at(self.job, at + 3) == layout.block_used(self.number)
    }

    #[tactic(auto, unfolding(stored::specs::Reading::rest_byte_ok))]
    fn rest_byte_ok(self, o: usize) -> bool
        requires { o < 504 }
        ensures { result ≡ rest_byte_ok self.entry.job.now self.entry.number o }
    {
        let at = 512 * self.number;
        o < 8 * usize::from(byte_at(self.job, at + 3)) || byte_at(self.job, at + 4 + o) == 0
    }

    fn rest_ok(self) -> bool
        ensures { result ≡ rest_ok self.entry.job.now self.entry.number }
    {
        each(504, |o| self.rest_byte_ok(o))
    }
}

// The layout of a stored job, once nothing is found wrong with it.
pub fn read(s: &[u8]) -> Result<Layout, Refusal>
    ensures { stated_read (sizes_read result) ≡ read_answer s.now }
{
    let blocks = s.len() / 512;
    Reason::Length.unless(length_ok(s.len()))?;
    Reason::Check.unless_each_block(blocks, |b| Block::of(s, b).sum_ok())?;
    Reason::Number.unless_each_block(blocks, |b| Block::of(s, b).number_ok())?;
    Reason::Header.unless(header_ok(s))?;
    Reason::Count.unless(count_ok(s, blocks))?;
    Reason::Block.unless_each_block(blocks, |b| Block::of(s, b).kind_and_used_ok())?;
    Reason::Rest.unless_each_block(blocks, |b| Block::of(s, b).rest_ok())?;
    let layout = Layout::of_header(s);
    let nodes = Listed::in_blocks(s, 1);
    let expressions = Listed::in_blocks(s, layout.first_expressions());
    let clauses = Listed::in_blocks(s, layout.first_clauses());
    rules_kept(layout, nodes, expressions, clauses)?;
    Ok(layout)
}
