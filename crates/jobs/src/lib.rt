// Stored jobs: their sizes, their records taken out, and records stored as a job.
#![tactic(auto)]

mod reading;

ghost use Rattle.std.specs.Prelude.{◌≡◌, ℕ, ◌++◌, ◌+◌, ◌*◌, ◌<◌, ◌≤◌, length, drop};
ghost use Rattle.scans.specs.Lists.{list_of};
ghost use Rattle.stored.specs.Layout.{record_byte};
ghost use Rattle.stored.specs.Reading.{read_answer, room_ok, stated_read};
ghost use Rattle.stored.specs.Packing.{lists_ok};
ghost use Rattle.stored.specs.Operations.{records_for, Unpacks, Packs};

use crate::reading::read;
use blocks::layout::{Layout, limits_ok};
use blocks::numbers::byte_at;
use blocks::rules::{Listed, rules_kept};
use stored::{Reason, Refusal, Size};
use storing::Records;

// The sizes of a stored job, so that a caller knows what to lend.
pub fn sizes(job: &[u8]) -> Result<Size, Refusal>
    ensures { stated_read result ≡ read_answer job.now }
{
    read(job).map(|layout| layout.size)
}

// The block by its number, here and in `copy_records`: a `Listed` may also be a row, of which this clause does not speak.
#[tactic(auto, unfolding(stored::specs::Layout::record_byte))]
fn record_byte(s: &[u8], first: usize, q: usize) -> u8
    requires { (first < 65536) × (q < 1000000) }
    ensures { result ≡ record_byte s.now first q }
{
    byte_at(s, 512 * (first + q / 504) + 4 + q % 504)
}

// The m records that start in block `first`, in a row. Byte by byte, as the clause says the list: each byte by its place alone.
#[tactic(auto, using(scans::proofs::Lists::filling))]
fn copy_records(s: &[u8], first: usize, m: usize, list: &mut [u8])
    requires { (first < 65536) × (m < 65536) × (8 * m ≤ length list.old) }
    ensures { list.new ≡ list_of (record_byte s.now first) (8 * m) ++ drop (8 * m) list.old }
{
    for q in 0..8 * m {
        list[q] = record_byte(s, first, q);
    }
}

fn room_ok(z: Size, nodes: usize, expressions: usize, clauses: usize) -> bool
    requires { (z.n < 65536) × (z.e < 65536) × (z.c < 65536) }
    ensures { result ≡ room_ok z nodes expressions clauses }
{
    8 * z.n <= nodes && 8 * z.e <= expressions && 8 * z.c <= clauses
}

// The sizes of a stored job, and its records in three lent lists, each by itself, as C lends them.
pub fn unpack(
    job: &[u8],
    nodes: &mut [u8],
    expressions: &mut [u8],
    clauses: &mut [u8],
) -> Result<Size, Refusal>
    ensures { Unpacks job.now nodes.old expressions.old clauses.old nodes.new expressions.new clauses.new result }
{
    let layout = read(job)?;
    let z = layout.size;
    Reason::Room.unless(room_ok(z, nodes.len(), expressions.len(), clauses.len()))?;
    copy_records(job, 1, z.n, nodes);
    copy_records(job, layout.first_expressions(), z.e, expressions);
    copy_records(job, layout.first_clauses(), z.c, clauses);
    Ok(z)
}

#[tactic(auto, unfolding(stored::specs::Packing::lists_ok))]
fn lists_ok(nodes: &[u8], expressions: &[u8], clauses: &[u8]) -> bool
    ensures { (k : ℕ) → result ≡ lists_ok (records_for k nodes.now expressions.now clauses.now) }
{
    nodes.len() % 8 == 0 && expressions.len() % 8 == 0 && clauses.len() % 8 == 0
}

// Records stored as a job in a lent output. Each list stands by itself, as C lends it.
pub fn pack(
    k: usize,
    nodes: &[u8],
    expressions: &[u8],
    clauses: &[u8],
    out: &mut [u8],
) -> Result<usize, Refusal>
    ensures { Packs (records_for k nodes.now expressions.now clauses.now) out.old out.new result }
{
    Reason::Length.unless(lists_ok(nodes, expressions, clauses))?;
    let size = Size {
        k,
        n: nodes.len() / 8,
        e: expressions.len() / 8,
        c: clauses.len() / 8,
    };
    Reason::Header.unless(limits_ok(size))?;
    let layout = Layout { size };
    rules_kept(
        layout,
        Listed::in_row(nodes),
        Listed::in_row(expressions),
        Listed::in_row(clauses),
    )?;
    let records = Records {
        layout,
        nodes,
        expressions,
        clauses,
    };
    let bytes = records.size();
    Reason::Room.unless(bytes <= out.len())?;
    records.write(out);
    Ok(bytes)
}
