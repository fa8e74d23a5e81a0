//! The sides of all CPUs, with a disk for each flusher.

ghost use Rattle.std.specs.Prelude.{◌≡◌, ℕ, ◌<◌, ◌^◌, [], length, Some, IfOk};
ghost use Rattle.wbt_io.specs.Pages.{Grows};
ghost use Rattle.wbt_journal.specs.Each.{Each};
ghost use Rattle.wbt_rules.specs.Thresholds.{global_at};
ghost use Rattle.wbt_run_worker.specs.Team.{faults_in, seen, written_by};
ghost use Rattle.wbt_trace.specs.Lawful.{IsLawful};
ghost use Rattle.wbt_run_drain.specs.Teams.{faults_by_all, posts_of, teams_of, written_by_all};
ghost use Rattle.wbt_run_first.specs.Back.{IsNothing, NotFallen, WereGiven};
ghost use Rattle.wbt_run_first.specs.Lent.{AreFirstPosts, AreFirstSides, IsFirstPost, IsFirstSide, IsOpen};

use std::alloc::Global;
use wbt_flusher::Flusher;
use wbt_io::Rack;
use wbt_journal::CpuJournal;
use wbt_num::{Items, Limits, NoMemory};
use wbt_run_worker::{CpuSide, End, Job, Post, Stand};
use wbt_trace::Trace;
use wbt_writer::WriterCpu;

/// The side of each CPU in order at the opening's moment, in ticks, where the global domain has these first limits. Where memory is
/// refused all disks are given back.
pub fn make_sides<'t, R: Rack>(
    alloc: Global,
    trace: &'t Trace,
    opened: u64,
    first: &Limits,
    rack: &mut R,
) -> Result<Vec<CpuSide<'t, R::D>>, NoMemory>
    requires lawful { IsLawful trace.now }
    requires opened { opened < 2 ^ 62 }
    ensures made { IfOk result (λ sides. (now : ℕ) → first.now.thresh ≡ (global_at trace.now now).thresh → AreFirstSides R.D.written R.D.faults trace.now now sides.items) }
    ensures unwritten { IfOk result (λ sides. IsNothing (written_by_all (teams_of R.D.written R.D.faults sides.items))) }

    // The rack has taken disks back only where memory was refused, and these have written nothing.
    ensures written { Grows (Some 0) (R.written rack.old) (R.written rack.new) }
    ensures fallen { NotFallen (R.faults rack.old) (R.faults rack.new) }
{
    let mut sides = Vec::with_capacity(alloc, trace.cpus as usize)?;
    for cpu in 0..trace.cpus {
        match make_side(alloc, trace, cpu, opened, first, rack) {
            Ok(side) => sides.push_reserved(side),
            Err(refused) => {
                give_all(sides, rack);
                return Err(refused);
            }
        }
    }
    Ok(sides)
}

fn make_side<'t, R: Rack>(
    alloc: Global,
    trace: &'t Trace,
    cpu: u32,
    opened: u64,
    first: &Limits,
    rack: &mut R,
) -> Result<CpuSide<'t, R::D>, NoMemory>
    requires lawful { IsLawful trace.now }
    requires opened { opened < 2 ^ 62 }
    ensures made { IfOk result (λ side. (now : ℕ) → first.now.thresh ≡ (global_at trace.now now).thresh → IsFirstSide R.D.written R.D.faults trace.now now cpu side) }
    ensures unwritten { IfOk result (λ side. IsNothing (written_by (posts_of R.D.written R.D.faults side.posts.items))) }
    ensures written { Grows (Some 0) (R.written rack.old) (R.written rack.new) }
    ensures fallen { NotFallen (R.faults rack.old) (R.faults rack.new) }
{
    let writers = WriterCpu::make(alloc, trace, cpu, first)?;
    let posts = make_posts(alloc, trace, cpu, opened, first, rack)?;
    Ok(CpuSide {
        writers,
        posts,
        next: Job::Writers,
        log: empty_log(alloc),
        end: End::Ended,
    })
}

fn empty_log(alloc: Global) -> CpuJournal
    ensures { result ≡ record { entries = []; checks = []; estimates = [] } }
{
    CpuJournal {
        entries: Items::new(alloc),
        checks: Items::new(alloc),
        estimates: Items::new(alloc),
    }
}

// The flushers of a CPU, in order.
fn make_posts<R: Rack>(
    alloc: Global,
    trace: &Trace,
    cpu: u32,
    opened: u64,
    first: &Limits,
    rack: &mut R,
) -> Result<Vec<Post<R::D>>, NoMemory>
    requires lawful { IsLawful trace.now }
    requires opened { opened < 2 ^ 62 }
    ensures made { IfOk result (λ posts. AreFirstPosts trace.now cpu (posts_of R.D.written R.D.faults posts.items)) }
    ensures opens { IfOk result (λ posts. Each IsOpen posts.items) }
    ensures written { Grows (Some 0) (R.written rack.old) (R.written rack.new) }
    ensures fallen { NotFallen (R.faults rack.old) (R.faults rack.new) }
{
    let flushers = trace.flushers.as_slice().len();
    let mut posts = Vec::with_capacity(alloc, flushers)?;
    for number in 0..flushers {
        if trace.flushers.as_slice()[number].cpu == cpu {
            match make_post(alloc, trace, number as u32, opened, first, rack) {
                Ok(post) => posts.push_reserved(post),
                Err(refused) => {
                    give_posts(posts, rack);
                    return Err(refused);
                }
            }
        }
    }
    Ok(posts)
}

#[tactic(auto, using(crate::proofs::Posting::none_waits_first))]
fn make_post<R: Rack>(
    alloc: Global,
    trace: &Trace,
    number: u32,
    opened: u64,
    first: &Limits,
    rack: &mut R,
) -> Result<Post<R::D>, NoMemory>
    requires lawful { IsLawful trace.now }
    requires opened { opened < 2 ^ 62 }
    requires there { number < length trace.now.flushers }
    ensures made { IfOk result (λ post. IsFirstPost trace.now post.flusher.plan.cpu (seen R.D.written R.D.faults post)) }
    ensures number { IfOk result (λ post. post.flusher.plan.flusher ≡ number) }
    ensures opens { IfOk result IsOpen }
    ensures written { Grows (Some 0) (R.written rack.old) (R.written rack.new) }
    ensures fallen { NotFallen (R.faults rack.old) (R.faults rack.new) }
{
    let device = trace.flushers.as_slice()[number as usize].device;
    let rate = trace.devices.as_slice()[device as usize].rate;
    let disk = rack.lend(alloc, number, rate)?;
    match Flusher::make(alloc, trace, number, disk, first, opened) {
        Ok(flusher) => Ok(Post {
            number,
            flusher,
            stand: Stand::Open,
        }),
        Err((refused, disk)) => {
            rack.give(disk);
            Err(refused)
        }
    }
}

/// Gives the disks of all sides back.
pub fn give_all<R: Rack>(sides: Vec<CpuSide<'_, R::D>>, rack: &mut R)
    ensures given { WereGiven (written_by_all (teams_of R.D.written R.D.faults sides.entry.items)) (faults_by_all (teams_of R.D.written R.D.faults sides.entry.items)) (R.written rack.old) (R.written rack.new) (R.faults rack.old) (R.faults rack.new) }
{
    let mut rest = sides.into_iter();
    while let Some(side) = rest.next() {
        let CpuSide {
            writers: _,
            posts,
            next: _,
            log: _,
            end: _,
        } = side;
        give_posts(posts, rack);
    }
    rest.destroy_empty();
}

/// Gives the disks of some flushers back.
pub fn give_posts<R: Rack>(posts: Vec<Post<R::D>>, rack: &mut R)
    ensures given { WereGiven (written_by (posts_of R.D.written R.D.faults posts.items)) (faults_in (posts_of R.D.written R.D.faults posts.items)) (R.written rack.old) (R.written rack.new) (R.faults rack.old) (R.faults rack.new) }
{
    let mut rest = posts.into_iter();
    while let Some(post) = rest.next() {
        let Post {
            number: _,
            flusher,
            stand: _,
        } = post;
        rack.give(flusher.into_disk());
    }
    rest.destroy_empty();
}
