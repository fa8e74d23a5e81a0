//! What a cgroup and a context have of the machine.

ghost use Rattle.std.specs.Prelude.{◌≡◌, ◌≢◌, ◌↔◌};
ghost use Rattle.wbt_limits.specs.Cgroup.{available_to_cgroup};
ghost use Rattle.wbt_limits.specs.Context.{context_background as background_of, context_threshold as threshold_of};
ghost use Rattle.wbt_calls.specs.Parts as spec;
ghost use Rattle.wbt_calls.specs.declared.status.TheConstants.{OK};

use wbt_calls::Share;

/// The available pages of a cgroup with so many file pages, `dirty` of them dirty, and so many pages of headroom, where the machine has
/// `global_avail` available pages, `global_dirty` of them dirty.
#[unsafe(no_mangle)]
pub extern "C" fn wbt_cgroup_available(
    filepages: u64,
    headroom: u64,
    dirty: u64,
    global_avail: u64,
    global_dirty: u64,
    out: &mut u64,
) -> u32
    ensures status { result ≡ spec.status_of_cgroup filepages headroom }
    ensures taken { result ≡ OK ↔ spec.IsCgroupTaken filepages headroom }
    ensures value { result ≡ OK → out.new ≡ available_to_cgroup filepages headroom dirty global_avail global_dirty }
    ensures refused { result ≢ OK → out.new ≡ out.old }
{
    wbt_calls::cgroup_available(filepages, headroom, dirty, global_avail, global_dirty, out)
}

/// The part of a context in the threshold of its domain.
#[unsafe(no_mangle)]
pub extern "C" fn wbt_context_threshold(thresh: u64, share: &Share, out: &mut u64) -> u32
    ensures status { result ≡ spec.status_of_threshold thresh share.now }
    ensures taken { result ≡ OK ↔ spec.IsThresholdTaken thresh share.now }
    ensures value { result ≡ OK → out.new ≡ threshold_of thresh share.now.num share.now.den share.now.sum_min share.now.min share.now.max }
    ensures refused { result ≢ OK → out.new ≡ out.old }
{
    wbt_calls::context_threshold(thresh, share, out)
}

/// The part of a context in the background threshold `bg` of its domain, in the proportion of its part `context_thresh` in the threshold
/// `thresh`; 0 where that is 0.
#[unsafe(no_mangle)]
pub extern "C" fn wbt_context_background(
    context_thresh: u64,
    bg: u64,
    thresh: u64,
    out: &mut u64,
) -> u32
    ensures status { result ≡ spec.status_of_background context_thresh bg }
    ensures taken { result ≡ OK ↔ spec.IsBackgroundTaken context_thresh bg }
    ensures value { result ≡ OK → out.new ≡ background_of context_thresh bg thresh }
    ensures refused { result ≢ OK → out.new ≡ out.old }
{
    wbt_calls::context_background(context_thresh, bg, thresh, out)
}
