//! The available pages of a cgroup: its file pages, and of the clean pages elsewhere as many as may still be charged to it.

ghost use Rattle.std.specs.Prelude.{ℕ, ◌≡◌, ◌+◌, ◌^◌, ◌≤◌};
ghost use Rattle.wbt_limits.specs.Cgroup.{available_to_cgroup};

/// The available pages of a cgroup that has so many file pages, `dirty` of them dirty, and so many pages of headroom,
/// where the machine has `gavail` available pages, `gdirty` of them dirty.
pub fn cgroup_avail(filepages: u64, headroom: u64, dirty: u64, gavail: u64, gdirty: u64) -> u64
    requires filepages { filepages ≤ 2 ^ 40 }
    requires headroom { headroom ≤ 2 ^ 40 }
    ensures value { result ≡ available_to_cgroup filepages headroom dirty gavail gdirty }
    ensures at_least { filepages ≤ result }
    ensures at_most { result ≤ filepages + headroom }

    // The more pages of the machine are dirty, the fewer clean ones may still be charged to the cgroup.
    ensures never_rises { (more : ℕ) → gdirty ≤ more → available_to_cgroup filepages headroom dirty gavail more ≤ result }
{
    let clean = filepages - filepages.min(dirty);
    let global_clean = gavail - gavail.min(gdirty);
    let clean_elsewhere = global_clean - global_clean.min(clean);
    filepages + headroom.min(clean_elsewhere)
}
