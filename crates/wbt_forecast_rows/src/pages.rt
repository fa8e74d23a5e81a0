//! Which context a page is of.

ghost use Rattle.std.specs.Prelude.{◌≡◌};
ghost use Rattle.wbt_journal.specs.Machine.{page_context};
ghost use Rattle.wbt_trace.specs.Lawful.{AreFirsts};

use wbt_trace::Trace;

/// The context of a page; none where the trace doesn't have it. The inodes are searched by halves.
pub fn context_of_page(trace: &Trace, page: u32) -> Option<u32>
    requires { AreFirsts 0 trace.now.inodes }
    ensures { result ≡ page_context trace.now page }
{
    let inodes = trace.inodes.as_slice();
    let place = inodes.partition_point(|inode| u64::from(inode.first) + u64::from(inode.pages)
        <= u64::from(page));
    match inodes.get(place) {
        Some(inode) => Some(inode.context),
        None => None,
    }
}
